ghost use Rattle.std.specs.Prelude.{◌<◌, ◌≤◌, IfOk, length};

use gate_clauses::{Blasted, clauses_at};
use nodes::Table;
use std::alloc::{AllocError, Global};
use std::test::Fail;

/// The clauses of one conjunct.
fn clauses_of_one(alloc: Global, table: &Table, k: usize) -> Result<Blasted, AllocError>
    requires { k < length table.now }
{
    clauses_at(alloc, table, &[k])
}

/// A condition of two input bits: that exactly one of them is 1.
#[tactic(auto, using(nodes::proofs::GrowthLemmas::still_within))]
fn exactly_one(alloc: Global) -> Result<Blasted, AllocError> {
    let mut table = Table::new(alloc);
    let low = table.input(7)?;
    let high = table.input(0)?;
    let differ = table.xor(low, high)?;
    clauses_of_one(alloc, &table, differ)
}

/// A gate on a gate.
#[tactic(auto, using(nodes::proofs::GrowthLemmas::still_within))]
fn gate_above(table: &mut Table, top: usize, side: usize) -> Result<usize, AllocError>
    requires top { top < length table.old }
    requires side { side < length table.old }
    ensures top { IfOk result (λ k. k < length table.new) }
    ensures side { side < length table.new }
{
    let turned = table.not(top)?;
    table.and(turned, side)
}

/// The clauses of a chain of gates.
#[tactic(auto, using(nodes::proofs::GrowthLemmas::still_within))]
fn chain(alloc: Global, gates: usize) -> Result<Blasted, AllocError> {
    let mut table = Table::new(alloc);
    let side = table.input(0)?;
    let mut top = table.input(1)?;
    for _ in 0..gates {
        top = gate_above(&mut table, top, side)?;
    }
    clauses_of_one(alloc, &table, top)
}

#[test]
fn numbers_inputs_in_order(rt: HostRuntime) -> Result<(), Fail> {
    let made = exactly_one(rt.alloc())?;
    assert_eq!(rt; made.formula.vars, 3);
    assert_eq!(rt; made.formula.clauses.len(), 5);
    assert_eq!(rt; made.order.as_slice(), [0, 1].as_slice());
    assert_eq!(rt; made.bits.as_slice(), [(0, 7), (0, 0)].as_slice());
    Ok(())
}

#[test]
fn numbers_a_chain_of_a_million_gates(rt: HostRuntime) -> Result<(), Fail> {
    let made = chain(rt.alloc(), 1_000_000)?;
    assert_eq!(rt; made.formula.vars, 1_000_002);
    Ok(())
}
