ghost use Rattle.std.specs.Prelude.{◌≡◌, ◌<◌, ◌++◌, ◌∷◌, [], ℕ, List, length, map, flat_map, IfOk, OnOk};
ghost use Rattle.std.specs.List.{range_with_len};
ghost use Rattle.cnf.specs.Cnf.{lists_of};
ghost use Rattle.gates.specs.Clauses as condition;
ghost use Rattle.gates.specs.Clauses.{conjunct_clauses, formula_of, inputs_of, order_of};
ghost use Rattle.nodes.specs.Nodes.{bit_at};
ghost use Rattle.nodes.specs.Names.{bits_at, AreWithin};
ghost use Rattle.gate_clauses.specs.Marks.{position};
ghost use Rattle.gate_clauses.specs.Numbers.{AreNumbers};

use crate::inputs::{Inputs, inputs_at, unmarked};
use crate::numbers::{literal_at, negated, numbers_of};
use cnf::{Clause, Formula, Lit};
use nodes::{Node, Table, visit_all};
use std::alloc::{AllocError, Global};

/// A condition as clauses.
#[derive(Drop)]
pub struct Blasted {
    pub formula: Formula,
    /// The variables of the input bits that occur, byte after byte, the most significant bit
    /// first.
    pub order: Vec<u64>,
    /// Which input bit each of these is: its byte, and its place in the byte, where place 0 is
    /// the bit of value 1.
    pub bits: Vec<(u8, u8)>,
}

/// Adds a clause.
fn push_clause(alloc: Global, literals: &[Lit], clauses: &mut Vec<Clause>) -> Result<(), AllocError>
    ensures { OnOk result (lists_of clauses.new.items ≡ lists_of clauses.old.items ++ literals.now ∷ []) }
{
    let clause = Vec::from_slice(alloc, literals)?;
    clauses.push(clause)?;
    Ok(())
}

/// Adds the clauses of `g = a and b`.
fn push_and(
    alloc: Global,
    g: Lit,
    a: Lit,
    b: Lit,
    clauses: &mut Vec<Clause>,
) -> Result<(), AllocError>
    ensures { OnOk result (lists_of clauses.new.items ≡ lists_of clauses.old.items ++ condition.and_clauses g a b) }
{
    push_clause(alloc, &[negated(g), a], clauses)?;
    push_clause(alloc, &[negated(g), b], clauses)?;
    push_clause(alloc, &[g, negated(a), negated(b)], clauses)
}

/// Adds the clauses of `g = a xor b`.
fn push_xor(
    alloc: Global,
    g: Lit,
    a: Lit,
    b: Lit,
    clauses: &mut Vec<Clause>,
) -> Result<(), AllocError>
    ensures { OnOk result (lists_of clauses.new.items ≡ lists_of clauses.old.items ++ condition.xor_clauses g a b) }
{
    push_clause(alloc, &[negated(g), a, b], clauses)?;
    push_clause(alloc, &[negated(g), negated(a), negated(b)], clauses)?;
    push_clause(alloc, &[g, negated(a), b], clauses)?;
    push_clause(alloc, &[g, a, negated(b)], clauses)
}

/// Adds the clause of a conjunct: none where it is the constant 1, the empty one where it is 0.
fn push_conjunct(
    alloc: Global,
    table: &Table,
    numbers: &[u64],
    k: usize,
    clauses: &mut Vec<Clause>,
) -> Result<(), AllocError>
    requires within { k < length table.now }
    requires sized { length numbers.now ≡ length table.now }
    ensures { (names : List ℕ) → AreNumbers table.now names numbers.now → OnOk result (lists_of clauses.new.items ≡ lists_of clauses.old.items ++ conjunct_clauses (bits_at table.now names) (bit_at table.now k)) }
{
    match table.node(k) {
        Node::Constant(true) => Ok(()),
        Node::Constant(false) => push_clause(alloc, &[], clauses),
        _ => push_clause(alloc, &[literal_at(table, numbers, k)], clauses),
    }
}

/// Adds the clauses of a place, if it is a gate.
fn push_gate(
    alloc: Global,
    table: &Table,
    numbers: &[u64],
    k: usize,
    clauses: &mut Vec<Clause>,
) -> Result<(), AllocError>
    requires within { k < length table.now }
    requires sized { length numbers.now ≡ length table.now }
    ensures { (names : List ℕ) → AreNumbers table.now names numbers.now → OnOk result (lists_of clauses.new.items ≡ lists_of clauses.old.items ++ condition.gate_clauses (bits_at table.now names) (bit_at table.now k)) }
{
    match table.node(k) {
        Node::And(a, b) => {
            let gate = literal_at(table, numbers, k);
            let left = literal_at(table, numbers, a);
            let right = literal_at(table, numbers, b);
            push_and(alloc, gate, left, right, clauses)
        }
        Node::Xor(a, b) => {
            let gate = literal_at(table, numbers, k);
            let left = literal_at(table, numbers, a);
            let right = literal_at(table, numbers, b);
            push_xor(alloc, gate, left, right, clauses)
        }
        Node::Constant(_) | Node::Input(_) | Node::Not(_) => Ok(()),
    }
}

/// The clauses of the conjuncts in their order.
fn conjuncts_clauses(
    alloc: Global,
    table: &Table,
    numbers: &[u64],
    conjuncts: &[usize],
) -> Result<Vec<Clause>, AllocError>
    requires within { AreWithin table.now conjuncts.now }
    requires sized { length numbers.now ≡ length table.now }
    ensures { (names : List ℕ) → AreNumbers table.now names numbers.now → IfOk result (λ v. lists_of v.items ≡ flat_map (conjunct_clauses (bits_at table.now names)) (bits_at table.now conjuncts.now)) }
{
    let mut clauses = Vec::new(alloc);
    for &k in conjuncts {
        push_conjunct(alloc, table, numbers, k, &mut clauses)?;
    }
    Ok(clauses)
}

/// Adds the clauses of the gates among the names, in their order.
fn push_gates(
    alloc: Global,
    table: &Table,
    numbers: &[u64],
    gates: &[usize],
    clauses: &mut Vec<Clause>,
) -> Result<(), AllocError>
    requires within { AreWithin table.now gates.now }
    requires sized { length numbers.now ≡ length table.now }
    ensures { (names : List ℕ) → AreNumbers table.now names numbers.now → OnOk result (lists_of clauses.new.items ≡ lists_of clauses.old.items ++ flat_map (condition.gate_clauses (bits_at table.now names)) (bits_at table.now gates.now)) }
{
    for &k in gates {
        push_gate(alloc, table, numbers, k, clauses)?;
    }
    Ok(())
}

/// The numbers below `len`.
fn first_numbers(alloc: Global, len: usize) -> Result<Vec<u64>, AllocError>
    ensures { IfOk result (λ v. v.items ≡ range_with_len 0 len) }
{
    let mut numbers = Vec::new(alloc);
    for i in 0..len {
        numbers.push(i as u64)?;
    }
    Ok(numbers)
}

/// The places that have a variable, each at its number: the input bits that occur, in their
/// order, and each gate when it is first met, conjunct by conjunct, left operand before right
/// operand before itself.
#[derive(Drop)]
struct Names {
    names: Vec<usize>,
    order: Vec<u64>,
    bits: Vec<(u8, u8)>,
}

fn names_at(alloc: Global, table: &Table, conjuncts: &[usize]) -> Result<Names, AllocError>
    requires { AreWithin table.now conjuncts.now }
    ensures within { IfOk result (λ r. AreWithin table.now r.names.items) }
    ensures names { IfOk result (λ r. bits_at table.now r.names.items ≡ condition.names_of (bits_at table.now conjuncts.now)) }
    ensures order { IfOk result (λ r. r.order.items ≡ order_of (bits_at table.now conjuncts.now)) }
    ensures bits { IfOk result (λ r. r.bits.items ≡ map position (inputs_of (bits_at table.now conjuncts.now))) }
{
    let Inputs { mut names, bits } = inputs_at(alloc, table, conjuncts)?;
    let order = first_numbers(alloc, names.len())?;
    let mut done = unmarked(alloc, table.len())?;
    visit_all(alloc, table, conjuncts, done.as_mut_slice(), &mut names)?;
    Ok(Names { names, order, bits })
}

/// The clauses of the condition whose conjuncts stand at these places: a unit clause for each
/// conjunct in their order, none where it is the constant 1 and the empty clause where it is 0;
/// then the clauses of each gate by its number. The time and the memory are in the number of
/// places, and the stack is not used.
pub fn clauses_at(alloc: Global, table: &Table, conjuncts: &[usize]) -> Result<Blasted, AllocError>
    requires { AreWithin table.now conjuncts.now }
    ensures formula { IfOk result (λ r. r.formula ≡ formula_of (bits_at table.now conjuncts.now)) }
    ensures order { IfOk result (λ r. r.order.items ≡ order_of (bits_at table.now conjuncts.now)) }
    ensures bits { IfOk result (λ r. r.bits.items ≡ map position (inputs_of (bits_at table.now conjuncts.now))) }
{
    let Names { names, order, bits } = names_at(alloc, table, conjuncts)?;
    let numbers = numbers_of(alloc, table, &names)?;
    let mut clauses = conjuncts_clauses(alloc, table, &numbers, conjuncts)?;
    push_gates(alloc, table, &numbers, &names, &mut clauses)?;
    let formula = Formula {
        vars: names.len() as u64,
        clauses,
    };
    Ok(Blasted {
        formula,
        order,
        bits,
    })
}
