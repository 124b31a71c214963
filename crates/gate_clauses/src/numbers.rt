ghost use Rattle.std.specs.Prelude.{◌≡◌, ◌<◌, ℕ, List, length, replicate, IfOk};
ghost use Rattle.cnf.specs.Literals as literals;
ghost use Rattle.gates.specs.Clauses.{literal_of};
ghost use Rattle.nodes.specs.Nodes.{bit_at};
ghost use Rattle.nodes.specs.Names.{bits_at, AreWithin};
ghost use Rattle.gate_clauses.specs.Numbers.{AreNumbers, IsNumbered};

use cnf::Lit;
use nodes::{Node, Table};
use std::alloc::{AllocError, Global};

/// The number of each place: where it stands among the names, and their count where it has none.
pub(crate) fn numbers_of(
    alloc: Global,
    table: &Table,
    names: &[usize],
) -> Result<Vec<u64>, AllocError>
    requires within { AreWithin table.now names.now }
    requires numbered { IsNumbered table.now names.now }
    ensures { IfOk result (λ numbers. AreNumbers table.now names.now numbers.items) }
{
    let len = table.len();
    let mut numbers = copies(alloc, names.len() as u64, len)?;
    for i in 0..names.len() {
        numbers[names[i]] = i as u64;
    }
    Ok(numbers)
}

/// The number as often as asked.
fn copies(alloc: Global, number: u64, len: usize) -> Result<Vec<u64>, AllocError>
    ensures { IfOk result (λ v. v.items ≡ replicate len number) }
{
    let mut numbers = Vec::new(alloc);
    for _ in 0..len {
        numbers.push(number)?;
    }
    Ok(numbers)
}

/// The literal of a place: a negation is the negated literal.
pub(crate) fn literal_at(table: &Table, numbers: &[u64], k: usize) -> Lit
    requires within { k < length table.now }
    requires sized { length numbers.now ≡ length table.now }
    ensures { (names : List ℕ) → AreNumbers table.now names numbers.now → result ≡ literal_of (bits_at table.now names) (bit_at table.now k) }
{
    let _len = table.len();
    let mut positive = true;
    let mut at = k;
    while let Node::Not(inner) = table.node(at) {
        positive = !positive;
        at = inner;
    }
    Lit {
        var: numbers[at],
        positive,
    }
}

/// The other literal of the variable.
pub(crate) fn negated(lit: Lit) -> Lit
    ensures { result ≡ literals.negated lit }
{
    Lit {
        var: lit.var,
        positive: !lit.positive,
    }
}
