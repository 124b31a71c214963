ghost use Rattle.std.specs.Prelude.{◌≡◌, ◌<◌, ◌↔◌, ℕ, List, true, All, IfOk, map, OnOk};
ghost use Rattle.cnf.specs.Cnf.{IsBelow};
ghost use Rattle.cnf.specs.Models.{Determines};
ghost use Rattle.gates.specs.Clauses.{formula_of, inputs_of, order_of};
ghost use Rattle.gates.specs.Meaning.{HasModelWith};
ghost use Rattle.gate_clauses.specs.Marks.{position};
ghost use Rattle.nodes.specs.Names.{bits_at, AreWithin};
ghost use Rattle.terms.specs.Value.{are_met_by};
ghost use Rattle.term_bits.specs.TermBits.{input_of};
ghost use Rattle.term_bits.specs.Conditions.{IsConjunct, condition_bits};

use crate::walk::row_of;
use gate_clauses::{Blasted, clauses_at};
use nodes::Table;
use places::Home;
use std::alloc::{AllocError, Global};
use terms::{Memo, Term};

/// The places of the bits of the conjuncts, one for each.
fn places_of<H: Home>(
    alloc: Global,
    table: &mut Table,
    condition: &[Term<H>],
) -> Result<Vec<usize>, AllocError>
    ensures within { IfOk result (λ places. AreWithin table.new places.items) }
    ensures bits { IfOk result (λ places. bits_at table.new places.items ≡ condition_bits condition.now) }
{
    let mut memo = Memo::new(alloc);
    let mut places = Vec::new(alloc);
    for t in condition {
        let row = row_of(alloc, table, &mut memo, t)?;
        places.extend_from_slice(&row)?;
    }
    Ok(places)
}

/// A condition as clauses. The variables are the input bits that occur, byte after byte, the most
/// significant bit first, and then each gate when it is first met, conjunct by conjunct, left
/// operand before right operand before itself. The clauses are a unit clause for each conjunct in
/// their order (none where its bit is the constant 1, the empty clause where it is 0), and then
/// those of each gate by its number.
pub fn clauses_of<H: Home>(alloc: Global, condition: &[Term<H>]) -> Result<Blasted, AllocError>
    requires { All IsConjunct condition.now }
    ensures formula { IfOk result (λ r. r.formula ≡ formula_of (condition_bits condition.now)) }
    ensures order { IfOk result (λ r. r.order.items ≡ order_of (condition_bits condition.now)) }
    ensures bits { IfOk result (λ r. r.bits.items ≡ map position (inputs_of (condition_bits condition.now))) }
    ensures meets { IfOk result (λ _. (bytes : List ℕ) → (are_met_by bytes condition.now ≡ true) ↔ HasModelWith (condition_bits condition.now) (input_of bytes)) }
    ensures determined { IfOk result (λ r. Determines r.formula r.order.items) }
    ensures variables { IfOk result (λ r. IsBelow r.formula.vars r.formula.clauses) }
    ensures order_within { IfOk result (λ r. All (λ v. v < r.formula.vars) r.order.items) }
{
    let mut table = Table::new(alloc);
    let places = places_of(alloc, &mut table, condition)?;
    clauses_at(alloc, &table, &places)
}
