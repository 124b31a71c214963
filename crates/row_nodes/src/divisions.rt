ghost use Rattle.std.specs.Prelude.{◌≡◌, ◌<◌, ◌≤◌, ◌+◌, ◌++◌, ◌∷◌, [], false, length, IfOk, OnOk};
ghost use Rattle.gates.specs.Bits.{constant};
ghost use Rattle.nodes.specs.Nodes.{bit_at, Grows};
ghost use Rattle.nodes.specs.Names.{bits_at, AreWithin};
ghost use Rattle.rows.specs.Rows as rows;
ghost use Rattle.row_nodes.specs.Divisions.{trial};

use crate::compare::less;
use crate::moves::{joined, repeated, taken, top};
use crate::pairs::{Gate, each};
use crate::sums::{negated_where, subtracted};
use nodes::Table;
use std::alloc::{AllocError, Global};

/// A quotient and what is left.
#[derive(Drop)]
pub struct Division {
    pub quotient: Vec<usize>,
    pub remainder: Vec<usize>,
}

/// Whether the divisor fits into what is left, and what is left then.
#[derive(Drop)]
struct Trial {
    fits: usize,
    remainder: Vec<usize>,
}

/// One place of a division: `rest` is what is left, with the next bit of the dividend below it, and
/// `divisor` has a 0 above it.
fn tried(
    alloc: Global,
    table: &mut Table,
    rest: &[usize],
    divisor: &[usize],
) -> Result<Trial, AllocError>
    requires places { length rest.now ≡ length divisor.now }
    requires some { 1 ≤ length rest.now }
    requires left { AreWithin table.old rest.now }
    requires right { AreWithin table.old divisor.now }
    ensures fits_within { IfOk result (λ t. t.fits < length table.new) }
    ensures within { IfOk result (λ t. AreWithin table.new t.remainder.items) }
    ensures sized { IfOk result (λ t. length t.remainder.items + 1 ≡ length rest.now) }
    ensures fits { IfOk result (λ t. bit_at table.new t.fits ≡ (trial (bits_at table.old rest.now) (bits_at table.old divisor.now)).fits) }
    ensures remainder { IfOk result (λ t. bits_at table.new t.remainder.items ≡ (trial (bits_at table.old rest.now) (bits_at table.old divisor.now)).remainder) }
    ensures grows { OnOk result (Grows table.old table.new) }
{
    let below = less(table, rest, divisor)?;
    let fits = table.not(below)?;
    let difference = subtracted(alloc, table, rest, divisor)?;
    let chosen = each(alloc, table, Gate::Choice(fits), &difference, rest)?;
    let remainder = taken(alloc, &chosen, rest.len() - 1)?;
    Ok(Trial { fits, remainder })
}

/// The division of a row by another, unsigned, from the highest place down. By 0 the quotient has
/// every bit 1.
pub fn divided(
    alloc: Global,
    table: &mut Table,
    xs: &[usize],
    ys: &[usize],
) -> Result<Division, AllocError>
    requires width { length ys.now ≤ 64 }
    requires left { AreWithin table.old xs.now }
    requires right { AreWithin table.old ys.now }
    ensures quotient_within { IfOk result (λ d. AreWithin table.new d.quotient.items) }
    ensures remainder_within { IfOk result (λ d. AreWithin table.new d.remainder.items) }
    ensures quotient_sized { IfOk result (λ d. length d.quotient.items ≡ length xs.now) }
    ensures remainder_sized { IfOk result (λ d. length d.remainder.items ≡ length ys.now) }
    ensures quotient { IfOk result (λ d. bits_at table.new d.quotient.items ≡ (rows.division (bits_at table.old xs.now) (bits_at table.old ys.now)).quotient) }
    ensures remainder { IfOk result (λ d. bits_at table.new d.remainder.items ≡ (rows.division (bits_at table.old xs.now) (bits_at table.old ys.now)).remainder) }
    ensures grows { OnOk result (Grows table.old table.new) }
{
    let zero = table.constant(false)?;
    let divisor = joined(alloc, ys, &[zero])?;
    let mut quotient = Vec::new(alloc);
    let mut remainder = repeated(alloc, ys.len(), zero)?;
    let mut i = xs.len();
    while i > 0 {
        i -= 1;
        let rest = joined(alloc, &[xs[i]], &remainder)?;
        let trial = tried(alloc, table, &rest, &divisor)?;
        quotient = joined(alloc, &[trial.fits], &quotient)?;
        remainder = trial.remainder;
    }
    Ok(Division {
        quotient,
        remainder,
    })
}

/// A number without its sign: its negation where the sign is 1.
fn absolute(alloc: Global, table: &mut Table, xs: &[usize]) -> Result<Vec<usize>, AllocError>
    requires some { 1 ≤ length xs.now }
    requires row { AreWithin table.old xs.now }
    ensures within { IfOk result (λ row. AreWithin table.new row.items) }
    ensures sized { IfOk result (λ row. length row.items ≡ length xs.now) }
    ensures bits { IfOk result (λ row. bits_at table.new row.items ≡ rows.absolute (bits_at table.old xs.now)) }
    ensures grows { OnOk result (Grows table.old table.new) }
{
    let sign = top(xs);
    negated_where(alloc, table, sign, xs)
}

/// The division of the two numbers without their signs.
fn divided_absolute(
    alloc: Global,
    table: &mut Table,
    xs: &[usize],
    ys: &[usize],
) -> Result<Division, AllocError>
    requires some { 1 ≤ length xs.now }
    requires divisor { 1 ≤ length ys.now }
    requires width { length ys.now ≤ 64 }
    requires left { AreWithin table.old xs.now }
    requires right { AreWithin table.old ys.now }
    ensures quotient_within { IfOk result (λ d. AreWithin table.new d.quotient.items) }
    ensures remainder_within { IfOk result (λ d. AreWithin table.new d.remainder.items) }
    ensures quotient_sized { IfOk result (λ d. length d.quotient.items ≡ length xs.now) }
    ensures remainder_sized { IfOk result (λ d. length d.remainder.items ≡ length ys.now) }
    ensures quotient { IfOk result (λ d. bits_at table.new d.quotient.items ≡ (rows.division (rows.absolute (bits_at table.old xs.now)) (rows.absolute (bits_at table.old ys.now))).quotient) }
    ensures remainder { IfOk result (λ d. bits_at table.new d.remainder.items ≡ (rows.division (rows.absolute (bits_at table.old xs.now)) (rows.absolute (bits_at table.old ys.now))).remainder) }
    ensures grows { OnOk result (Grows table.old table.new) }
{
    let left = absolute(alloc, table, xs)?;
    let right = absolute(alloc, table, ys)?;
    divided(alloc, table, &left, &right)
}

/// The signed quotient, rounded towards 0.
pub fn signed_quotient(
    alloc: Global,
    table: &mut Table,
    xs: &[usize],
    ys: &[usize],
) -> Result<Vec<usize>, AllocError>
    requires some { 1 ≤ length xs.now }
    requires divisor { 1 ≤ length ys.now }
    requires width { length ys.now ≤ 64 }
    requires left { AreWithin table.old xs.now }
    requires right { AreWithin table.old ys.now }
    ensures within { IfOk result (λ row. AreWithin table.new row.items) }
    ensures sized { IfOk result (λ row. length row.items ≡ length xs.now) }
    ensures bits { IfOk result (λ row. bits_at table.new row.items ≡ rows.signed_quotient (bits_at table.old xs.now) (bits_at table.old ys.now)) }
    ensures grows { OnOk result (Grows table.old table.new) }
{
    let differ = table.xor(top(xs), top(ys))?;
    let division = divided_absolute(alloc, table, xs, ys)?;
    negated_where(alloc, table, differ, &division.quotient)
}

/// The signed remainder, which has the sign of the dividend.
pub fn signed_remainder(
    alloc: Global,
    table: &mut Table,
    xs: &[usize],
    ys: &[usize],
) -> Result<Vec<usize>, AllocError>
    requires some { 1 ≤ length xs.now }
    requires divisor { 1 ≤ length ys.now }
    requires width { length ys.now ≤ 64 }
    requires left { AreWithin table.old xs.now }
    requires right { AreWithin table.old ys.now }
    ensures within { IfOk result (λ row. AreWithin table.new row.items) }
    ensures sized { IfOk result (λ row. length row.items ≡ length ys.now) }
    ensures bits { IfOk result (λ row. bits_at table.new row.items ≡ rows.signed_remainder (bits_at table.old xs.now) (bits_at table.old ys.now)) }
    ensures grows { OnOk result (Grows table.old table.new) }
{
    let sign = top(xs);
    let division = divided_absolute(alloc, table, xs, ys)?;
    negated_where(alloc, table, sign, &division.remainder)
}
