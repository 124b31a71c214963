ghost use Rattle.std.specs.Prelude.{◌≡◌, ◌<◌, ◌≤◌, ◌∷◌, [], length, IfOk, OnOk};
ghost use Rattle.nodes.specs.Nodes.{Grows};
ghost use Rattle.nodes.specs.Names.{bits_at, AreWithin};
ghost use Rattle.rows.specs.Rows as rows;
ghost use Rattle.gates.specs.Bits as bit;
ghost use Rattle.terms.specs.Tree.{FitsOne, FitsTwo};
ghost use Rattle.term_bits.specs.TermBits.{bits_of_one, bits_of_two, bits_of_operation};

use bitnum::BinOp;
use nodes::Table;
use row_nodes::{
    Gate, added, byte, divided, each, equal, inverted, joined, less, product, shifted_down,
    shifted_up, sign_shifted_down, signed_less, signed_quotient, signed_remainder, subtracted,
    taken, top, widened,
};
use std::alloc::{AllocError, Global};
use terms::{Binary, Unary};

/// The row with 0 above it.
fn zero_widened(
    alloc: Global,
    table: &mut Table,
    xs: &[usize],
    width: u8,
) -> Result<Vec<usize>, AllocError>
    requires width { length xs.now ≤ width }
    requires row { AreWithin table.old xs.now }
    ensures within { IfOk result (λ row. AreWithin table.new row.items) }
    ensures bits { IfOk result (λ row. bits_at table.new row.items ≡ bits_of_one (Unary.Zext width) (bits_at table.old xs.now)) }
    ensures grows { OnOk result (Grows table.old table.new) }
{
    let zero = table.constant(false)?;
    widened(alloc, xs, usize::from(width), zero)
}

/// The row with its sign above it.
fn sign_widened(
    alloc: Global,
    table: &Table,
    xs: &[usize],
    width: u8,
) -> Result<Vec<usize>, AllocError>
    requires some { 1 ≤ length xs.now }
    requires width { length xs.now ≤ width }
    requires row { AreWithin table.now xs.now }
    ensures within { IfOk result (λ row. AreWithin table.now row.items) }
    ensures bits { IfOk result (λ row. bits_at table.now row.items ≡ bits_of_one (Unary.Sext width) (bits_at table.now xs.now)) }
{
    widened(alloc, xs, usize::from(width), top(xs))
}

/// The bits of an operation on one term.
pub(crate) fn unary(
    alloc: Global,
    table: &mut Table,
    op: Unary,
    xs: &[usize],
) -> Result<Vec<usize>, AllocError>
    requires fits { FitsOne op (length xs.now) }
    requires some { 1 ≤ length xs.now }
    requires row { AreWithin table.old xs.now }
    ensures within { IfOk result (λ row. AreWithin table.new row.items) }
    ensures bits { IfOk result (λ row. bits_at table.new row.items ≡ bits_of_one op (bits_at table.old xs.now)) }
    ensures grows { OnOk result (Grows table.old table.new) }
{
    match op {
        Unary::Not => inverted(alloc, table, xs),
        Unary::Zext(width) => zero_widened(alloc, table, xs, width),
        Unary::Sext(width) => sign_widened(alloc, table, xs, width),
        Unary::Trunc(width) => taken(alloc, xs, usize::from(width)),
        Unary::Byte(number) => byte(alloc, xs, usize::from(number)),
    }
}

/// The sum of two rows.
fn sum(
    alloc: Global,
    table: &mut Table,
    xs: &[usize],
    ys: &[usize],
) -> Result<Vec<usize>, AllocError>
    requires places { length xs.now ≡ length ys.now }
    requires left { AreWithin table.old xs.now }
    requires right { AreWithin table.old ys.now }
    ensures within { IfOk result (λ row. AreWithin table.new row.items) }
    ensures bits { IfOk result (λ row. bits_at table.new row.items ≡ bits_of_operation BinOp.Add (bits_at table.old xs.now) (bits_at table.old ys.now)) }
    ensures grows { OnOk result (Grows table.old table.new) }
{
    let zero = table.constant(false)?;
    added(alloc, table, zero, xs, ys)
}

/// The unsigned quotient of two rows.
fn quotient(
    alloc: Global,
    table: &mut Table,
    xs: &[usize],
    ys: &[usize],
) -> Result<Vec<usize>, AllocError>
    requires width { length ys.now ≤ 64 }
    requires left { AreWithin table.old xs.now }
    requires right { AreWithin table.old ys.now }
    ensures within { IfOk result (λ row. AreWithin table.new row.items) }
    ensures bits { IfOk result (λ row. bits_at table.new row.items ≡ bits_of_operation BinOp.Udiv (bits_at table.old xs.now) (bits_at table.old ys.now)) }
    ensures grows { OnOk result (Grows table.old table.new) }
{
    let division = divided(alloc, table, xs, ys)?;
    Ok(division.quotient)
}

/// The unsigned remainder of two rows.
fn remainder(
    alloc: Global,
    table: &mut Table,
    xs: &[usize],
    ys: &[usize],
) -> Result<Vec<usize>, AllocError>
    requires width { length ys.now ≤ 64 }
    requires left { AreWithin table.old xs.now }
    requires right { AreWithin table.old ys.now }
    ensures within { IfOk result (λ row. AreWithin table.new row.items) }
    ensures bits { IfOk result (λ row. bits_at table.new row.items ≡ bits_of_operation BinOp.Urem (bits_at table.old xs.now) (bits_at table.old ys.now)) }
    ensures grows { OnOk result (Grows table.old table.new) }
{
    let division = divided(alloc, table, xs, ys)?;
    Ok(division.remainder)
}

/// The bits of an operation on numbers of one width.
fn operation(
    alloc: Global,
    table: &mut Table,
    op: BinOp,
    xs: &[usize],
    ys: &[usize],
) -> Result<Vec<usize>, AllocError>
    requires places { length xs.now ≡ length ys.now }
    requires some { 1 ≤ length xs.now }
    requires width { length xs.now ≤ 64 }
    requires left { AreWithin table.old xs.now }
    requires right { AreWithin table.old ys.now }
    ensures within { IfOk result (λ row. AreWithin table.new row.items) }
    ensures bits { IfOk result (λ row. bits_at table.new row.items ≡ bits_of_operation op (bits_at table.old xs.now) (bits_at table.old ys.now)) }
    ensures grows { OnOk result (Grows table.old table.new) }
{
    match op {
        BinOp::Add => sum(alloc, table, xs, ys),
        BinOp::Sub => subtracted(alloc, table, xs, ys),
        BinOp::Mul => product(alloc, table, xs, ys),
        BinOp::Udiv => quotient(alloc, table, xs, ys),
        BinOp::Sdiv => signed_quotient(alloc, table, xs, ys),
        BinOp::Urem => remainder(alloc, table, xs, ys),
        BinOp::Srem => signed_remainder(alloc, table, xs, ys),
        BinOp::Shl => shifted_up(alloc, table, xs, ys),
        BinOp::Lshr => shifted_down(alloc, table, xs, ys),
        BinOp::Ashr => sign_shifted_down(alloc, table, xs, ys),
        BinOp::And => each(alloc, table, Gate::And, xs, ys),
        BinOp::Or => each(alloc, table, Gate::Or, xs, ys),
        BinOp::Xor => each(alloc, table, Gate::Xor, xs, ys),
    }
}

/// A row of one place.
fn single(alloc: Global, place: usize) -> Result<Vec<usize>, AllocError>
    ensures { IfOk result (λ row. row.items ≡ place ∷ []) }
{
    let mut row = Vec::new(alloc);
    row.push(place)?;
    Ok(row)
}

/// The bits of an operation on two terms.
pub(crate) fn binary(
    alloc: Global,
    table: &mut Table,
    op: Binary,
    xs: &[usize],
    ys: &[usize],
) -> Result<Vec<usize>, AllocError>
    requires fits { FitsTwo op (length xs.now) (length ys.now) }
    requires some { 1 ≤ length xs.now }
    requires width { length xs.now ≤ 64 }
    requires left { AreWithin table.old xs.now }
    requires right { AreWithin table.old ys.now }
    ensures within { IfOk result (λ row. AreWithin table.new row.items) }
    ensures bits { IfOk result (λ row. bits_at table.new row.items ≡ bits_of_two op (bits_at table.old xs.now) (bits_at table.old ys.now)) }
    ensures grows { OnOk result (Grows table.old table.new) }
{
    match op {
        Binary::Bin(op) => operation(alloc, table, op, xs, ys),
        Binary::Eq => single(alloc, equal(table, xs, ys)?),
        Binary::Ult => single(alloc, less(table, xs, ys)?),
        Binary::Slt => single(alloc, signed_less(alloc, table, xs, ys)?),
        Binary::Join => joined(alloc, xs, ys),
    }
}
