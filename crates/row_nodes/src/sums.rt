ghost use Rattle.std.specs.Prelude.{◌≡◌, ◌<◌, length, IfOk, OnOk};
ghost use Rattle.nodes.specs.Nodes.{bit_at, Grows};
ghost use Rattle.nodes.specs.Names.{bits_at, AreWithin};
ghost use Rattle.rows.specs.Rows as rows;

use crate::bits::full_adder;
use crate::moves::repeated;
use crate::pairs::{Gate, each, inverted};
use nodes::Table;
use std::alloc::{AllocError, Global};

/// The sum of two rows and a first carry, at their width.
pub fn added(
    alloc: Global,
    table: &mut Table,
    carry: usize,
    xs: &[usize],
    ys: &[usize],
) -> Result<Vec<usize>, AllocError>
    requires carry { carry < length table.old }
    requires places { length xs.now ≡ length ys.now }
    requires left { AreWithin table.old xs.now }
    requires right { AreWithin table.old ys.now }
    ensures within { IfOk result (λ row. AreWithin table.new row.items) }
    ensures sized { IfOk result (λ row. length row.items ≡ length xs.now) }
    ensures bits { IfOk result (λ row. bits_at table.new row.items ≡ rows.added (bit_at table.old carry) (bits_at table.old xs.now) (bits_at table.old ys.now)) }
    ensures grows { OnOk result (Grows table.old table.new) }
{
    let mut row = Vec::new(alloc);
    let mut carry = carry;
    for i in 0..xs.len() {
        let sum = full_adder(table, carry, xs[i], ys[i])?;
        row.push(sum.bit)?;
        carry = sum.carry;
    }
    Ok(row)
}

/// The difference of two rows: the sum of the first, the second inverted, and 1.
pub fn subtracted(
    alloc: Global,
    table: &mut Table,
    xs: &[usize],
    ys: &[usize],
) -> Result<Vec<usize>, AllocError>
    requires places { length xs.now ≡ length ys.now }
    requires left { AreWithin table.old xs.now }
    requires right { AreWithin table.old ys.now }
    ensures within { IfOk result (λ row. AreWithin table.new row.items) }
    ensures sized { IfOk result (λ row. length row.items ≡ length xs.now) }
    ensures bits { IfOk result (λ row. bits_at table.new row.items ≡ rows.subtracted (bits_at table.old xs.now) (bits_at table.old ys.now)) }
    ensures grows { OnOk result (Grows table.old table.new) }
{
    let turned = inverted(alloc, table, ys)?;
    let one = table.constant(true)?;
    added(alloc, table, one, xs, &turned)
}

/// The negation of a row: the row inverted, and 1 more.
pub fn negated(alloc: Global, table: &mut Table, xs: &[usize]) -> Result<Vec<usize>, AllocError>
    requires { AreWithin table.old xs.now }
    ensures within { IfOk result (λ row. AreWithin table.new row.items) }
    ensures sized { IfOk result (λ row. length row.items ≡ length xs.now) }
    ensures bits { IfOk result (λ row. bits_at table.new row.items ≡ rows.opposite (bits_at table.old xs.now)) }
    ensures grows { OnOk result (Grows table.old table.new) }
{
    let turned = inverted(alloc, table, xs)?;
    let zero = table.constant(false)?;
    let zeros = repeated(alloc, xs.len(), zero)?;
    let one = table.constant(true)?;
    added(alloc, table, one, &turned, &zeros)
}

/// The negation of a row where the bit at a place is 1, and else the row.
pub fn negated_where(
    alloc: Global,
    table: &mut Table,
    test: usize,
    xs: &[usize],
) -> Result<Vec<usize>, AllocError>
    requires test { test < length table.old }
    requires row { AreWithin table.old xs.now }
    ensures within { IfOk result (λ row. AreWithin table.new row.items) }
    ensures sized { IfOk result (λ row. length row.items ≡ length xs.now) }
    ensures bits { IfOk result (λ row. bits_at table.new row.items ≡ rows.negated_if (bit_at table.old test) (bits_at table.old xs.now)) }
    ensures grows { OnOk result (Grows table.old table.new) }
{
    let opposite = negated(alloc, table, xs)?;
    each(alloc, table, Gate::Choice(test), &opposite, xs)
}
