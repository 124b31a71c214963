ghost use Rattle.std.specs.Prelude.{◌≡◌, ◌<◌, ◌≤◌, length, IfOk, OnOk};
ghost use Rattle.nodes.specs.Nodes.{bit_at, Grows};
ghost use Rattle.nodes.specs.Names.{bits_at, AreWithin};
ghost use Rattle.rows.specs.Rows as rows;

use crate::bits::{still_equal, still_less};
use nodes::Table;
use std::alloc::{AllocError, Global};

/// The place of the bit that says whether two numbers are equal.
pub fn equal(table: &mut Table, xs: &[usize], ys: &[usize]) -> Result<usize, AllocError>
    requires places { length xs.now ≡ length ys.now }
    requires left { AreWithin table.old xs.now }
    requires right { AreWithin table.old ys.now }
    ensures within { IfOk result (λ k. k < length table.new) }
    ensures bit { IfOk result (λ k. bit_at table.new k ≡ rows.equal (bits_at table.old xs.now) (bits_at table.old ys.now)) }
    ensures grows { OnOk result (Grows table.old table.new) }
{
    let mut so_far = table.constant(true)?;
    for i in 0..xs.len() {
        so_far = still_equal(table, so_far, xs[i], ys[i])?;
    }
    Ok(so_far)
}

/// The place of the bit that says whether a number is less than another, unsigned.
pub fn less(table: &mut Table, xs: &[usize], ys: &[usize]) -> Result<usize, AllocError>
    requires places { length xs.now ≡ length ys.now }
    requires left { AreWithin table.old xs.now }
    requires right { AreWithin table.old ys.now }
    ensures within { IfOk result (λ k. k < length table.new) }
    ensures bit { IfOk result (λ k. bit_at table.new k ≡ rows.less (bits_at table.old xs.now) (bits_at table.old ys.now)) }
    ensures grows { OnOk result (Grows table.old table.new) }
{
    let mut so_far = table.constant(false)?;
    for i in 0..xs.len() {
        so_far = still_less(table, so_far, xs[i], ys[i])?;
    }
    Ok(so_far)
}

/// The row with its highest bit turned.
fn top_turned(alloc: Global, table: &mut Table, xs: &[usize]) -> Result<Vec<usize>, AllocError>
    requires { AreWithin table.old xs.now }
    ensures within { IfOk result (λ row. AreWithin table.new row.items) }
    ensures sized { IfOk result (λ row. length row.items ≡ length xs.now) }
    ensures bits { IfOk result (λ row. bits_at table.new row.items ≡ rows.top_turned (bits_at table.old xs.now)) }
    ensures grows { OnOk result (Grows table.old table.new) }
{
    let mut row = Vec::from_slice(alloc, xs)?;
    if let Some(top) = row.pop() {
        row.push(table.not(top)?)?;
    }
    Ok(row)
}

/// The place of the bit that says whether a number is less than another, signed.
pub fn signed_less(
    alloc: Global,
    table: &mut Table,
    xs: &[usize],
    ys: &[usize],
) -> Result<usize, AllocError>
    requires places { length xs.now ≡ length ys.now }
    requires left { AreWithin table.old xs.now }
    requires right { AreWithin table.old ys.now }
    ensures within { IfOk result (λ k. k < length table.new) }
    ensures bit { IfOk result (λ k. bit_at table.new k ≡ rows.signed_less (bits_at table.old xs.now) (bits_at table.old ys.now)) }
    ensures grows { OnOk result (Grows table.old table.new) }
{
    let left = top_turned(alloc, table, xs)?;
    let right = top_turned(alloc, table, ys)?;
    less(table, &left, &right)
}
