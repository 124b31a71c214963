ghost use Rattle.std.specs.Prelude.{◌≡◌, ◌<◌, false, length, IfOk, OnOk};
ghost use Rattle.gates.specs.Bits.{constant};
ghost use Rattle.nodes.specs.Nodes.{bit_at, Grows};
ghost use Rattle.nodes.specs.Names.{bits_at, AreWithin};
ghost use Rattle.rows.specs.Rows as rows;

use crate::moves::{moved_up, repeated};
use crate::pairs::{Gate, each};
use crate::sums::added;
use nodes::Table;
use std::alloc::{AllocError, Global};

/// The sum of one row and of another where a bit is 1.
fn added_where(
    alloc: Global,
    table: &mut Table,
    test: usize,
    sum: &[usize],
    xs: &[usize],
) -> Result<Vec<usize>, AllocError>
    requires test { test < length table.old }
    requires places { length sum.now ≡ length xs.now }
    requires left { AreWithin table.old sum.now }
    requires right { AreWithin table.old xs.now }
    ensures within { IfOk result (λ row. AreWithin table.new row.items) }
    ensures sized { IfOk result (λ row. length row.items ≡ length xs.now) }
    ensures bits { IfOk result (λ row. bits_at table.new row.items ≡ rows.added (constant false) (bits_at table.old sum.now) (rows.masked (bit_at table.old test) (bits_at table.old xs.now))) }
    ensures grows { OnOk result (Grows table.old table.new) }
{
    let tests = repeated(alloc, xs.len(), test)?;
    let masked = each(alloc, table, Gate::And, xs, &tests)?;
    let zero = table.constant(false)?;
    added(alloc, table, zero, sum, &masked)
}

/// The product of two rows, at their width: the sum of the first row, moved up place by place,
/// where the second has a 1.
pub fn product(
    alloc: Global,
    table: &mut Table,
    xs: &[usize],
    ys: &[usize],
) -> Result<Vec<usize>, AllocError>
    requires left { AreWithin table.old xs.now }
    requires right { AreWithin table.old ys.now }
    ensures within { IfOk result (λ row. AreWithin table.new row.items) }
    ensures sized { IfOk result (λ row. length row.items ≡ length xs.now) }
    ensures bits { IfOk result (λ row. bits_at table.new row.items ≡ rows.product (bits_at table.old xs.now) (bits_at table.old ys.now)) }
    ensures grows { OnOk result (Grows table.old table.new) }
{
    let zero = table.constant(false)?;
    let mut sum = repeated(alloc, xs.len(), zero)?;
    let mut moved = Vec::from_slice(alloc, xs)?;
    for i in 0..ys.len() {
        sum = added_where(alloc, table, ys[i], &sum, &moved)?;
        moved = moved_up(alloc, 1, zero, &moved)?;
    }
    Ok(sum)
}
