ghost use Rattle.std.specs.Prelude.{◌≡◌, ◌<◌, length, IfOk, OnOk};
ghost use Rattle.nodes.specs.Nodes.{bit_at, Grows};
ghost use Rattle.nodes.specs.Names.{bits_at, AreWithin};
ghost use Rattle.rows.specs.Rows as rows;
ghost use Rattle.row_nodes.specs.Gates.{folded, IsWithin};

use crate::bits::{mux, or};
use nodes::Table;
use std::alloc::{AllocError, Global};

/// What is made of two bits.
#[derive(Clone, Copy)]
pub enum Gate {
    And,
    Or,
    Xor,
    /// The first bit where the bit at this place is 1, and else the second.
    Choice(usize),
}

/// The place of a gate of two bits.
fn pair(table: &mut Table, gate: Gate, a: usize, b: usize) -> Result<usize, AllocError>
    requires gate { IsWithin table.old gate }
    requires left { a < length table.old }
    requires right { b < length table.old }
    ensures within { IfOk result (λ k. k < length table.new) }
    ensures bit { IfOk result (λ k. bit_at table.new k ≡ folded table.old gate (bit_at table.old a) (bit_at table.old b)) }
    ensures grows { OnOk result (Grows table.old table.new) }
{
    match gate {
        Gate::And => table.and(a, b),
        Gate::Or => or(table, a, b),
        Gate::Xor => table.xor(a, b),
        Gate::Choice(test) => mux(table, test, a, b),
    }
}

/// The gate of two rows, bit by bit.
pub fn each(
    alloc: Global,
    table: &mut Table,
    gate: Gate,
    xs: &[usize],
    ys: &[usize],
) -> Result<Vec<usize>, AllocError>
    requires gate { IsWithin table.old gate }
    requires places { length xs.now ≡ length ys.now }
    requires left { AreWithin table.old xs.now }
    requires right { AreWithin table.old ys.now }
    ensures within { IfOk result (λ row. AreWithin table.new row.items) }
    ensures sized { IfOk result (λ row. length row.items ≡ length xs.now) }
    ensures bits { IfOk result (λ row. bits_at table.new row.items ≡ rows.each (folded table.old gate) (bits_at table.old xs.now) (bits_at table.old ys.now)) }
    ensures grows { OnOk result (Grows table.old table.new) }
{
    let mut row = Vec::new(alloc);
    for i in 0..xs.len() {
        row.push(pair(table, gate, xs[i], ys[i])?)?;
    }
    Ok(row)
}

/// The other bit at each place.
pub fn inverted(alloc: Global, table: &mut Table, xs: &[usize]) -> Result<Vec<usize>, AllocError>
    requires { AreWithin table.old xs.now }
    ensures within { IfOk result (λ row. AreWithin table.new row.items) }
    ensures sized { IfOk result (λ row. length row.items ≡ length xs.now) }
    ensures bits { IfOk result (λ row. bits_at table.new row.items ≡ rows.inverted (bits_at table.old xs.now)) }
    ensures grows { OnOk result (Grows table.old table.new) }
{
    let mut row = Vec::new(alloc);
    for i in 0..xs.len() {
        row.push(table.not(xs[i])?)?;
    }
    Ok(row)
}
