ghost use Rattle.std.specs.Prelude.{◌≡◌, ◌<◌, ◌≤◌, length, IfOk, OnOk};
ghost use Rattle.gates.specs.Bits.{fold_not};
ghost use Rattle.nodes.specs.Nodes.{bit_at, Grows};
ghost use Rattle.nodes.specs.Names.{bits_at, AreWithin};
ghost use Rattle.rows.specs.Rows as rows;
ghost use Rattle.row_nodes.specs.Moves.{places_moved, bits_moved, FillsWithin};

use crate::compare::less;
use crate::constants::constant;
use crate::moves::{moved_down, moved_up, repeated, top};
use crate::pairs::{Gate, each};
use nodes::Table;
use std::alloc::{AllocError, Global};

/// Which way a row is moved, and the place that comes in.
#[derive(Clone, Copy)]
enum Move {
    Up(usize),
    Down(usize),
}

/// The row moved by a number of places.
fn moved(alloc: Global, way: Move, by: usize, xs: &[usize]) -> Result<Vec<usize>, AllocError>
    requires { by ≤ length xs.now }
    ensures { IfOk result (λ row. row.items ≡ places_moved way by xs.now) }
{
    match way {
        Move::Up(fill) => moved_up(alloc, by, fill, xs),
        Move::Down(fill) => moved_down(alloc, by, fill, xs),
    }
}

/// The row moved where a bit is 1, and else the row.
fn moved_where(
    alloc: Global,
    table: &mut Table,
    test: usize,
    way: Move,
    by: usize,
    xs: &[usize],
) -> Result<Vec<usize>, AllocError>
    requires test { test < length table.old }
    requires way { FillsWithin table.old way }
    requires by { by ≤ length xs.now }
    requires row { AreWithin table.old xs.now }
    ensures within { IfOk result (λ row. AreWithin table.new row.items) }
    ensures sized { IfOk result (λ row. length row.items ≡ length xs.now) }
    ensures bits { IfOk result (λ row. bits_at table.new row.items ≡ rows.chosen (bit_at table.old test) (bits_moved table.old way by (bits_at table.old xs.now)) (bits_at table.old xs.now)) }
    ensures grows { OnOk result (Grows table.old table.new) }
{
    let there = moved(alloc, way, by, xs)?;
    each(alloc, table, Gate::Choice(test), &there, xs)
}

/// The row moved by 1, 2, 4 and so on, each where the bit of the second row is 1, as long as that
/// is less than the width.
fn moved_by(
    alloc: Global,
    table: &mut Table,
    way: Move,
    xs: &[usize],
    ys: &[usize],
) -> Result<Vec<usize>, AllocError>
    requires way { FillsWithin table.old way }
    requires width { length xs.now ≤ 64 }
    requires left { AreWithin table.old xs.now }
    requires right { AreWithin table.old ys.now }
    ensures within { IfOk result (λ row. AreWithin table.new row.items) }
    ensures sized { IfOk result (λ row. length row.items ≡ length xs.now) }
    ensures bits { IfOk result (λ row. bits_at table.new row.items ≡ rows.moved_by (bits_moved table.old way) 1 (bits_at table.old xs.now) (bits_at table.old ys.now)) }
    ensures grows { OnOk result (Grows table.old table.new) }
{
    let mut row = Vec::from_slice(alloc, xs)?;
    let mut by = 1;
    for i in 0..ys.len() {
        if by >= xs.len() {
            return Ok(row);
        }
        row = moved_where(alloc, table, ys[i], way, by, &row)?;
        by *= 2;
    }
    Ok(row)
}

/// The place of the bit that says whether the number is the width or more.
fn too_far(alloc: Global, table: &mut Table, ys: &[usize]) -> Result<usize, AllocError>
    requires { AreWithin table.old ys.now }
    ensures within { IfOk result (λ k. k < length table.new) }
    ensures bit { IfOk result (λ k. bit_at table.new k ≡ rows.too_far (bits_at table.old ys.now)) }
    ensures grows { OnOk result (Grows table.old table.new) }
{
    let width = constant(alloc, table, ys.len(), ys.len() as u64)?;
    let near = less(table, ys, &width)?;
    table.not(near)
}

/// The row where a bit is 0, and else 0.
fn guarded(
    alloc: Global,
    table: &mut Table,
    far: usize,
    xs: &[usize],
) -> Result<Vec<usize>, AllocError>
    requires far { far < length table.old }
    requires row { AreWithin table.old xs.now }
    ensures within { IfOk result (λ row. AreWithin table.new row.items) }
    ensures sized { IfOk result (λ row. length row.items ≡ length xs.now) }
    ensures bits { IfOk result (λ row. bits_at table.new row.items ≡ rows.guarded (bit_at table.old far) (bits_at table.old xs.now)) }
    ensures grows { OnOk result (Grows table.old table.new) }
{
    let near = table.not(far)?;
    let tests = repeated(alloc, xs.len(), near)?;
    each(alloc, table, Gate::And, &tests, xs)
}

/// The first row moved up by the number of the second, or 0 where that is the width or more.
pub fn shifted_up(
    alloc: Global,
    table: &mut Table,
    xs: &[usize],
    ys: &[usize],
) -> Result<Vec<usize>, AllocError>
    requires width { length xs.now ≤ 64 }
    requires left { AreWithin table.old xs.now }
    requires right { AreWithin table.old ys.now }
    ensures within { IfOk result (λ row. AreWithin table.new row.items) }
    ensures sized { IfOk result (λ row. length row.items ≡ length xs.now) }
    ensures bits { IfOk result (λ row. bits_at table.new row.items ≡ rows.shifted_up (bits_at table.old xs.now) (bits_at table.old ys.now)) }
    ensures grows { OnOk result (Grows table.old table.new) }
{
    let zero = table.constant(false)?;
    let row = moved_by(alloc, table, Move::Up(zero), xs, ys)?;
    let far = too_far(alloc, table, ys)?;
    guarded(alloc, table, far, &row)
}

/// The first row moved down by the number of the second with 0 above it, or 0 where that is the
/// width or more.
pub fn shifted_down(
    alloc: Global,
    table: &mut Table,
    xs: &[usize],
    ys: &[usize],
) -> Result<Vec<usize>, AllocError>
    requires width { length xs.now ≤ 64 }
    requires left { AreWithin table.old xs.now }
    requires right { AreWithin table.old ys.now }
    ensures within { IfOk result (λ row. AreWithin table.new row.items) }
    ensures sized { IfOk result (λ row. length row.items ≡ length xs.now) }
    ensures bits { IfOk result (λ row. bits_at table.new row.items ≡ rows.shifted_down (bits_at table.old xs.now) (bits_at table.old ys.now)) }
    ensures grows { OnOk result (Grows table.old table.new) }
{
    let zero = table.constant(false)?;
    let row = moved_by(alloc, table, Move::Down(zero), xs, ys)?;
    let far = too_far(alloc, table, ys)?;
    guarded(alloc, table, far, &row)
}

/// The first row moved down by the number of the second with the sign above it, or the sign in
/// every bit where that is the width or more.
pub fn sign_shifted_down(
    alloc: Global,
    table: &mut Table,
    xs: &[usize],
    ys: &[usize],
) -> Result<Vec<usize>, AllocError>
    requires some { 1 ≤ length xs.now }
    requires width { length xs.now ≤ 64 }
    requires left { AreWithin table.old xs.now }
    requires right { AreWithin table.old ys.now }
    ensures within { IfOk result (λ row. AreWithin table.new row.items) }
    ensures sized { IfOk result (λ row. length row.items ≡ length xs.now) }
    ensures bits { IfOk result (λ row. bits_at table.new row.items ≡ rows.sign_shifted_down (bits_at table.old xs.now) (bits_at table.old ys.now)) }
    ensures grows { OnOk result (Grows table.old table.new) }
{
    let sign = top(xs);
    let row = moved_by(alloc, table, Move::Down(sign), xs, ys)?;
    let far = too_far(alloc, table, ys)?;
    let signs = repeated(alloc, xs.len(), sign)?;
    each(alloc, table, Gate::Choice(far), &signs, &row)
}
