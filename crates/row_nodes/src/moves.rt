ghost use Rattle.std.specs.Prelude.{◌≡◌, ◌<◌, ◌≤◌, ◌+◌, ◌-◌, ◌*◌, ◌++◌, List, length, take, drop, replicate, slice_index, IfOk};
ghost use Rattle.nodes.specs.declared.table.Node.{Node};
ghost use Rattle.nodes.specs.Nodes.{bit_at};
ghost use Rattle.nodes.specs.Names.{bits_at};
ghost use Rattle.rows.specs.Rows as rows;

use std::alloc::{AllocError, Global};

/// One place, as often as asked.
pub fn repeated(alloc: Global, len: usize, place: usize) -> Result<Vec<usize>, AllocError>
    ensures { IfOk result (λ row. row.items ≡ replicate len place) }
{
    let mut row = Vec::new(alloc);
    for _ in 0..len {
        row.push(place)?;
    }
    Ok(row)
}

/// The second row above the first.
pub fn joined(alloc: Global, xs: &[usize], ys: &[usize]) -> Result<Vec<usize>, AllocError>
    ensures { IfOk result (λ row. row.items ≡ xs.now ++ ys.now) }
{
    let mut row = Vec::from_slice(alloc, xs)?;
    row.extend_from_slice(ys)?;
    Ok(row)
}

/// The row with one place above it, up to a width.
pub fn widened(
    alloc: Global,
    xs: &[usize],
    width: usize,
    fill: usize,
) -> Result<Vec<usize>, AllocError>
    requires { length xs.now ≤ width }
    ensures { IfOk result (λ row. row.items ≡ xs.now ++ replicate (width - length xs.now) fill) }
{
    let above = repeated(alloc, width - xs.len(), fill)?;
    joined(alloc, xs, &above)
}

/// The lowest bits of a row.
pub fn taken(alloc: Global, xs: &[usize], width: usize) -> Result<Vec<usize>, AllocError>
    requires { width ≤ length xs.now }
    ensures { IfOk result (λ row. row.items ≡ take width xs.now) }
{
    Vec::from_slice(alloc, &xs[..width])
}

/// The byte with a number, the lowest being 0.
pub fn byte(alloc: Global, xs: &[usize], number: usize) -> Result<Vec<usize>, AllocError>
    requires { 8 * number + 8 ≤ length xs.now }
    ensures { IfOk result (λ row. row.items ≡ take 8 (drop (8 * number) xs.now)) }
{
    taken(alloc, &xs[8 * number..], 8)
}

/// The place of the highest bit.
pub fn top(xs: &[usize]) -> usize
    requires { 1 ≤ length xs.now }
    ensures place { result ≡ slice_index xs.now (length xs.now - 1) }
    ensures bit { (nodes : List Node) → bit_at nodes result ≡ rows.top (bits_at nodes xs.now) }
{
    xs[xs.len() - 1]
}

/// The row moved up, with one place below it, at its width.
pub(crate) fn moved_up(
    alloc: Global,
    by: usize,
    fill: usize,
    xs: &[usize],
) -> Result<Vec<usize>, AllocError>
    ensures { IfOk result (λ row. row.items ≡ take (length xs.now) (replicate by fill ++ xs.now)) }
{
    let below = repeated(alloc, by, fill)?;
    let mut row = joined(alloc, &below, xs)?;
    row.truncate(xs.len());
    Ok(row)
}

/// The row moved down, with one place above it.
pub(crate) fn moved_down(
    alloc: Global,
    by: usize,
    fill: usize,
    xs: &[usize],
) -> Result<Vec<usize>, AllocError>
    requires { by ≤ length xs.now }
    ensures { IfOk result (λ row. row.items ≡ take (length xs.now) (drop by xs.now ++ replicate by fill)) }
{
    let above = repeated(alloc, by, fill)?;
    let mut row = joined(alloc, &xs[by..], &above)?;
    row.truncate(xs.len());
    Ok(row)
}
