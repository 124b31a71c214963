//! Which offsets of an object newer writes cover.
ghost use Rattle.std.specs.Prelude.{◌≡◌, ◌+◌, ◌≤◌, ◌%◌, ◌^◌, ◌==◌, ◌&&◌, IfOk, length};
ghost use Rattle.std.specs.List.{list_any};
ghost use Rattle.std.specs.Option.{option_map};
ghost use Rattle.terms.specs.Tree.{width_of};
ghost use Rattle.flat_ir.specs.Registers.{first_of};
ghost use Rattle.log_laws.specs.Needs as needs;
ghost use Rattle.write_log.specs.Walks.{none_unless_zero};

use crate::items::{Fill, Item, ItemKind};
use flat_ir::ObjectName;
use places::Home;
use plain_list::Sequence;
use std::alloc::{AllocError, Global};
use std::slice;
use sym_bytes::{Entry, EntryKind, SymByte};
use terms::Term;

// The offset that lies j behind an offset.
fn behind(first: u64, j: u8) -> u64
    ensures { result ≡ (first + j) % 2 ^ 64 }
{
    first.wrapping_add(u64::from(j))
}

// So many offsets from a number on.
fn numbers_from(alloc: Global, first: u64, count: u8) -> Result<Sequence<u64>, AllocError>
    ensures { IfOk result (λ list. list ≡ first_of count 0 (λ j. (first + j) % 2 ^ 64)) }
{
    let mut list = Sequence::new(alloc);
    for j in 0..count {
        list.push(behind(first, j))?;
    }
    Ok(list)
}

/// The offsets of so many bytes from an offset on, if all are constant.
#[tactic(auto, using(crate::proofs::Offsets::open_offsets))]
pub(crate) fn offsets_from<H: Home>(
    alloc: Global,
    offset: &Term<H>,
    count: u8,
) -> Result<Option<Sequence<u64>>, AllocError>
    requires { width_of offset.now ≡ 64 }
    ensures { IfOk result (λ o. o ≡ needs.constants_of (needs.offsets_from offset.now count)) }
{
    match offset.as_constant() {
        Some(n) => Ok(Some(numbers_from(alloc, n.bits(), count)?)),
        None => Ok(none_unless_zero(alloc, count)),
    }
}

// No offsets, where none is wanted.
fn none_unless_zero(alloc: Global, count: u8) -> Option<Sequence<u64>>
    ensures { result ≡ none_unless_zero count }
{
    if count == 0 {
        Some(Sequence::new(alloc))
    } else {
        None
    }
}

// Whether an offset is that of one of the bytes, which stand from j behind an offset on.
fn is_one_of<H: Home>(at: u64, j: u64, bytes: &[SymByte<H>], k: u64) -> bool
    requires { j + length bytes.now ≤ 8 }
    ensures { result ≡ list_any (λ i. ((at + i) % 2 ^ 64) == k) (first_of (length bytes.now) j (λ i. i)) }
{
    match bytes.split_first() {
        None => false,
        Some((_, rest)) => at.wrapping_add(j) == k || is_one_of(at, j + 1, rest, k),
    }
}

// The offsets that a write of bytes from an offset on doesn't cover.
fn uncovered_by<H: Home>(
    alloc: Global,
    at: u64,
    bytes: &[SymByte<H>],
    wanted: &[u64],
) -> Result<Sequence<u64>, AllocError>
    requires { length bytes.now ≤ 8 }
    ensures { IfOk result (λ list. list ≡ needs.uncovered_by (length bytes.now) at wanted.now) }
{
    let mut list = Sequence::new(alloc);
    for k in wanted {
        if is_one_of(at, 0, bytes, *k) {
            continue;
        }
        list.push(*k)?;
    }
    Ok(list)
}

// The offsets that an entry doesn't cover.
fn left_behind<H: Home>(
    alloc: Global,
    name: &ObjectName,
    entry: &Entry<H>,
    wanted: Sequence<u64>,
) -> Result<Sequence<u64>, AllocError>
    ensures { IfOk result (λ list. list ≡ needs.left_behind name.now entry.now wanted) }
{
    match entry.kind() {
        EntryKind::Write(other, offset, bytes) if name == other => match offset.as_constant() {
            Some(at) => uncovered_by(alloc, at.bits(), bytes.as_slice(), wanted.as_slice()),
            None => Ok(wanted),
        },
        _ => Ok(wanted),
    }
}

fn left_behind_all<H: Home>(
    alloc: Global,
    name: &ObjectName,
    entries: &[Entry<H>],
    wanted: Sequence<u64>,
) -> Result<Sequence<u64>, AllocError>
    ensures { IfOk result (λ list. list ≡ needs.left_behind_all name.now entries.now wanted) }
{
    let mut left = wanted;
    for entry in entries {
        left = left_behind(alloc, name, entry, left)?;
    }
    Ok(left)
}

fn left_behind_fills<H: Home>(
    alloc: Global,
    name: &ObjectName,
    fills: &[Fill<H>],
    wanted: Sequence<u64>,
) -> Result<Sequence<u64>, AllocError>
    ensures { IfOk result (λ list. list ≡ needs.left_behind_all name.now (needs.recovered_at fills.now) wanted) }
{
    let mut left = wanted;
    for fill in fills {
        left = left_behind_all(alloc, name, fill.entries(), left)?;
    }
    Ok(left)
}

// The offsets that an item, and what is recovered there, doesn't cover.
fn left_behind_item<H: Home>(
    alloc: Global,
    name: &ObjectName,
    item: &Item<H>,
    wanted: Sequence<u64>,
) -> Result<Sequence<u64>, AllocError>
    ensures { IfOk result (λ list. list ≡ needs.left_behind_all name.now (needs.entries_of item.now) wanted) }
{
    match item.kind() {
        ItemKind::Did(entry) => left_behind_all(alloc, name, slice::from_ref(entry), wanted),
        ItemKind::Marked(_, _, fills) => left_behind_fills(alloc, name, fills.as_slice(), wanted),
    }
}

/// The offsets, if all are constant, that an item, and what is recovered there, doesn't cover.
pub(crate) fn left_over<H: Home>(
    alloc: Global,
    name: &ObjectName,
    item: &Item<H>,
    wanted: Option<Sequence<u64>>,
) -> Result<Option<Sequence<u64>>, AllocError>
    ensures { IfOk result (λ o. o ≡ option_map (needs.left_behind_all name.now (needs.entries_of item.now)) wanted) }
{
    match wanted {
        None => Ok(None),
        Some(wanted) => Ok(Some(left_behind_item(alloc, name, item, wanted)?)),
    }
}

/// Whether all wanted offsets are constant, and none is left.
pub(crate) fn is_covered(wanted: &Option<Sequence<u64>>) -> bool
    ensures { result ≡ needs.is_covered wanted.now }
{
    match wanted {
        None => false,
        Some(wanted) => wanted.is_empty(),
    }
}
