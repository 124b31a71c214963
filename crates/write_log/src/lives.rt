//! The lives of objects.
ghost use Rattle.std.specs.Prelude.{◌≡◌, IfOk, slice_get};
ghost use Rattle.std.specs.List.{list_any};
ghost use Rattle.std.specs.Option.{option_copied};
ghost use Rattle.flat_ir.specs.History as history;
ghost use Rattle.flat_ir.specs.Locations as locations;
ghost use Rattle.log_laws.specs.Logs as log;
ghost use Rattle.sym_bytes.specs.ShownAnswers.{living_of};
ghost use Rattle.write_log.specs.Walks.{size_in, or_size};

use crate::totals::{seen_in, site_of};
use crate::trail::Trail;
use flat_ir::{GlobalVar, Location, ObjectName};
use places::Home;
use std::alloc::AllocError;
use sym_bytes::{Entry, EntryKind, LifeOf};
use terms::Term;

/// How many bytes a global has; none where there is no such global.
pub(crate) fn size_of_global(globals: &[GlobalVar], global: u32) -> u64
    ensures { result ≡ history.size_of_global (slice_get globals.now global) }
{
    match globals.get(global as usize) {
        None => 0,
        Some(global) => global.size,
    }
}

fn is_free_of<H: Home>(name: &ObjectName, entry: &Entry<H>) -> bool
    ensures { result ≡ log.is_free_of name.now entry.now }
{
    match entry.kind() {
        EntryKind::Free(other) => name == other,
        _ => false,
    }
}

pub(crate) fn is_alloc_of<H: Home>(name: &ObjectName, entry: &Entry<H>) -> bool
    ensures { result ≡ log.is_alloc_of name.now entry.now }
{
    match entry.kind() {
        EntryKind::Alloc(other, _) => name == other,
        _ => false,
    }
}

/// Whether one of the entries ends the object.
pub(crate) fn frees<H: Home>(name: &ObjectName, entries: &[Entry<H>]) -> bool
    ensures { result ≡ list_any (log.is_free_of name.now) entries.now }
{
    for entry in entries {
        if is_free_of(name, entry) {
            return true;
        }
    }
    false
}

/// Whether one of the entries makes the object.
pub(crate) fn makes<H: Home>(name: &ObjectName, entries: &[Entry<H>]) -> bool
    ensures { result ≡ list_any (log.is_alloc_of name.now) entries.now }
{
    for entry in entries {
        if is_alloc_of(name, entry) {
            return true;
        }
    }
    false
}

// The size with which an entry makes the object.
fn size_in<'a, H: Home>(name: &ObjectName, entry: &'a Entry<H>) -> Option<&'a Term<H>>
    ensures { option_copied result ≡ size_in name.now entry.now }
{
    match entry.kind() {
        EntryKind::Alloc(other, size) if name == other => Some(size),
        _ => None,
    }
}

// The size with which the object was made last.
#[tactic(auto, using(crate::proofs::Steps::size_step))]
fn newest_size<H: Home>(
    name: &ObjectName,
    entries: &[Entry<H>],
) -> Result<Option<Term<H>>, AllocError>
    ensures { IfOk result (λ o. o ≡ log.newest_size name.now entries.now) }
{
    for entry in entries {
        if let Some(size) = size_in(name, entry) {
            return Ok(Some(size.copy()?));
        }
    }
    Ok(None)
}

// A size, or else the one with which the object was made last.
fn or_newest<H: Home>(
    size: Option<Term<H>>,
    name: &ObjectName,
    entries: &[Entry<H>],
) -> Result<Option<Term<H>>, AllocError>
    ensures { IfOk result (λ o. o ≡ or_size size (log.newest_size name.now entries.now)) }
{
    match size {
        Some(size) => Ok(Some(size)),
        None => newest_size(name, entries),
    }
}

fn alive_with<H: Home>(size: Option<Term<H>>) -> LifeOf<H>
    ensures { living_of result ≡ log.alive_with size }
{
    match size {
        Some(size) => LifeOf::Alive(size),
        None => LifeOf::Dead,
    }
}

/// The life of an object that isn't a global.
#[tactic(auto, using(crate::proofs::Steps::life_step, crate::proofs::Steps::life_freed, crate::proofs::Steps::life_end))]
pub(crate) fn life_of_made<H: Home>(
    trail: &Trail<H>,
    name: &ObjectName,
) -> Result<LifeOf<H>, AllocError>
    ensures { IfOk result (λ l. living_of l ≡ log.life_among name.now (log.seen_at (locations.life_of name.now) trail.now)) }
{
    let at = Location::Life(site_of(name));
    let mut size = None;
    let mut left = trail;
    while let Some((item, older)) = left.newest() {
        let entries = seen_in(at, item);
        if frees(name, entries) {
            return Ok(LifeOf::Dead);
        }
        size = or_newest(size, name, entries)?;
        left = older;
    }
    Ok(alive_with(size))
}
