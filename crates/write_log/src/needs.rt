//! The skipped calls that have to be recovered before something is known.
ghost use Rattle.std.specs.Prelude.{◌≡◌, ◌++◌, reverse, IfOk, OnOk};
ghost use Rattle.std.specs.List.{list_any};
ghost use Rattle.sym_bytes.specs.ShownAnswers.{want_of};
ghost use Rattle.flat_ir.specs.Locations as locations;
ghost use Rattle.log_laws.specs.Logs as log;
ghost use Rattle.log_laws.specs.Needs as needs;
ghost use Rattle.write_log.specs.Memory.{IsWanted};
ghost use Rattle.write_log.specs.Walks.{open_call};

use crate::covers::{is_covered, left_over, offsets_from};
use crate::items::{Fill, Item, ItemKind};
use crate::lives::{frees, makes};
use crate::totals::{same_location, site_of};
use crate::trail::Trail;
use flat_ir::{Location, ObjectName};
use places::Home;
use plain_list::Sequence;
use std::alloc::{AllocError, Global};
use std::slice;
use sym_bytes::{CallId, Wanted};

// Whether one of the locations is this one.
fn is_among(at: Location, mods: &[Location]) -> bool
    ensures { result ≡ list_any (locations.same_location at) mods.now }
{
    for other in mods {
        if same_location(at, *other) {
            return true;
        }
    }
    false
}

fn is_filled<H: Home>(at: Location, fills: &[Fill<H>]) -> bool
    ensures { result ≡ log.is_filled at fills.now }
{
    for fill in fills {
        if same_location(at, fill.at()) {
            return true;
        }
    }
    false
}

fn is_open<H: Home>(at: Location, mods: &[Location], fills: &[Fill<H>]) -> bool
    ensures { result ≡ log.is_open at mods.now fills.now }
{
    is_among(at, mods) && !is_filled(at, fills)
}

// Appends a mark's call, if the mark may have changed the location and that isn't recovered.
fn push_open<H: Home>(
    calls: &mut Vec<CallId>,
    at: Location,
    item: &Item<H>,
) -> Result<(), AllocError>
    ensures { OnOk result (reverse calls.new.items ≡ open_call at item.now ++ reverse calls.old.items) }
{
    match item.kind() {
        ItemKind::Marked(call, mods, fills) if is_open(at, mods.as_slice(), fills.as_slice()) => {
            calls.push(*call)?;
            Ok(())
        }
        _ => Ok(()),
    }
}

fn oldest_first(calls: Vec<CallId>) -> Sequence<CallId>
    ensures { result ≡ reverse calls.items }
{
    let mut list = calls;
    list.reverse();
    Sequence::from_vec(list)
}

// Each mark that may have changed the location.
#[tactic(auto, using(crate::proofs::Steps::all_walk))]
fn need_all<H: Home>(
    alloc: Global,
    trail: &Trail<H>,
    at: Location,
) -> Result<Sequence<CallId>, AllocError>
    ensures { IfOk result (λ list. list ≡ needs.need_all at trail.now) }
{
    let mut calls = Vec::new(alloc);
    let mut left = trail;
    while let Some((item, older)) = left.newest() {
        push_open(&mut calls, at, item)?;
        left = older;
    }
    Ok(oldest_first(calls))
}

fn one_makes<H: Home>(name: &ObjectName, fills: &[Fill<H>]) -> bool
    ensures { result ≡ list_any (log.is_alloc_of name.now) (needs.recovered_at fills.now) }
{
    for fill in fills {
        if makes(name, fill.entries()) {
            return true;
        }
    }
    false
}

fn one_frees<H: Home>(name: &ObjectName, fills: &[Fill<H>]) -> bool
    ensures { result ≡ list_any (log.is_free_of name.now) (needs.recovered_at fills.now) }
{
    for fill in fills {
        if frees(name, fill.entries()) {
            return true;
        }
    }
    false
}

// Whether an item, or what is recovered there, makes the object.
fn makes_in<H: Home>(name: &ObjectName, item: &Item<H>) -> bool
    ensures { result ≡ list_any (log.is_alloc_of name.now) (needs.entries_of item.now) }
{
    match item.kind() {
        ItemKind::Did(entry) => makes(name, slice::from_ref(entry)),
        ItemKind::Marked(_, _, fills) => one_makes(name, fills.as_slice()),
    }
}

// Whether an item, or what is recovered there, ends the object.
fn frees_in<H: Home>(name: &ObjectName, item: &Item<H>) -> bool
    ensures { result ≡ list_any (log.is_free_of name.now) (needs.entries_of item.now) }
{
    match item.kind() {
        ItemKind::Did(entry) => frees(name, slice::from_ref(entry)),
        ItemKind::Marked(_, _, fills) => one_frees(name, fills.as_slice()),
    }
}

fn is_freed<H: Home>(name: &ObjectName, trail: &Trail<H>) -> bool
    ensures { result ≡ needs.is_freed name.now trail.now }
{
    let mut left = trail;
    while let Some((item, older)) = left.newest() {
        if frees_in(name, item) {
            return true;
        }
        left = older;
    }
    false
}

// The marks that may have changed an object's life, back to its Alloc.
#[tactic(auto, using(crate::proofs::Steps::life_back_walk, crate::proofs::Steps::life_back_end))]
fn need_life_back<H: Home>(
    alloc: Global,
    trail: &Trail<H>,
    name: &ObjectName,
) -> Result<Sequence<CallId>, AllocError>
    ensures { IfOk result (λ list. list ≡ needs.need_life_back name.now trail.now) }
{
    let at = Location::Life(site_of(name));
    let mut calls = Vec::new(alloc);
    let mut left = trail;
    while let Some((item, older)) = left.newest() {
        push_open(&mut calls, at, item)?;
        if makes_in(name, item) {
            return Ok(oldest_first(calls));
        }
        left = older;
    }
    Ok(oldest_first(calls))
}

fn need_life<H: Home>(
    alloc: Global,
    trail: &Trail<H>,
    name: &ObjectName,
) -> Result<Sequence<CallId>, AllocError>
    ensures { IfOk result (λ list. list ≡ needs.need_life name.now trail.now) }
{
    match name {
        ObjectName::Global(_) => Ok(Sequence::new(alloc)),
        ObjectName::Made { frame: _, made: _ } => {
            if is_freed(name, trail) {
                Ok(Sequence::new(alloc))
            } else {
                need_life_back(alloc, trail, name)
            }
        }
    }
}

// The marks to be recovered for bytes of an object: back to its Alloc, or until each wanted offset is covered.
#[tactic(auto, using(crate::proofs::Steps::bytes_walk, crate::proofs::Steps::bytes_end, crate::proofs::Steps::bytes_covered))]
fn need_bytes<H: Home>(
    alloc: Global,
    trail: &Trail<H>,
    name: &ObjectName,
    wanted: Option<Sequence<u64>>,
) -> Result<Sequence<CallId>, AllocError>
    ensures { IfOk result (λ list. list ≡ needs.need_bytes name.now wanted trail.now) }
{
    let at = Location::Cells(site_of(name));
    let mut calls = Vec::new(alloc);
    let mut wanted = wanted;
    let mut left = trail;
    while let Some((item, older)) = left.newest() {
        if is_covered(&wanted) {
            return Ok(oldest_first(calls));
        }
        push_open(&mut calls, at, item)?;
        if makes_in(name, item) {
            return Ok(oldest_first(calls));
        }
        wanted = left_over(alloc, name, item, wanted)?;
        left = older;
    }
    Ok(oldest_first(calls))
}

/// The calls that are needed for what is wanted, oldest first.
pub(crate) fn needed<H: Home>(
    alloc: Global,
    trail: &Trail<H>,
    what: &Wanted<H>,
) -> Result<Sequence<CallId>, AllocError>
    requires { IsWanted (want_of what.now) }
    ensures { IfOk result (λ list. list ≡ needs.need (want_of what.now) trail.now) }
{
    match what {
        Wanted::Bytes(name, offset, count) => {
            let wanted = offsets_from(alloc, offset, *count)?;
            need_bytes(alloc, trail, name, wanted)
        }
        Wanted::Life(name) => need_life(alloc, trail, name),
        Wanted::Input => need_all(alloc, trail, Location::Input),
        Wanted::Output => need_all(alloc, trail, Location::Output),
    }
}
