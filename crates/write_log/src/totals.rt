//! What a log read and wrote, and its entries in a location.
ghost use Rattle.std.specs.Prelude.{◌≡◌, ◌+◌, ◌^◌, ◌-◌, ◌++◌, ◌∷◌, [], min, IfOk, OnOk};
ghost use Rattle.flat_ir.specs.Locations as locations;
ghost use Rattle.log_laws.specs.Logs as log;
ghost use Rattle.std.specs.Option.{option_copied};
ghost use Rattle.write_log.specs.Walks.{seen_in, get_of, put_of};
ghost use Rattle.flat_ir.specs.History as history;
ghost use Rattle.std.specs.Prelude.{reverse};

use crate::items::{Fill, Item, ItemKind};
use crate::trail::Trail;
use flat_ir::{Location, ObjectName, Site};
use places::Home;
use plain_list::Sequence;
use std::alloc::{AllocError, Global};
use std::slice;
use sym_bytes::{Entry, EntryKind};
use terms::Term;

/// Where an object comes from.
pub(crate) fn site_of(name: &ObjectName) -> Site
    ensures { result ≡ history.site_of name.now }
{
    match name {
        ObjectName::Global(global) => Site::Global(*global),
        ObjectName::Made { frame: _, made } => Site::Node(made.func, made.node),
    }
}

fn same_site(a: Site, b: Site) -> bool
    ensures { result ≡ locations.same_site a b }
{
    match (a, b) {
        (Site::Global(g), Site::Global(h)) => g == h,
        (Site::Node(f, n), Site::Node(g, m)) => f.0 == g.0 && n.0 == m.0,
        _ => false,
    }
}

pub(crate) fn same_location(a: Location, b: Location) -> bool
    ensures { result ≡ locations.same_location a b }
{
    match (a, b) {
        (Location::Cells(s), Location::Cells(t)) | (Location::Life(s), Location::Life(t)) => {
            same_site(s, t)
        }
        (Location::Input, Location::Input)
        | (Location::Output, Location::Output)
        | (Location::Result, Location::Result) => true,
        _ => false,
    }
}

/// What is recovered of a location at a mark, the newest entry first.
pub(crate) fn filled<H: Home>(at: Location, fills: &[Fill<H>]) -> &[Entry<H>]
    ensures { result.now ≡ log.filled at fills.now }
{
    for fill in fills {
        if same_location(at, fill.at()) {
            return fill.entries();
        }
    }
    &[]
}

/// What an item shows to a location.
pub(crate) fn seen_in<H: Home>(at: Location, item: &Item<H>) -> &[Entry<H>]
    ensures { result.now ≡ seen_in at item.now }
{
    match item.kind() {
        ItemKind::Did(entry) => slice::from_ref(entry),
        ItemKind::Marked(_, _, fills) => filled(at, fills.as_slice()),
    }
}

// How many bytes of the input an entry reads.
fn get_of<H: Home>(entry: &Entry<H>) -> u64
    ensures { result ≡ get_of entry.now }
{
    match entry.kind() {
        EntryKind::Get => 1,
        _ => 0,
    }
}

// A count and how many bytes of the input entries read, at most 2^64 - 1.
#[tactic(auto, using(crate::proofs::Steps::gets_step))]
fn with_gets<H: Home>(count: u64, entries: &[Entry<H>]) -> u64
    ensures { result ≡ min (count + log.gets_in entries.now) (2 ^ 64 - 1) }
{
    let mut total = count;
    for entry in entries {
        total = total.saturating_add(get_of(entry));
    }
    total
}

/// How many bytes of the input were read, at most 2^64 - 1.
#[tactic(auto, using(crate::proofs::Steps::position_step))]
pub(crate) fn gets_in<H: Home>(trail: &Trail<H>) -> u64
    ensures { result ≡ min (log.position trail.now) (2 ^ 64 - 1) }
{
    let mut total = 0;
    let mut left = trail;
    while let Some((item, older)) = left.newest() {
        total = with_gets(total, seen_in(Location::Input, item));
        left = older;
    }
    total
}

// What an entry writes out.
fn put_of<H: Home>(entry: &Entry<H>) -> Option<&Term<H>>
    ensures { option_copied result ≡ put_of entry.now }
{
    match entry.kind() {
        EntryKind::Put(t) => Some(t),
        _ => None,
    }
}

// Appends what entries write out, the newest first.
#[tactic(auto, using(crate::proofs::Steps::puts_walk, crate::proofs::Steps::puts_skip))]
fn push_puts<H: Home>(list: &mut Vec<Term<H>>, entries: &[Entry<H>]) -> Result<(), AllocError>
    ensures { OnOk result (reverse list.new.items ≡ log.puts_in entries.now ++ reverse list.old.items) }
{
    for entry in entries {
        let Some(t) = put_of(entry) else {
            continue;
        };
        list.push(t.copy()?)?;
    }
    Ok(())
}

/// What was written out, the oldest byte first.
#[tactic(auto, using(crate::proofs::Steps::output_walk))]
pub(crate) fn puts_in<H: Home>(
    alloc: Global,
    trail: &Trail<H>,
) -> Result<Sequence<Term<H>>, AllocError>
    ensures { IfOk result (λ list. list ≡ log.output trail.now) }
{
    let mut list = Vec::new(alloc);
    let mut left = trail;
    while let Some((item, older)) = left.newest() {
        push_puts(&mut list, seen_in(Location::Output, item))?;
        left = older;
    }
    list.reverse();
    Ok(Sequence::from_vec(list))
}

// Where an entry lies.
fn place_of<H: Home>(entry: &Entry<H>) -> Location
    ensures { result ≡ log.place_of entry.now }
{
    match entry.kind() {
        EntryKind::Write(name, _, _) => Location::Cells(site_of(name)),
        EntryKind::Alloc(name, _) | EntryKind::Free(name) => Location::Life(site_of(name)),
        EntryKind::Put(_) => Location::Output,
        EntryKind::Get => Location::Input,
    }
}

// Appends an item's entry, if it is one and lies in the location.
fn push_if_in<H: Home>(
    alloc: Global,
    list: &mut Sequence<Entry<H>>,
    at: Location,
    item: &Item<H>,
) -> Result<(), AllocError>
    ensures { OnOk result (list.new ≡ list.old ++ log.entries_in at (item.now ∷ [])) }
{
    match item.kind() {
        ItemKind::Did(entry) if same_location(at, place_of(entry)) => {
            list.push(entry.copy(alloc)?)
        }
        _ => Ok(()),
    }
}

/// The entries in a location since the log had that length, the newest first.
#[tactic(auto, using(crate::proofs::Steps::since_walk, crate::proofs::Steps::since_end))]
pub(crate) fn entries_in<H: Home>(
    alloc: Global,
    trail: &Trail<H>,
    old: u64,
    at: Location,
) -> Result<Sequence<Entry<H>>, AllocError>
    ensures { IfOk result (λ list. list ≡ log.entries_since old at trail.now) }
{
    let mut list = Sequence::new(alloc);
    let mut left = trail;
    'since: while left.len() > old {
        let Some((item, older)) = left.newest() else {
            return Ok(list);
        };
        push_if_in(alloc, &mut list, at, item)?;
        left = older;
    }
    Ok(list)
}
