//! What stands in a log.
ghost use Rattle.std.specs.Prelude.{◌≡◌, ◌++◌, ◌∷◌, [], IfOk};
ghost use Rattle.log_laws.specs.Logs as log;
ghost use Rattle.write_log.specs.Items.{item_of};
ghost use Rattle.write_log.specs.Walks.{is_mark_of, with_fill};

use flat_ir::Location;
use places::Home;
use plain_list::Sequence;
use std::alloc::{AllocError, Global};
use std::marker::Model;
use sym_bytes::{CallId, Entry};

/// What is recovered of a call in one location, the newest entry first.
pub(crate) struct Fill<H: Home> {
    at: Location,
    entries: Sequence<Entry<H>>,
}

// All that lets one go is in this one place, and each end of a scope is a call.
impl<H: Home> Drop for Fill<H> {
    fn drop(self) {
        let Fill { at: _, entries: _ } = self;
    }
}

impl<H: Home> Model for Fill<H> {
    ghost use Rattle.log_laws.specs.Logs.{Fill};

    ghost Value = { Fill };

    ghost use Rattle.std.specs.Coded.{codes};
    ghost use Rattle.terms.specs.Codes.{coded_tree};

    ghost coded = { Prim.hlevel (codes, coded_tree) };

    ghost view = { λ f. record { at = f.at; entries = f.entries } };
}

impl<H: Home> Fill<H> {
    pub(crate) fn new(at: Location, entries: Sequence<Entry<H>>) -> Fill<H>
        ensures { result ≡ record { at = at; entries = entries } }
    {
        Fill { at, entries }
    }

    pub(crate) fn at(&self) -> Location
        ensures { result ≡ self.now.at }
    {
        self.at
    }

    pub(crate) fn entries(&self) -> &[Entry<H>]
        ensures { result.now ≡ self.now.entries }
    {
        self.entries.as_slice()
    }

    pub(crate) fn copy(&self, alloc: Global) -> Result<Fill<H>, AllocError>
        ensures { IfOk result (λ f. f ≡ self.now) }
    {
        Ok(Fill {
            at: self.at,
            entries: copy_entries(alloc, self.entries.as_slice())?,
        })
    }
}

/// A change, or the place of a skipped call: what it may change, and what is recovered of it.
#[derive(Drop)]
pub(crate) enum ItemKind<H: Home> {
    Did(Entry<H>),
    Marked(CallId, Sequence<Location>, Sequence<Fill<H>>),
}

/// What stands in a log.
pub(crate) struct Item<H: Home> {
    kind: ItemKind<H>,
}

// All that lets one go is in this one place, and each end of a scope is a call.
impl<H: Home> Drop for Item<H> {
    fn drop(self) {
        let Item { kind: _ } = self;
    }
}

impl<H: Home> Model for Item<H> {
    ghost use Rattle.log_laws.specs.Logs.{Item};

    ghost Value = { Item };

    ghost use Rattle.std.specs.Coded.{codes};
    ghost use Rattle.terms.specs.Codes.{coded_tree};

    ghost coded = { Prim.hlevel (codes, coded_tree) };

    ghost use Rattle.write_log.specs.Items.{item_of};

    ghost view = { λ i. item_of i.kind };
}

pub(crate) fn copy_entries<H: Home>(
    alloc: Global,
    entries: &[Entry<H>],
) -> Result<Sequence<Entry<H>>, AllocError>
    ensures { IfOk result (λ list. list ≡ entries.now) }
{
    let mut list = Sequence::new(alloc);
    for entry in entries {
        list.push(entry.copy(alloc)?)?;
    }
    Ok(list)
}

pub(crate) fn copy_fills<H: Home>(
    alloc: Global,
    fills: &[Fill<H>],
) -> Result<Sequence<Fill<H>>, AllocError>
    ensures { IfOk result (λ list. list ≡ fills.now) }
{
    let mut list = Sequence::new(alloc);
    for fill in fills {
        list.push(fill.copy(alloc)?)?;
    }
    Ok(list)
}

fn with_one_more<H: Home>(
    alloc: Global,
    fills: &[Fill<H>],
    fill: Fill<H>,
) -> Result<Sequence<Fill<H>>, AllocError>
    ensures { IfOk result (λ list. list ≡ fills.now ++ fill ∷ []) }
{
    let mut list = copy_fills(alloc, fills)?;
    list.push(fill)?;
    Ok(list)
}

impl<H: Home> Item<H> {
    pub(crate) fn did(entry: Entry<H>) -> Item<H>
        ensures { result ≡ log.Did entry }
    {
        Item {
            kind: ItemKind::Did(entry),
        }
    }

    pub(crate) fn marked(
        call: CallId,
        mods: Sequence<Location>,
        fills: Sequence<Fill<H>>,
    ) -> Item<H>
        ensures { result ≡ log.Marked call mods fills }
    {
        Item {
            kind: ItemKind::Marked(call, mods, fills),
        }
    }

    pub(crate) fn kind(&self) -> &ItemKind<H>
        ensures { item_of result.now ≡ self.now }
    {
        &self.kind
    }

    pub(crate) fn copy(&self, alloc: Global) -> Result<Item<H>, AllocError>
        ensures { IfOk result (λ i. i ≡ self.now) }
    {
        match &self.kind {
            ItemKind::Did(entry) => Ok(Item::did(entry.copy(alloc)?)),
            ItemKind::Marked(call, mods, fills) => {
                let fills = copy_fills(alloc, fills.as_slice())?;
                Ok(Item::marked(*call, mods.copy(alloc)?, fills))
            }
        }
    }

    /// Whether the item is the call's mark.
    pub(crate) fn is_mark_of(&self, call: CallId) -> bool
        ensures { result ≡ is_mark_of call self.now }
    {
        match &self.kind {
            ItemKind::Did(_) => false,
            ItemKind::Marked(other, _, _) => call.0 == other.0,
        }
    }

    /// A mark with one more fill.
    pub(crate) fn with_fill(&self, alloc: Global, fill: Fill<H>) -> Result<Item<H>, AllocError>
        ensures { IfOk result (λ i. i ≡ with_fill fill self.now) }
    {
        match &self.kind {
            ItemKind::Did(entry) => Ok(Item::did(entry.copy(alloc)?)),
            ItemKind::Marked(call, mods, fills) => {
                let fills = with_one_more(alloc, fills.as_slice(), fill)?;
                Ok(Item::marked(*call, mods.copy(alloc)?, fills))
            }
        }
    }
}
