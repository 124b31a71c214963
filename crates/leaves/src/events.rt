//! What a path shows of itself.
ghost use Rattle.std.specs.Prelude.{◌≡◌, IfOk};
ghost use Rattle.leaves.specs.Events as event;
ghost use Rattle.leaves.specs.Shown.{event_of_kind};

use flat_ir::{FuncId, NodeId};
use places::Home;
use std::alloc::AllocError;
use std::marker::Model;
use sym_bytes::SymValue;

/// What an event is.
#[derive(Drop)]
pub enum EventKind<H: Home> {
    /// A branch or a switch took the side of this number, counted as its successors are.
    Branch {
        func: FuncId,
        node: NodeId,
        side: usize,
    },
    /// A load gave this value.
    Load {
        func: FuncId,
        node: NodeId,
        value: SymValue<H>,
    },
}

/// A side that was taken, or a value that was loaded.
pub struct Event<H: Home> {
    kind: EventKind<H>,
}

// All that lets one go is in this one place, and each end of a scope is a call.
impl<H: Home> Drop for Event<H> {
    fn drop(self) {
        let Event { kind: _ } = self;
    }
}

impl<H: Home> Model for Event<H> {
    ghost use Rattle.leaves.specs.Events.{Event};

    ghost Value = { Event };

    ghost use Rattle.std.specs.Coded.{codes};
    ghost use Rattle.terms.specs.Codes.{coded_tree};

    ghost coded = { Prim.hlevel (codes, coded_tree) };

    ghost use Rattle.leaves.specs.Shown.{event_of_kind};

    ghost view = { λ e. event_of_kind e.kind };
}

impl<H: Home> Event<H> {
    /// A branch or a switch of a function took a side.
    pub fn branch(func: FuncId, node: NodeId, side: usize) -> Event<H>
        ensures { result ≡ event.Branch func node side }
    {
        Event {
            kind: EventKind::Branch { func, node, side },
        }
    }

    /// A load of a function gave a value.
    pub fn load(func: FuncId, node: NodeId, value: SymValue<H>) -> Event<H>
        ensures { result ≡ event.Load func node value }
    {
        Event {
            kind: EventKind::Load { func, node, value },
        }
    }

    /// What the event is.
    pub fn kind(&self) -> &EventKind<H>
        ensures { event_of_kind result.now ≡ self.now }
    {
        &self.kind
    }

    /// An equal event, which shares its parts.
    pub fn copy(&self) -> Result<Event<H>, AllocError>
        ensures { IfOk result (λ e. e ≡ self.now) }
    {
        match &self.kind {
            EventKind::Branch { func, node, side } => Ok(Event::branch(*func, *node, *side)),
            EventKind::Load { func, node, value } => Ok(Event::load(*func, *node, value.copy()?)),
        }
    }
}
