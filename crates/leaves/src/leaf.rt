//! Leaves.
ghost use Rattle.std.specs.Prelude.{◌≡◌};
ghost use Rattle.leaves.specs.Events as spec;
ghost use Rattle.leaves.specs.Fitting.{LeafFits};
ghost use Rattle.leaves.specs.Shown.{leaf_of_kind};

use crate::{Cause, Told};
use flat_ir::{FaultKind, FuncId, NodeId};
use places::Home;
use plain_list::Sequence;
use std::marker::Model;
use sym_bytes::{Entry, SymValue};
use terms::Term;

/// How a leaf ends.
#[derive(Drop)]
pub enum LeafKind<H: Home> {
    /// The program ends with a status, having written out these bytes.
    Complete {
        told: Told<H>,
        status: Term<H>,
        output: Sequence<Term<H>>,
    },
    /// A fault at a function's node, behind these bytes.
    Fault {
        told: Told<H>,
        kind: FaultKind,
        func: FuncId,
        node: NodeId,
        output: Sequence<Term<H>>,
    },
    /// A skipped call doesn't return: it has this fault.
    Skipped {
        told: Told<H>,
        kind: FaultKind,
        func: FuncId,
        node: NodeId,
    },
    /// The exploration stopped.
    Open {
        told: Told<H>,
        cause: Cause,
    },
    /// A recovery is done: what the call changed in a location, the newest first, or what it returned.
    Done {
        told: Told<H>,
        entries: Sequence<Entry<H>>,
        result: Option<SymValue<H>>,
    },
}

/// A leaf of an exploration.
pub struct Leaf<H: Home> {
    kind: LeafKind<H>,
}

// All that lets one go is in this one place, and each end of a scope is a call.
impl<H: Home> Drop for Leaf<H> {
    fn drop(self) {
        let Leaf { kind: _ } = self;
    }
}

impl<H: Home> Model for Leaf<H> {
    ghost use Rattle.leaves.specs.Events.{Leaf};

    ghost Value = { Leaf };

    ghost use Rattle.std.specs.Coded.{codes};
    ghost use Rattle.terms.specs.Codes.{coded_tree};

    ghost coded = { Prim.hlevel (codes, coded_tree) };

    ghost use Rattle.leaves.specs.Shown.{leaf_of_kind};

    ghost view = { λ l. leaf_of_kind l.kind };

    ghost use Rattle.leaves.specs.Fitting.{LeafFits};

    ghost invariant = { λ l. LeafFits (leaf_of_kind l.kind) };
}

impl<H: Home> Leaf<H> {
    /// A leaf that ends so. It reads no byte past the input that is kept.
    pub fn new(kind: LeafKind<H>) -> Leaf<H>
        requires { LeafFits (leaf_of_kind kind) }
        ensures { result ≡ leaf_of_kind kind }
    {
        Leaf { kind }
    }

    /// How the leaf ends.
    pub fn kind(&self) -> &LeafKind<H>
        ensures kind { leaf_of_kind result.now ≡ self.now }
        ensures fits { LeafFits self.now }
    {
        &self.kind
    }

    /// What is told of the leaf whatever its end.
    pub fn told(&self) -> &Told<H>
        ensures { result.now ≡ spec.told_of self.now }
    {
        match &self.kind {
            LeafKind::Complete { told, .. } => told,
            LeafKind::Fault { told, .. } => told,
            LeafKind::Skipped { told, .. } => told,
            LeafKind::Open { told, .. } => told,
            LeafKind::Done { told, .. } => told,
        }
    }
}
