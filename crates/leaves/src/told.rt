//! What every leaf has.
ghost use Rattle.std.specs.Prelude.{◌≡◌};
ghost use Rattle.leaves.specs.Fitting.{ToldFits};

use crate::Event;
use places::Home;
use plain_list::Sequence;
use std::marker::Model;
use sym_bytes::{CallId, SymValue};
use term_store::Conditions;
use terms::Term;

/// A skipped call, and what it returned, where that is recovered.
pub struct Recovered<H: Home> {
    call: CallId,
    value: SymValue<H>,
}

// All that lets one go is in this one place, and each end of a scope is a call.
impl<H: Home> Drop for Recovered<H> {
    fn drop(self) {
        let Recovered { call: _, value: _ } = self;
    }
}

impl<H: Home> Model for Recovered<H> {
    ghost use Rattle.leaves.specs.Events.{Recovered};

    ghost Value = { Recovered };

    ghost use Rattle.std.specs.Coded.{codes};
    ghost use Rattle.terms.specs.Codes.{coded_tree};

    ghost coded = { Prim.hlevel (codes, coded_tree) };

    ghost view = { λ r. record { call = r.call; value = r.value } };
}

impl<H: Home> Recovered<H> {
    /// A call, and what it returned.
    pub fn new(call: CallId, value: SymValue<H>) -> Recovered<H>
        ensures { result ≡ record { call = call; value = value } }
    {
        Recovered { call, value }
    }

    /// The call.
    pub fn call(&self) -> CallId
        ensures { result ≡ self.now.call }
    {
        self.call
    }

    /// What it returned.
    pub fn value(&self) -> &SymValue<H>
        ensures { result.now ≡ self.now.value }
    {
        &self.value
    }
}

/// A leaf's condition, the least input that meets it (none where the solver's budget was spent), its branches and loads, the
/// recovered results of skipped calls, and the steps that it left.
pub struct Told<H: Home> {
    condition: Conditions<H>,
    kept: Option<Sequence<u8>>,
    path: Sequence<Event<H>>,
    results: Sequence<Recovered<H>>,
    left: u64,
}

// All that lets one go is in this one place, and each end of a scope is a call.
impl<H: Home> Drop for Told<H> {
    fn drop(self) {
        let Told {
            condition: _,
            kept: _,
            path: _,
            results: _,
            left: _,
        } = self;
    }
}

impl<H: Home> Model for Told<H> {
    ghost use Rattle.leaves.specs.Events.{Told};

    ghost Value = { Told };

    ghost use Rattle.std.specs.Coded.{codes};
    ghost use Rattle.terms.specs.Codes.{coded_tree};

    ghost coded = { Prim.hlevel (codes, coded_tree) };

    ghost view = { λ t. record { condition = t.condition; kept = t.kept; path = t.path; results = t.results; left = t.left } };

    ghost use Rattle.leaves.specs.Fitting.{ToldFits};

    ghost invariant = { λ t. ToldFits (record { condition = t.condition; kept = t.kept; path = t.path; results = t.results; left = t.left }) };
}

impl<H: Home> Told<H> {
    /// What is told of a leaf. It reads no byte past the input that is kept.
    pub fn new(
        condition: Conditions<H>,
        kept: Option<Sequence<u8>>,
        path: Sequence<Event<H>>,
        results: Sequence<Recovered<H>>,
        left: u64,
    ) -> Told<H>
        requires { ToldFits (record { condition = condition; kept = kept; path = path; results = results; left = left }) }
        ensures { result ≡ record { condition = condition; kept = kept; path = path; results = results; left = left } }
    {
        Told {
            condition,
            kept,
            path,
            results,
            left,
        }
    }

    /// The condition.
    pub fn condition(&self) -> &[Term<H>]
        ensures value { result.now ≡ self.now.condition }
        ensures fits { ToldFits self.now }
    {
        self.condition.as_slice()
    }

    /// The input that is kept, if there is one.
    pub fn kept(&self) -> &Option<Sequence<u8>>
        ensures { result.now ≡ self.now.kept }
    {
        &self.kept
    }

    /// The branches and loads, the oldest first.
    pub fn path(&self) -> &[Event<H>]
        ensures { result.now ≡ self.now.path }
    {
        self.path.as_slice()
    }

    /// The recovered results, by their calls.
    pub fn results(&self) -> &[Recovered<H>]
        ensures { result.now ≡ self.now.results }
    {
        self.results.as_slice()
    }

    /// The steps left.
    pub fn left(&self) -> u64
        ensures { result ≡ self.now.left }
    {
        self.left
    }
}
