//! States, and what an attempt of one gives.
use crate::Path;
use decider::Decide;
use flat_ir::{FuncId, Location, ProgramData, Residual};
use leaves::Leaf;
use places::Home;
use plain_list::Sequence;
use skip_records::Snapshot;
use sym_bytes::CallId;
use sym_states::{Callers, Frame, Target};
use term_store::Conditions;
use terms::Terms;
use write_log::{Index, Memory};

/// The newest frame and those that called it; memory; the skipped calls, the oldest first; the condition, and the least input
/// that meets it; the branches and loads; the steps left, and the leaves that the state may still make; and in a recovery what
/// that is for.
pub struct State<H: Home, K: Index> {
    pub frame: Frame<H>,
    pub callers: Callers<H>,
    pub memory: Memory<H, K>,
    pub snapshots: Sequence<Snapshot<H>>,
    pub condition: Conditions<H>,
    pub kept: Sequence<u8>,
    pub path: Path<H>,
    pub left: u64,
    pub shares: u64,
    pub target: Option<Target>,
}

// Its parts are let go in one place, and not at each exit of a function that owns a state.
impl<H: Home, K: Index> Drop for State<H, K> {
    fn drop(self) {
        let State {
            frame: _,
            callers: _,
            memory: _,
            snapshots: _,
            condition: _,
            kept: _,
            path: _,
            left: _,
            shares: _,
            target: _,
        } = self;
    }
}

/// A state goes on, or ends in a leaf at once.
#[derive(Drop)]
pub enum Child<H: Home, K: Index> {
    Go(State<H, K>),
    Stop(Leaf<H>),
}

/// A skipped call, and the location of which its changes are needed.
#[derive(Clone, Copy, Debug, PartialEq, Eq)]
pub struct Needed {
    pub call: CallId,
    pub at: Location,
}

/// What an attempt gives: the next state, children, calls that are needed first, or a leaf.
#[derive(Drop)]
pub enum Step<H: Home, K: Index> {
    Goes(State<H, K>),
    Forks(Vec<Child<H, K>>),
    Needs(State<H, K>, Vec<Needed>),
    Ends(Leaf<H>),
}

/// A part of an attempt goes on with what it made, or it has given the attempt's answer.
#[derive(Drop)]
pub enum Flow<H: Home, K: Index, A: Drop> {
    On(A),
    Over(Step<H, K>),
}

/// What an attempt takes from outside of its state, beside the makers of terms and of verdicts: the program; the functions whose
/// calls are skipped; what a call of each function may change; the slice that is in force in a recovery; and how many conflicts a
/// verdict may meet, at least 1.
#[derive(Clone, Copy)]
pub struct Scope<'a> {
    pub program: &'a ProgramData,
    pub skips: &'a [FuncId],
    pub mods: &'a [Sequence<Location>],
    pub residual: &'a Option<Residual>,
    pub budget: u64,
}

/// What makes attempts: what they take from outside, and the makers of terms and of verdicts.
#[derive(Drop)]
pub struct Machine<'a, H: Home, D: Decide> {
    pub scope: Scope<'a>,
    pub terms: &'a Terms<H>,
    pub decide: &'a D,
}
