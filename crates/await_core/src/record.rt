use crate::evaluation::Evaluation;
use crate::shared::Shared;
use crate::slots::Slots;
use plain_list::Sequence;

/// What a task does.
#[derive(Drop)]
pub enum Work<N, L, R> {
    Expand(N),
    Resume(R, Sequence<Sequence<L>>),
}

/// The place among the nodes of a task's answer that another task's value goes to.
#[derive(Clone, Copy, Drop)]
pub struct Home {
    pub ticket: usize,
    pub place: usize,
}

/// How far a task has come.
#[derive(Drop)]
pub enum Stage<N, L, R> {
    /// Nobody took it yet.
    Open(Shared<Work<N, L, R>>),
    /// It was taken.
    Out,
    /// It was taken and given up.
    Refused,
    /// Its answer is a fork, and these are the lists of the nodes that have come.
    Forked(Slots<L>),
    /// Its answer is an await, and these are the lists of the nodes that have come.
    Waiting(Slots<L>, R),
    /// Its value has gone to its home, or its rest has a task of its own.
    Over,
}

/// A task.
#[derive(Drop)]
pub struct Record<N, L, R> {
    pub work: Shared<Work<N, L, R>>,
    /// Where its value goes; that of the root goes nowhere.
    pub home: Option<Home>,
    /// How many tasks were done for the home before this one.
    pub before: u64,
    pub stage: Stage<N, L, R>,
}

/// An await whose lists are all there.
#[derive(Drop)]
pub struct Resumption<L, R> {
    /// The task that awaited.
    pub ticket: usize,
    pub rest: R,
    pub lists: Sequence<Sequence<L>>,
    /// The number of tasks that made the lists.
    pub tasks: u64,
}
