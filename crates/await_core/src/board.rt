ghost use Rattle.std.specs.Prelude.{◌≡◌, ◌≢◌, ℕ, ◌+◌, ◌-◌, ◌^◌, ◌<◌, ◌≤◌, ◌↔◌, [], ◌∷◌, ◌++◌, length, slice_get, Some, None, IsTrue, IfOk, OnOk, OnErr, vec_len, vec_capacity};
ghost use Rattle.await_core.specs.Slots.{capped, no_lists};
ghost use Rattle.await_core.specs.Meaning.{Answers};
ghost use Rattle.await_core.specs.declared.record.Record.{Record};
ghost use Rattle.await_core.specs.Boards.{BoardState, IsOpen, IsOutAt, leaves_held, set_stage, works_of, started};
ghost use Rattle.await_core.specs.Steps.{HasRoom};
ghost use Rattle.await_core.specs.Standing.{Stands, StandsFor, IsRootWorth};
ghost use Rattle.await_core.specs.Finishing.{Reaches, HoldsFor, BringsFor};
ghost use Rattle.await_core.specs.Events.{first_refused, TakesFrom, RefusesAt, PostsAt, Posts, PostsLeaf, HasNodes, branches, branched, IsAnswer};
ghost use Rattle.await_core.specs.Opening.{OpensWith, branch_stage};

use crate::evaluation::{Evaluation, evaluate_answer};
use crate::expansion::Expansion;
use crate::load::Load;
use crate::perform::perform;
use crate::record::{Home, Record, Resumption, Stage, Work};
use crate::settle::{before_at, change_stage, completes, home_at, put_stage, settle};
use crate::shared::Shared;
use crate::slots::Slots;
use crate::tree::Tree;
use plain_list::Sequence;
use std::alloc::{AllocError, Global};
use std::marker::Model;
use std::sync::Arc;

/// The tasks of an evaluation, by their tickets.
///
/// Those that were taken are a front part of the list, since the least ticket is taken first.
#[derive(Drop)]
pub struct Board<N, L, R> {
    records: Vec<Record<N, L, R>>,
    handed: usize,
    out: usize,
    refused: Option<usize>,
    value: Option<Evaluation<L>>,
    /// How many leaves were posted: at least as many as lie in slots.
    leaves: usize,
}

impl<N, L, R> Model for Board<N, L, R> {
    ghost use Rattle.std.specs.Prelude.{◌≤◌};
    ghost use Rattle.await_core.specs.Boards.{BoardState, IsSound, leaves_held};

    ghost Value = { BoardState N L R };

    ghost view = { λ b. record { records = b.records.items; handed = b.handed; out = b.out; refused = b.refused; value = b.value } };

    ghost invariant = { λ b. IsSound b.records.items b.handed b.out b.refused b.value × (leaves_held b.records.items ≤ b.leaves) };
}

/// What `take` hands out.
#[derive(Drop)]
pub enum Taken<N, L, R> {
    /// The open task with the least ticket.
    Task {
        ticket: u64,
        work: Shared<Work<N, L, R>>,
    },
    /// No task is open, and so many are taken and not posted.
    Idle {
        taken: u64,
    },
    /// The first ticket that was refused, or posted without memory.
    Stopped {
        ticket: u64,
    },
    /// The value of the root is there.
    Finished,
}

/// What became of a post.
#[derive(Clone, Copy, Debug, PartialEq, Eq)]
pub enum Posted {
    /// The ticket was out.
    Kept,
    /// It wasn't, and the board is unchanged.
    Stray,
}

/// The first ticket that was refused.
fn first_of(refused: Option<usize>, ticket: usize) -> Option<usize>
    ensures { result ≡ first_refused refused ticket }
{
    match refused {
        None => Some(ticket),
        Some(first) => Some(first),
    }
}

/// Hands out the work of an open task.
fn hand_out<N: Drop, L: Drop, R: Drop>(
    records: &mut Vec<Record<N, L, R>>,
    at: usize,
) -> Shared<Work<N, L, R>>
    requires within { at < length records.old.items }
    requires open { (r : Record N L R) → slice_get records.old.items at ≡ Some r → IsOpen r.work r.stage }
    ensures work { slice_get (works_of records.old.items) at ≡ Some result }
    ensures after { records.new.items ≡ set_stage records.old.items at Stage.Out }
{
    match change_stage(records, at, Stage::Out) {
        Stage::Open(work) => work,
        _ => unreachable!(),
    }
}

/// Whether the task was taken, and neither posted nor refused.
fn is_out<N: Drop, L: Drop, R: Drop>(records: &[Record<N, L, R>], ticket: usize) -> bool
    ensures { IsTrue result ↔ IsOutAt records.now ticket }
{
    match records.get(ticket) {
        Some(record) => matches!(record.stage, Stage::Out),
        None => false,
    }
}

/// The stage of a task whose answer has nodes, and a rest where it awaits them.
fn stage_of<N, L, R>(slots: Slots<L>, rest: Option<R>) -> Stage<N, L, R>
    ensures { result ≡ branch_stage slots rest }
{
    match rest {
        None => Stage::Forked(slots),
        Some(rest) => Stage::Waiting(slots, rest),
    }
}

/// Adds the tasks of the nodes, whose home is the ticket.
fn add_branches<N: Drop, L: Drop, R: Drop>(
    alloc: Global,
    records: &mut Vec<Record<N, L, R>>,
    ticket: usize,
    nodes: Sequence<N>,
) -> Result<(), AllocError>
    ensures ok { OnOk result (records.new.items ≡ records.old.items ++ branches ticket 0 nodes) }
    ensures err { OnErr result (records.new.items ≡ records.old.items) }
{
    let mut tasks: Vec<Record<N, L, R>> = Vec::new(alloc);
    for node in nodes.into_vec() {
        let place = tasks.len();
        let (work, kept) = Shared::pair(alloc, Work::Expand(node))?;
        tasks.push(Record {
            work,
            home: Some(Home { ticket, place }),
            before: 0,
            stage: Stage::Open(kept),
        })?;
    }
    records.append(&mut tasks)
}

/// Adds a task where there is room for it.
fn push_within<N: Drop, L: Drop, R: Drop>(records: &mut Vec<Record<N, L, R>>, task: Record<N, L, R>)
    requires { vec_len records.old < vec_capacity records.old }
    ensures { records.new.items ≡ records.old.items ++ task ∷ [] }
{
    let put = records.push(task);
    prove!(put.is_ok());
}

/// How many tasks were done for the home once these were, too.
fn after_at<N: Drop, L: Drop, R: Drop>(
    records: &[Record<N, L, R>],
    ticket: usize,
    tasks: u64,
) -> u64
    requires { ticket < length records.now }
    ensures { (r : Record N L R) → slice_get records.now ticket ≡ Some r → result ≡ capped (r.before + 1 + tasks) }
{
    let one = before_at(records, ticket).saturating_add(1);
    one.saturating_add(tasks)
}

/// Opens the task of a rest whose lists are there, and answers the first ticket that was refused.
fn open_resumption<N: Drop, L: Drop, R: Drop>(
    records: &mut Vec<Record<N, L, R>>,
    refused: Option<usize>,
    work: Shared<Work<N, L, R>>,
    ticket: usize,
    tasks: u64,
) -> Option<usize>
    requires within { ticket < length records.old.items }
    requires room { vec_len records.old < vec_capacity records.old }
    ensures { OpensWith records.old.items refused work ticket tasks records.new.items result }
{
    let home = home_at(records.as_slice(), ticket);
    let before = after_at(records.as_slice(), ticket, tasks);
    let next = records.len();
    match work.other() {
        Ok(kept) => {
            let stage = Stage::Open(kept);
            push_within(
                records,
                Record {
                    work,
                    home,
                    before,
                    stage,
                },
            );
            refused
        }
        Err(_) => {
            let stage = Stage::Refused;
            push_within(
                records,
                Record {
                    work,
                    home,
                    before,
                    stage,
                },
            );
            first_of(refused, next)
        }
    }
}

/// Room for the leaves that rise with the task's worth; there are at most so many.
fn room_for<N: Drop, L: Drop, R: Drop>(
    records: &[Record<N, L, R>],
    ticket: usize,
    leaves: usize,
) -> usize
    requires within { ticket < length records.now }
    requires enough { leaves_held records.now ≤ leaves }
    ensures { HasRoom records.now ticket result }
{
    if completes(records, ticket) {
        leaves
    } else {
        0
    }
}

impl<N: Drop, L: Drop, R: Drop> Board<N, L, R> {
    /// The board with the task of the root alone.
    pub fn start(alloc: Global, root: N) -> Result<Self, AllocError>
        ensures board { IfOk result (λ board. board ≡ started root) }
        ensures stands { (tree : Answers N L R) → IfOk result (Stands tree root) }
        ensures events { (tree : Answers N L R) (node : N) (b : BoardState N L R) → Reaches tree node b → Stands tree node b }
    {
        let (work, kept) = Shared::pair(alloc, Work::Expand(root))?;
        let mut records = Vec::new(alloc);
        records.push(Record {
            work,
            home: None,
            before: 0,
            stage: Stage::Open(kept),
        })?;
        Ok(Board {
            records,
            handed: 0,
            out: 0,
            refused: None,
            value: None,
            leaves: 0,
        })
    }

    /// Hands out the open task with the least ticket. It takes no memory.
    pub fn take(&mut self) -> Taken<N, L, R>
        ensures answer { TakesFrom self.old result self.new }
        ensures stands { (tree : Answers N L R) (root : N) → Stands tree root self.old → Stands tree root self.new }
    {
        if self.value.is_some() {
            return Taken::Finished;
        }
        if let Some(ticket) = self.refused {
            return Taken::Stopped {
                ticket: ticket as u64,
            };
        }
        let ticket = self.handed;
        if ticket < self.records.len() {
            let work = hand_out(&mut self.records, ticket);
            self.handed = ticket + 1;
            self.out += 1;
            return Taken::Task {
                ticket: ticket as u64,
                work,
            };
        }
        Taken::Idle {
            taken: self.out as u64,
        }
    }

    /// Takes back a task that its taker gives up. It takes no memory.
    pub fn refuse(&mut self, ticket: u64) -> Posted
        ensures answer { RefusesAt self.old ticket result self.new }
        ensures stands { (tree : Answers N L R) (root : N) → Stands tree root self.old → Stands tree root self.new }
    {
        let at = ticket as usize;
        if !is_out(self.records.as_slice(), at) {
            return Posted::Stray;
        }
        put_stage(&mut self.records, at, Stage::Refused);
        self.out -= 1;
        self.refused = first_of(self.refused, at);
        Posted::Kept
    }

    /// Keeps the nodes of an answer, and its rest where it awaits them.
    fn branch(
        &mut self,
        alloc: Global,
        ticket: usize,
        nodes: Sequence<N>,
        rest: Option<R>,
    ) -> Result<(), AllocError>
        requires out { IsOutAt self.old.records ticket }
        requires some { nodes ≢ [] }
        ensures ok { OnOk result (self.new ≡ branched self.old ticket nodes (branch_stage (no_lists (length nodes)) rest)) }
        ensures err { OnErr result (self.new ≡ self.old) }
    {
        let slots = Slots::new(alloc, nodes.len())?;
        add_branches(alloc, &mut self.records, ticket, nodes)?;
        put_stage(&mut self.records, ticket, stage_of(slots, rest));
        self.out -= 1;
        Ok(())
    }

    /// Keeps the leaf of an answer, and what it completes. All memory is taken before the first change.
    fn keep_leaf(&mut self, alloc: Global, ticket: usize, leaf: L) -> Result<(), AllocError>
        requires out { IsOutAt self.old.records ticket }
        ensures ok { OnOk result (PostsLeaf self.old ticket leaf self.new) }
        ensures err { OnErr result (self.new ≡ self.old) }
    {
        let Some(leaves) = self.leaves.checked_add(1) else {
            return Err(AllocError);
        };
        let room = room_for(self.records.as_slice(), ticket, self.leaves);
        let tasks = before_at(self.records.as_slice(), ticket).saturating_add(1);
        let load = Load::of_leaf(alloc, leaf, tasks, room)?;
        self.records.reserve(1)?;
        let mut cell = Arc::new(alloc, None)?;
        let Some(place) = Arc::get_mut(&mut cell) else {
            return Err(AllocError);
        };
        put_stage(&mut self.records, ticket, Stage::Over);
        self.out -= 1;
        self.leaves = leaves;
        match settle(alloc, &mut self.records, &mut self.value, ticket, load) {
            None => Ok(()),
            Some(made) => {
                let Resumption {
                    ticket,
                    rest,
                    lists,
                    tasks,
                } = made;
                *place = Some(Work::Resume(rest, lists));
                let work = Shared::of_place(cell);
                self.refused = open_resumption(
                    &mut self.records,
                    self.refused,
                    work,
                    ticket,
                    tasks,
                );
                Ok(())
            }
        }
    }

    /// Keeps the answer for a task that is out. Without memory the board is unchanged.
    fn keep(
        &mut self,
        alloc: Global,
        ticket: usize,
        made: Expansion<N, L, R>,
    ) -> Result<(), AllocError>
        requires out { IsOutAt self.old.records ticket }
        requires some { HasNodes made }
        ensures ok { OnOk result (Posts self.old ticket made self.new) }
        ensures err { OnErr result (self.new ≡ self.old) }
    {
        match made {
            Expansion::Leaf(leaf) => self.keep_leaf(alloc, ticket, leaf),
            Expansion::Fork(nodes) => self.branch(alloc, ticket, nodes, None),
            Expansion::Await(nodes, rest) => self.branch(alloc, ticket, nodes, Some(rest)),
        }
    }

    /// Keeps the answer for a task that is out. Want of memory gives the task up.
    pub fn post(
        &mut self,
        alloc: Global,
        ticket: u64,
        made: Expansion<N, L, R>,
    ) -> Result<Posted, AllocError>
        requires { HasNodes made }
        ensures answer { PostsAt self.old ticket made result self.new }
        ensures stands { (tree : Answers N L R) (root : N) → Stands tree root self.old → IsAnswer tree self.old ticket made → Stands tree root self.new }
    {
        let at = ticket as usize;
        if !is_out(self.records.as_slice(), at) {
            return Ok(Posted::Stray);
        }
        match self.keep(alloc, at, made) {
            Ok(()) => Ok(Posted::Kept),
            Err(error) => {
                let _given_up = self.refuse(ticket);
                Err(error)
            }
        }
    }
}

/// Whether the task was neither posted nor is over.
fn is_unposted<N: Drop, L: Drop, R: Drop>(records: &[Record<N, L, R>], ticket: usize) -> bool {
    match records.get(ticket) {
        Some(record) => matches!(record.stage, Stage::Open(_) | Stage::Out | Stage::Refused),
        None => false,
    }
}

/// Brings leaves to the homes above, and evaluates the awaits that are complete by them.
/// Answers how many leaves lie in slots at most.
fn bring_up<T: Tree>(
    alloc: Global,
    tree: &T,
    records: &mut Vec<Record<T::Node, T::Leaf, T::Rest>>,
    value: &mut Option<Evaluation<T::Leaf>>,
    ticket: usize,
    worth: Evaluation<T::Leaf>,
    held: usize,
) -> Result<usize, AllocError>
    requires within { ticket < length records.old.items }
    requires brings { BringsFor (T.meaning tree.now) records.old.items value.old held ticket worth }
    ensures works { IfOk result (λ left. works_of records.new.items ≡ works_of records.old.items) }
    ensures len { IfOk result (λ left. length records.new.items ≡ length records.old.items) }
    ensures holds { IfOk result (λ left. HoldsFor (T.meaning tree.now) records.new.items value.new left) }
{
    let mut at = ticket;
    let mut worth = worth;
    let mut held = held;
    'up: loop {
        let Some(more) = held.checked_add(worth.leaves.len()) else {
            return Err(AllocError);
        };
        let load = Load::of_leaves(alloc, worth.leaves, worth.tasks, held)?;
        held = more;
        match settle(alloc, records, value, at, load) {
            None => return Ok(held),
            Some(made) => {
                let answer = tree.resume(alloc, &made.rest, made.lists.as_slice())?;
                let all = evaluate_answer(alloc, tree, answer)?;
                let before = after_at(records.as_slice(), made.ticket, made.tasks);
                let with_rest = before.saturating_add(1);
                let tasks = with_rest.saturating_add(all.tasks);
                at = made.ticket;
                worth = Evaluation {
                    leaves: all.leaves,
                    tasks,
                };
            }
        }
    }
}

/// The leaves of the board's root and the number of its tasks, or 2^64 - 1 where that is greater.
/// Evaluates what isn't posted, the last ticket first.
pub fn finish<T: Tree>(
    alloc: Global,
    board: Board<T::Node, T::Leaf, T::Rest>,
    tree: &T,
) -> Result<(Vec<T::Leaf>, u64), AllocError>
    requires { StandsFor (T.meaning tree.now) board }
    ensures { IfOk result (λ done. IsRootWorth (T.meaning tree.now).answers board done.0.items done.1) }
{
    let Board {
        records,
        handed: _,
        out: _,
        refused: _,
        value,
        leaves,
    } = board;
    let mut records = records;
    let mut value = value;
    let mut held = leaves;
    let mut at = records.len();
    while at > 0 {
        at -= 1;
        if is_unposted(records.as_slice(), at) {
            let answer = perform(alloc, tree, records[at].work.get())?;
            let all = evaluate_answer(alloc, tree, answer)?;
            put_stage(&mut records, at, Stage::Over);
            let tasks = after_at(records.as_slice(), at, all.tasks);
            let worth = Evaluation {
                leaves: all.leaves,
                tasks,
            };
            held = bring_up(alloc, tree, &mut records, &mut value, at, worth, held)?;
        }
    }
    match value {
        Some(value) => Ok((value.leaves.into_vec(), value.tasks)),
        None => Err(AllocError),
    }
}
