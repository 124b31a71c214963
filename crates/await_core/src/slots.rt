ghost use Rattle.std.specs.Prelude.{◌≡◌, ◌+◌, ◌-◌, ◌^◌, ◌<◌, ◌≤◌, ◌↔◌, min, ℕ, [], ◌∷◌, ◌++◌, length, take, drop, slice_get, slice_set, Some, None, IsTrue, IfOk, OnErr, IsSomeAnd, vec_len};
ghost use Rattle.await_core.specs.Meaning.{joined};
ghost use Rattle.await_core.specs.Slots.{IsFull, lists_in, tasks_in, capped, held_in, no_lists, task_sum};
ghost use Rattle.await_core.specs.Load.{worth_of};
ghost use Rattle.await_core.specs.declared.evaluation.Evaluation.{Evaluation};

use crate::evaluation::{Evaluation, Evaluations};
use crate::load::Load;
use plain_list::Sequence;
use std::alloc::{AllocError, Global};
use std::marker::Model;
use std::mem;

/// The lists of the nodes of an answer, as far as they have come.
#[derive(Drop)]
pub struct Slots<L> {
    lists: Vec<Sequence<L>>,
    /// For each list that has come, the number of tasks that made it.
    tasks: Vec<Option<u64>>,
    /// How many haven't come.
    left: usize,
}

impl<L> Model for Slots<L> {
    ghost use Rattle.std.specs.Prelude.{List, Option};
    ghost use Rattle.await_core.specs.declared.evaluation.Evaluation.{Evaluation};

    ghost Value = { List (Option (Evaluation L)) };

    ghost use Rattle.std.specs.Prelude.{◌≡◌, length};
    ghost use Rattle.await_core.specs.Slots.{slots_view, empty_count};

    ghost view = { λ s. slots_view s.lists.items s.tasks.items };

    ghost invariant = { λ s. (length s.lists.items ≡ length s.tasks.items) × (s.left ≡ empty_count s.tasks.items) };
}

/// Takes the list at a place, and leaves an empty one there.
fn take_list<L: Drop>(alloc: Global, lists: &mut Vec<Sequence<L>>, at: usize) -> Sequence<L>
    requires { at < length lists.old.items }
    ensures list { slice_get lists.old.items at ≡ Some result }
    ensures after { lists.new.items ≡ slice_set lists.old.items at [] }
{
    mem::replace(&mut lists[at], Sequence::new(alloc))
}

/// Puts the lists from a place on behind the load.
fn add_behind<L: Drop>(alloc: Global, lists: &mut Vec<Sequence<L>>, from: usize, load: &mut Load<L>)
    requires { length (joined (drop from lists.old.items)) ≤ load.old.room }
    ensures leaves { load.new.leaves ≡ load.old.leaves ++ joined (drop from lists.old.items) }
    ensures tasks { load.new.tasks ≡ load.old.tasks }
    ensures room { load.new.room + length (joined (drop from lists.old.items)) ≡ load.old.room }
    ensures before { take from lists.new.items ≡ take from lists.old.items }
    ensures len { length lists.new.items ≡ length lists.old.items }
{
    let mut at = from;
    while at < lists.len() {
        let list = take_list(alloc, lists, at);
        load.put_behind(list);
        at += 1;
    }
}

/// Puts the lists up to a place before the load.
fn add_before<L: Drop>(alloc: Global, lists: &mut Vec<Sequence<L>>, to: usize, load: &mut Load<L>)
    requires within { to ≤ length lists.old.items }
    requires room { length (joined (take to lists.old.items)) ≤ load.old.room }
    ensures leaves { load.new.leaves ≡ joined (take to lists.old.items) ++ load.old.leaves }
    ensures tasks { load.new.tasks ≡ load.old.tasks }
    ensures room { load.new.room + length (joined (take to lists.old.items)) ≡ load.old.room }
{
    let mut at = to;
    while at > 0 {
        at -= 1;
        let list = take_list(alloc, lists, at);
        load.put_before(list);
    }
}

/// The sum of the numbers that are there, or 2^64 - 1 where it is greater.
fn sum_of(tasks: &[Option<u64>]) -> u64
    ensures { result ≡ capped (task_sum tasks.now) }
{
    let mut sum: u64 = 0;
    for count in tasks {
        sum = sum.saturating_add(count.unwrap_or(0));
    }
    sum
}

/// Whether there is such a place, and no number is there.
fn lacks(tasks: &[Option<u64>], place: usize) -> bool
    ensures { IsTrue result ↔ (slice_get tasks.now place ≡ Some None) }
{
    match tasks.get(place) {
        Some(count) => count.is_none(),
        None => false,
    }
}

impl<L: Drop> Slots<L> {
    /// So many slots, and no list has come.
    pub fn new(alloc: Global, count: usize) -> Result<Slots<L>, AllocError>
        ensures { IfOk result (λ slots. slots ≡ no_lists count) }
    {
        let mut lists = Vec::new(alloc);
        let mut tasks = Vec::new(alloc);
        for _slot in 0..count {
            lists.push(Sequence::new(alloc))?;
            tasks.push(None)?;
        }
        Ok(Slots {
            lists,
            tasks,
            left: count,
        })
    }

    /// Whether there is such a slot, and its list hasn't come.
    pub fn is_empty_at(&self, place: usize) -> bool
        ensures { IsTrue result ↔ (slice_get self.now place ≡ Some None) }
    {
        lacks(self.tasks.as_slice(), place)
    }

    /// Whether all lists are there once that of the place has come.
    pub fn fills(&self, place: usize) -> bool
        requires { slice_get self.now place ≡ Some None }
        ensures { (worth : Evaluation L) → IsTrue result ↔ IsFull (slice_set self.now place (Some worth)) }
    {
        let _tasks = &self.tasks;
        self.left == 1
    }

    /// Keeps the list of a place.
    pub fn put(&mut self, place: usize, worth: Evaluation<L>)
        requires { slice_get self.old place ≡ Some None }
        ensures { self.new ≡ slice_set self.old place (Some worth) }
    {
        self.left -= 1;
        self.lists[place] = worth.leaves;
        self.tasks[place] = Some(worth.tasks);
    }

    /// The lists, which are all there.
    pub fn into_lists(self) -> Evaluations<L>
        requires { IsFull self }
        ensures lists { result.lists ≡ lists_in self }
        ensures tasks { result.tasks ≡ capped (tasks_in self) }
    {
        let Slots {
            lists,
            tasks,
            left: _,
        } = self;
        let tasks = sum_of(tasks.as_slice());
        Evaluations {
            lists: Sequence::from_vec(lists),
            tasks,
        }
    }

    /// The lists in order, joined, where the load is the list of the place that is empty.
    pub fn surround(self, alloc: Global, place: usize, load: Load<L>) -> Load<L>
        requires empty { slice_get self place ≡ Some None }
        requires full { IsFull (slice_set self place (Some (worth_of load))) }
        requires room { held_in self ≤ load.room }
        ensures leaves { result.leaves ≡ joined (lists_in (slice_set self place (Some (worth_of load)))) }
        ensures tasks { result.tasks ≡ capped (tasks_in (slice_set self place (Some (worth_of load)))) }
        ensures room { result.room + held_in self ≡ load.room }
    {
        let Slots {
            mut lists,
            mut tasks,
            left: _,
        } = self;
        let mut load = load;
        tasks[place] = Some(load.tasks());
        load.count(sum_of(tasks.as_slice()));
        add_behind(alloc, &mut lists, place + 1, &mut load);
        add_before(alloc, &mut lists, place, &mut load);
        load
    }
}
