ghost use Rattle.std.specs.Prelude.{◌≡◌, ℕ, ◌+◌, ◌-◌, ◌^◌, ◌<◌, ◌≤◌, ◌↔◌, min, length, slice_get, slice_set, Option, Some, None, IsTrue, vec_capacity};
ghost use Rattle.await_core.specs.declared.evaluation.Evaluation.{Evaluation};
ghost use Rattle.await_core.specs.declared.record.Record.{Record};
ghost use Rattle.await_core.specs.Slots.{IsFull, held_in};
ghost use Rattle.await_core.specs.Load.{worth_of};
ghost use Rattle.await_core.specs.Boards.{HomesBelow, stage_at, set_stage, slots_of};
ghost use Rattle.await_core.specs.Rising.{Rises};
ghost use Rattle.await_core.specs.Steps.{Arrives, Completes, HasRoom, StepsTo};

use crate::evaluation::{Evaluation, Evaluations};
use crate::load::Load;
use crate::record::{Home, Record, Resumption, Stage};
use crate::slots::Slots;
use plain_list::Sequence;
use std::alloc::Global;
use std::mem;

/// Changes the stage of a task, and gives back its old one.
pub fn change_stage<N: Drop, L: Drop, R: Drop>(
    records: &mut Vec<Record<N, L, R>>,
    at: usize,
    stage: Stage<N, L, R>,
) -> Stage<N, L, R>
    requires { at < length records.old.items }
    ensures before { stage_at records.old.items at ≡ Some result }
    ensures after { records.new.items ≡ set_stage records.old.items at stage }
    ensures capacity { vec_capacity records.new ≡ vec_capacity records.old }
{
    let record = &mut records[at];
    mem::replace(&mut record.stage, stage)
}

/// Changes the stage of a task.
pub fn put_stage<N: Drop, L: Drop, R: Drop>(
    records: &mut Vec<Record<N, L, R>>,
    at: usize,
    stage: Stage<N, L, R>,
)
    requires { at < length records.old.items }
    ensures after { records.new.items ≡ set_stage records.old.items at stage }
    ensures capacity { vec_capacity records.new ≡ vec_capacity records.old }
{
    let _ = change_stage(records, at, stage);
}

/// The home of the task.
pub fn home_at<N: Drop, L: Drop, R: Drop>(
    records: &[Record<N, L, R>],
    ticket: usize,
) -> Option<Home>
    requires { ticket < length records.now }
    ensures { (r : Record N L R) → slice_get records.now ticket ≡ Some r → result ≡ r.home }
{
    records[ticket].home
}

/// How many tasks were done for the task's home before it.
pub fn before_at<N: Drop, L: Drop, R: Drop>(records: &[Record<N, L, R>], ticket: usize) -> u64
    requires { ticket < length records.now }
    ensures { (r : Record N L R) → slice_get records.now ticket ≡ Some r → result ≡ r.before }
{
    records[ticket].before
}

/// What a load makes of the stage at its home.
#[derive(Drop)]
pub enum Arrived<N, L, R> {
    Stays(Stage<N, L, R>),
    Joined(Load<L>),
    Complete(R, Evaluations<L>),
}

fn arrive_at_fork<N: Drop, L: Drop, R: Drop>(
    alloc: Global,
    slots: Slots<L>,
    place: usize,
    load: Load<L>,
) -> Arrived<N, L, R>
    requires { slice_get slots place ≡ Some None → IsFull (slice_set slots place (Some (worth_of load))) → held_in slots ≤ load.room }
    ensures { Arrives (Stage.Forked slots) place load result }
{
    if !slots.is_empty_at(place) {
        return Arrived::Stays(Stage::Forked(slots));
    }
    if slots.fills(place) {
        return Arrived::Joined(slots.surround(alloc, place, load));
    }
    let mut slots = slots;
    slots.put(place, load.into_evaluation());
    Arrived::Stays(Stage::Forked(slots))
}

fn arrive_at_await<N: Drop, L: Drop, R: Drop>(
    slots: Slots<L>,
    rest: R,
    place: usize,
    load: Load<L>,
) -> Arrived<N, L, R>
    ensures { Arrives (Stage.Waiting slots rest) place load result }
{
    if !slots.is_empty_at(place) {
        return Arrived::Stays(Stage::Waiting(slots, rest));
    }
    let full = slots.fills(place);
    let mut slots = slots;
    slots.put(place, load.into_evaluation());
    if full {
        return Arrived::Complete(rest, slots.into_lists());
    }
    Arrived::Stays(Stage::Waiting(slots, rest))
}

fn arrive<N: Drop, L: Drop, R: Drop>(
    alloc: Global,
    stage: Stage<N, L, R>,
    place: usize,
    load: Load<L>,
) -> Arrived<N, L, R>
    requires { slice_get (slots_of stage) place ≡ Some None → IsFull (slice_set (slots_of stage) place (Some (worth_of load))) → held_in (slots_of stage) ≤ load.room }
    ensures { Arrives stage place load result }
{
    match stage {
        Stage::Forked(slots) => arrive_at_fork(alloc, slots, place, load),
        Stage::Waiting(slots, rest) => arrive_at_await(slots, rest, place, load),
        other => Arrived::Stays(other),
    }
}

/// What a step upwards came to.
#[derive(Drop)]
pub enum Risen<L, R> {
    Settled,
    Goes(usize, Load<L>),
    Ready(Resumption<L, R>),
}

/// The load with the tasks before it, its own and those of its lists.
fn whole<L: Drop>(all: Load<L>, before: u64) -> Load<L>
    ensures leaves { result.leaves ≡ all.leaves }
    ensures room { result.room ≡ all.room }
    ensures tasks { result.tasks ≡ min (min (before + 1) (2 ^ 64 - 1) + all.tasks) (2 ^ 64 - 1) }
{
    let mut all = all;
    let tasks = before.saturating_add(1).saturating_add(all.tasks());
    all.count(tasks);
    all
}

/// Brings what a task is worth to its home.
fn rise<N: Drop, L: Drop, R: Drop>(
    alloc: Global,
    records: &mut Vec<Record<N, L, R>>,
    value: &mut Option<Evaluation<L>>,
    ticket: usize,
    load: Load<L>,
) -> Risen<L, R>
    requires within { ticket < length records.old.items }
    requires homes { HomesBelow 0 records.old.items }
    requires room { HasRoom records.old.items ticket load.room }
    ensures step { StepsTo records.old.items value.old ticket load result records.new.items value.new }
    ensures capacity { vec_capacity records.new ≡ vec_capacity records.old }
{
    match home_at(records.as_slice(), ticket) {
        None => {
            *value = Some(load.into_evaluation());
            Risen::Settled
        }
        Some(home) => {
            let stage = change_stage(records, home.ticket, Stage::Over);
            match arrive(alloc, stage, home.place, load) {
                Arrived::Stays(stage) => {
                    put_stage(records, home.ticket, stage);
                    Risen::Settled
                }
                Arrived::Joined(all) => {
                    let before = before_at(records.as_slice(), home.ticket);
                    Risen::Goes(home.ticket, whole(all, before))
                }
                Arrived::Complete(rest, each) => Risen::Ready(Resumption {
                    ticket: home.ticket,
                    rest,
                    lists: each.lists,
                    tasks: each.tasks,
                }),
            }
        }
    }
}

/// Brings what a task is worth to its home, and what that completes to the homes above.
/// Answers the await that is complete by it. It takes no memory.
pub fn settle<N: Drop, L: Drop, R: Drop>(
    alloc: Global,
    records: &mut Vec<Record<N, L, R>>,
    value: &mut Option<Evaluation<L>>,
    ticket: usize,
    load: Load<L>,
) -> Option<Resumption<L, R>>
    requires within { ticket < length records.old.items }
    requires homes { HomesBelow 0 records.old.items }
    requires room { HasRoom records.old.items ticket load.room }
    ensures rises { Rises records.old.items value.old ticket (worth_of load) records.new.items value.new result }
    ensures capacity { vec_capacity records.new ≡ vec_capacity records.old }
{
    let mut at = ticket;
    let mut load = load;
    'up: loop {
        match rise(alloc, records, value, at, load) {
            Risen::Settled => return None,
            Risen::Ready(made) => return Some(made),
            Risen::Goes(up, next) => {
                at = up;
                load = next;
            }
        }
    }
}

/// Whether the task's worth completes its home.
pub fn completes<N: Drop, L: Drop, R: Drop>(records: &[Record<N, L, R>], ticket: usize) -> bool
    requires { ticket < length records.now }
    ensures { Completes records.now ticket → IsTrue result }
{
    let Some(home) = home_at(records, ticket) else {
        return false;
    };
    match records.get(home.ticket) {
        Some(above) => may_complete(&above.stage, home.place),
        None => false,
    }
}

/// Whether a list at the place completes the stage.
fn may_complete<N: Drop, L: Drop, R: Drop>(stage: &Stage<N, L, R>, place: usize) -> bool
    ensures { (worth : Evaluation L) → slice_get (slots_of stage.now) place ≡ Some None → IsFull (slice_set (slots_of stage.now) place (Some worth)) → IsTrue result }
{
    match stage {
        Stage::Forked(slots) => slots.is_empty_at(place) && slots.fills(place),
        Stage::Waiting(slots, _) => slots.is_empty_at(place) && slots.fills(place),
        _ => false,
    }
}
