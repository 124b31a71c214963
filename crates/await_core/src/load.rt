ghost use Rattle.std.specs.Prelude.{◌≡◌, ℕ, ◌+◌, ◌-◌, ◌^◌, ◌<◌, ◌≤◌, min, [], ◌∷◌, ◌++◌, length, IfOk};
ghost use Rattle.await_core.specs.Slots.{capped};
ghost use Rattle.await_core.specs.Load.{worth_of};

use crate::evaluation::Evaluation;
use plain_list::Sequence;
use std::alloc::{AllocError, Global};
use std::marker::Model;

/// What a task is worth on its way up, with room for the leaves that come before and behind it.
/// The leaves are those of `front`, the last first, and then those of `back`.
#[derive(Drop)]
pub struct Load<L> {
    front: Vec<L>,
    back: Vec<L>,
    tasks: u64,
    room: usize,
}

impl<L> Model for Load<L> {
    ghost use Rattle.await_core.specs.Load.{LoadState};

    ghost Value = { LoadState L };

    ghost use Rattle.std.specs.Prelude.{◌+◌, ◌≤◌, ◌++◌, reverse, vec_len, vec_capacity};

    ghost view = { λ l. record { leaves = reverse l.front.items ++ l.back.items; tasks = l.tasks; room = l.room } };

    ghost invariant = { λ l. (vec_len l.front + vec_len l.back + l.room ≤ vec_capacity l.front) × (vec_len l.back + l.room ≤ vec_capacity l.back) };
}

impl<L: Drop> Load<L> {
    /// One leaf, and room for so many more.
    pub fn of_leaf(alloc: Global, leaf: L, tasks: u64, room: usize) -> Result<Load<L>, AllocError>
        ensures leaves { IfOk result (λ load. load.leaves ≡ leaf ∷ []) }
        ensures tasks { IfOk result (λ load. load.tasks ≡ tasks) }
        ensures room { IfOk result (λ load. load.room ≡ room) }
    {
        let mut back = Vec::new(alloc);
        back.push(leaf)?;
        Load::of_leaves(alloc, Sequence::from_vec(back), tasks, room)
    }

    /// These leaves, and room for so many more.
    pub fn of_leaves(
        alloc: Global,
        leaves: Sequence<L>,
        tasks: u64,
        room: usize,
    ) -> Result<Load<L>, AllocError>
        ensures leaves { IfOk result (λ load. load.leaves ≡ leaves) }
        ensures tasks { IfOk result (λ load. load.tasks ≡ tasks) }
        ensures room { IfOk result (λ load. load.room ≡ room) }
    {
        let mut back = leaves.into_vec();
        back.reserve(room)?;
        let Some(all) = back.len().checked_add(room) else {
            return Err(AllocError);
        };
        let front = Vec::with_capacity(alloc, all)?;
        Ok(Load {
            front,
            back,
            tasks,
            room,
        })
    }

    pub fn tasks(&self) -> u64
        ensures { result ≡ self.now.tasks }
    {
        self.tasks
    }

    /// Puts a list behind the leaves.
    pub fn put_behind(&mut self, list: Sequence<L>)
        requires { length list ≤ self.old.room }
        ensures leaves { self.new.leaves ≡ self.old.leaves ++ list }
        ensures tasks { self.new.tasks ≡ self.old.tasks }
        ensures room { self.new.room + length list ≡ self.old.room }
    {
        let mut list = list.into_vec();
        let count = list.len();
        let put = self.back.append(&mut list);
        prove!(put.is_ok());
        self.room -= count;
    }

    /// Puts a list before the leaves.
    pub fn put_before(&mut self, list: Sequence<L>)
        requires { length list ≤ self.old.room }
        ensures leaves { self.new.leaves ≡ list ++ self.old.leaves }
        ensures tasks { self.new.tasks ≡ self.old.tasks }
        ensures room { self.new.room + length list ≡ self.old.room }
    {
        let mut list = list.into_vec();
        let count = list.len();
        list.reverse();
        let put = self.front.append(&mut list);
        prove!(put.is_ok());
        self.room -= count;
    }

    /// Takes another number of tasks.
    pub fn count(&mut self, tasks: u64)
        ensures leaves { self.new.leaves ≡ self.old.leaves }
        ensures tasks { self.new.tasks ≡ tasks }
        ensures room { self.new.room ≡ self.old.room }
    {
        self.tasks = tasks;
    }

    /// The leaves with their number of tasks. It takes no memory.
    pub fn into_evaluation(self) -> Evaluation<L>
        ensures { result ≡ worth_of self }
    {
        let Load {
            mut front,
            mut back,
            tasks,
            room: _,
        } = self;
        front.reverse();
        let put = front.append(&mut back);
        prove!(put.is_ok());
        Evaluation {
            leaves: Sequence::from_vec(front),
            tasks,
        }
    }
}
