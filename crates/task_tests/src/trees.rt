//! A small tree.
ghost use Rattle.task_tests.specs.Trees.{stairs_meaning, stairs_lawful};

use await_core::expansion::Expansion;
use await_core::tree::Tree;
use plain_list::Sequence;
use std::alloc::{AllocError, Global};
use std::sync::atomic::{AtomicU64, Ordering};

/// Node 0 forks into the leaves 1 and 2, and node 3 awaits 1 and 2 with a rest that forks into the leaves 4 and 5.
/// Counts what it was asked.
#[derive(Drop)]
pub struct Stairs {
    pub asked: AtomicU64,
}

impl Tree for Stairs {
    type Node = u8;

    type Leaf = u8;

    type Rest = u8;

    ghost meaning = { λ tree. stairs_meaning };

    ghost laws = { λ tree. stairs_lawful };

    fn expand(&self, alloc: Global, node: &u8) -> Result<Expansion<u8, u8, u8>, AllocError> {
        self.asked.fetch_add(1, Ordering::SeqCst);
        if *node == 0 {
            let mut nodes = Sequence::of_one(alloc, 1)?;
            nodes.push(2)?;
            return Ok(Expansion::Fork(nodes));
        }
        if *node == 3 {
            let mut nodes = Sequence::of_one(alloc, 1)?;
            nodes.push(2)?;
            return Ok(Expansion::Await(nodes, 4));
        }
        Ok(Expansion::Leaf(*node))
    }

    fn resume(
        &self,
        alloc: Global,
        rest: &u8,
        _results: &[Sequence<u8>],
    ) -> Result<Expansion<u8, u8, u8>, AllocError> {
        self.asked.fetch_add(1, Ordering::SeqCst);
        let mut nodes = Sequence::of_one(alloc, *rest)?;
        nodes.push(5)?;
        Ok(Expansion::Fork(nodes))
    }
}
