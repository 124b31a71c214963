//! A log as a list that shares what was written before.
ghost use Rattle.std.specs.Prelude.{◌≡◌, ◌∷◌, [], IfOk, MatchOption, length};

use crate::items::Item;
use places::Home;
use std::alloc::{AllocError, Global};
use std::marker::Model;
use std::sync::Arc;

/// The items of a log, the newest first. A copy shares them all by a count.
#[cycle(trail)]
#[derive(Drop)]
pub(crate) struct Trail<H: Home> {
    count: u64,
    node: Arc<Node<H>, Global>,
}

#[cycle(trail)]
pub(crate) enum Node<H: Home> {
    Start,
    Newest(Item<H>, Trail<H>),
}

// One link at a time, so that a long log takes no deep stack.
impl<H: Home> Drop for Node<H> {
    fn drop(mut self) {
        loop {
            match self {
                Node::Start => return,
                Node::Newest(_, older) => {
                    let Trail { count: _, node } = older;
                    match Arc::into_inner(node) {
                        None => return,
                        Some(inside) => self = inside,
                    }
                }
            }
        }
    }
}

impl<H: Home> Model for Trail<H> {
    ghost use Rattle.std.specs.Prelude.{◌≡◌, List, length};
    ghost use Rattle.std.specs.Coded.{codes};
    ghost use Rattle.terms.specs.Codes.{coded_tree};
    ghost use Rattle.log_laws.specs.Logs.{Log};

    ghost Value = { Log };

    ghost coded = { Prim.hlevel (codes, coded_tree) };

    ghost use Rattle.write_log.specs.Links.{log_of};

    ghost view = { λ t. log_of t.node.value };

    ghost invariant = { λ t. t.count ≡ length (log_of t.node.value) };

    ghost size = { length };

    ghost use Rattle.std.proofs.Common.{arith};

    ghost size_decreases = { λ a h. Prim.grind arith };
}

impl<H: Home> Trail<H> {
    pub(crate) fn new(alloc: Global) -> Result<Trail<H>, AllocError>
        ensures { IfOk result (λ t. t ≡ []) }
    {
        Ok(Trail {
            count: 0,
            node: Arc::new(alloc, Node::Start)?,
        })
    }

    pub(crate) fn len(&self) -> u64
        ensures { result ≡ length self.now }
    {
        self.count
    }

    /// One more owner of the same items: a count, and no copy.
    pub(crate) fn copy(&self) -> Result<Trail<H>, AllocError>
        ensures { IfOk result (λ t. t ≡ self.now) }
    {
        Ok(Trail {
            count: self.count,
            node: Arc::try_clone(&self.node)?,
        })
    }

    /// The items with one more.
    pub(crate) fn with(&self, alloc: Global, item: Item<H>) -> Result<Trail<H>, AllocError>
        ensures { IfOk result (λ t. t ≡ item ∷ self.now) }
    {
        let older = self.copy()?;
        let count = self.count;
        if count == u64::MAX {
            return Err(AllocError);
        }
        Ok(Trail {
            count: count + 1,
            node: Arc::new(alloc, Node::Newest(item, older))?,
        })
    }

    /// The newest item, and those before it.
    pub(crate) fn newest(&self) -> Option<(&Item<H>, &Trail<H>)>
        ensures { MatchOption result (self.now ≡ []) (λ p. self.now ≡ p.0.now ∷ p.1.now) }
    {
        match &*self.node {
            Node::Start => None,
            Node::Newest(item, older) => Some((item, older)),
        }
    }
}
