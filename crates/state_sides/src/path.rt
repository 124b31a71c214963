//! The branches and loads of a path, which forks share.
ghost use Rattle.std.specs.Prelude.{◌≡◌, ◌++◌, ◌∷◌, [], reverse, IfOk, MatchOption};
ghost use Rattle.state_sides.specs.Paths.{events_of};

use leaves::Event;
use places::Home;
use plain_list::Sequence;
use std::alloc::{AllocError, Global};
use std::marker::Model;
use std::sync::Arc;

/// Branches and loads, the oldest first. A copy shares them all by a count.
#[cycle(path)]
#[derive(Drop)]
pub struct Path<H: Home> {
    link: Arc<Link<H>, Global>,
}

#[cycle(path)]
pub(crate) enum Link<H: Home> {
    First,
    Behind(Path<H>, Event<H>),
}

// One link at a time, so that a long path takes no deep stack.
impl<H: Home> Drop for Link<H> {
    fn drop(mut self) {
        loop {
            match self {
                Link::First => return,
                Link::Behind(older, _) => {
                    let Path { link } = older;
                    match Arc::into_inner(link) {
                        None => return,
                        Some(inside) => self = inside,
                    }
                }
            }
        }
    }
}

impl<H: Home> Model for Path<H> {
    ghost use Rattle.std.specs.Prelude.{◌≡◌, List, length};
    ghost use Rattle.std.specs.Coded.{codes};
    ghost use Rattle.terms.specs.Codes.{coded_tree};
    ghost use Rattle.leaves.specs.Events.{Event};

    ghost Value = { List Event };

    ghost coded = { Prim.hlevel (codes, coded_tree) };

    ghost use Rattle.state_sides.specs.Paths.{events_of};

    ghost view = { λ p. events_of p.link.value };

    ghost size = { length };

    ghost use Rattle.std.proofs.Common.{arith};
    ghost use Rattle.std.proofs.lemmas.List.{length_push};

    ghost size_decreases = { λ a h. Prim.grind (arith, length_push) };
}

impl<H: Home> Path<H> {
    /// No events.
    pub fn new(alloc: Global) -> Result<Path<H>, AllocError>
        ensures { IfOk result (λ p. p ≡ []) }
    {
        Ok(Path {
            link: Arc::new(alloc, Link::First)?,
        })
    }

    /// One more owner of the same events: a count, and no copy.
    pub fn copy(&self) -> Result<Path<H>, AllocError>
        ensures { IfOk result (λ p. p ≡ self.now) }
    {
        Ok(Path {
            link: Arc::try_clone(&self.link)?,
        })
    }

    /// The events with a newer one.
    pub fn with(&self, alloc: Global, event: Event<H>) -> Result<Path<H>, AllocError>
        ensures { IfOk result (λ p. p ≡ self.now ++ event ∷ []) }
    {
        let older = self.copy()?;
        Ok(Path {
            link: Arc::new(alloc, Link::Behind(older, event))?,
        })
    }

    fn newest(&self) -> Option<(&Path<H>, &Event<H>)>
        ensures { MatchOption result (self.now ≡ []) (λ p. self.now ≡ p.0.now ++ p.1.now ∷ []) }
    {
        match &*self.link {
            Link::First => None,
            Link::Behind(older, event) => Some((older, event)),
        }
    }

    // The events, the newest first.
    fn backwards(&self, alloc: Global) -> Result<Vec<Event<H>>, AllocError>
        ensures { IfOk result (λ list. list.items ≡ reverse self.now) }
    {
        let mut list = Vec::new(alloc);
        let mut left = self;
        'links: while let Some((older, event)) = left.newest() {
            list.push(event.copy()?)?;
            left = older;
        }
        Ok(list)
    }

    /// The events as a list, the oldest first.
    pub fn to_list(&self, alloc: Global) -> Result<Sequence<Event<H>>, AllocError>
        ensures { IfOk result (λ list. list ≡ self.now) }
    {
        let mut list = Sequence::new(alloc);
        let mut left = self.backwards(alloc)?;
        'events: while let Some(event) = left.pop() {
            list.push(event)?;
        }
        Ok(list)
    }
}
