//! The frames below the newest one, which forks share.
ghost use Rattle.std.specs.Prelude.{◌≡◌, ◌↔◌, ◌∷◌, [], IsTrue, IfOk, MatchOption};
ghost use Rattle.sym_states.specs.Shown.{frames_of};

use crate::Frame;
use places::Home;
use std::alloc::{AllocError, Global};
use std::marker::Model;
use std::sync::Arc;

/// The frames that called the newest one, the newest first. A copy shares them all by a count.
#[cycle(callers)]
#[derive(Drop)]
pub struct Callers<H: Home> {
    link: Arc<Link<H>, Global>,
}

#[cycle(callers)]
pub(crate) enum Link<H: Home> {
    First,
    Above(Frame<H>, Callers<H>),
}

// One link at a time, so that many calls take no deep stack.
impl<H: Home> Drop for Link<H> {
    fn drop(mut self) {
        loop {
            match self {
                Link::First => return,
                Link::Above(_, older) => {
                    let Callers { link } = older;
                    match Arc::into_inner(link) {
                        None => return,
                        Some(inside) => self = inside,
                    }
                }
            }
        }
    }
}

impl<H: Home> Link<H> {
    fn split(self) -> Option<(Frame<H>, Callers<H>)>
        ensures { MatchOption result (frames_of self ≡ []) (λ p. frames_of self ≡ p.0 ∷ p.1) }
    {
        match self {
            Link::First => None,
            Link::Above(frame, older) => Some((frame, older)),
        }
    }
}

impl<H: Home> Model for Callers<H> {
    ghost use Rattle.std.specs.Prelude.{◌≡◌, List, length};
    ghost use Rattle.std.specs.Coded.{codes};
    ghost use Rattle.terms.specs.Codes.{coded_tree};
    ghost use Rattle.sym_states.specs.States.{Frame};

    ghost Value = { List Frame };

    ghost coded = { Prim.hlevel (codes, coded_tree) };

    ghost use Rattle.sym_states.specs.Shown.{frames_of};

    ghost view = { λ c. frames_of c.link.value };

    ghost size = { length };

    ghost use Rattle.std.proofs.Common.{arith};

    ghost size_decreases = { λ a h. Prim.grind arith };
}

impl<H: Home> Callers<H> {
    /// No frames.
    pub fn new(alloc: Global) -> Result<Callers<H>, AllocError>
        ensures { IfOk result (λ c. c ≡ []) }
    {
        Ok(Callers {
            link: Arc::new(alloc, Link::First)?,
        })
    }

    /// One more owner of the same frames: a count, and no copy.
    pub fn copy(&self) -> Result<Callers<H>, AllocError>
        ensures { IfOk result (λ c. c ≡ self.now) }
    {
        Ok(Callers {
            link: Arc::try_clone(&self.link)?,
        })
    }

    /// The frames with a newer one.
    pub fn with(&self, alloc: Global, frame: Frame<H>) -> Result<Callers<H>, AllocError>
        ensures { IfOk result (λ c. c ≡ frame ∷ self.now) }
    {
        let older = self.copy()?;
        Ok(Callers {
            link: Arc::new(alloc, Link::Above(frame, older))?,
        })
    }

    /// The newest frame, and those below it. The frame is copied where others share it.
    pub fn split(self, alloc: Global) -> Result<Option<(Frame<H>, Callers<H>)>, AllocError>
        ensures { IfOk result (λ o. MatchOption o (self ≡ []) (λ p. self ≡ p.0 ∷ p.1)) }
    {
        let Callers { link } = self;
        match Arc::try_unwrap(link) {
            Ok(owned) => Ok(owned.split()),
            Err(shared) => copied(alloc, &shared),
        }
    }

    /// Whether there are none.
    pub fn is_empty(&self) -> bool
        ensures { IsTrue result ↔ (self.now ≡ []) }
    {
        match &*self.link {
            Link::First => true,
            Link::Above(_, _) => false,
        }
    }
}

fn copied<H: Home>(
    alloc: Global,
    link: &Link<H>,
) -> Result<Option<(Frame<H>, Callers<H>)>, AllocError>
    ensures { IfOk result (λ o. MatchOption o (frames_of link.now ≡ []) (λ p. frames_of link.now ≡ p.0 ∷ p.1)) }
{
    match link {
        Link::First => Ok(None),
        Link::Above(frame, older) => Ok(Some((frame.copy(alloc)?, older.copy()?))),
    }
}
