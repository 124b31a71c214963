//! A list that shares its tail.
ghost use Rattle.std.specs.Prelude.{◌≡◌, ◌↔◌, ◌∷◌, [], IsTrue, IfOk, IfErr, MatchOption};
ghost use Rattle.plain_list.specs.Links.{items_of};

use std::alloc::{AllocError, Global};
use std::marker::Model;
use std::sync::Arc;

/// A list, the newest element first. A copy shares every element by a count, and so does a list with one more.
#[cycle(shared)]
#[derive(Drop)]
pub struct Shared<T> {
    link: Arc<Link<T>, Global>,
}

#[cycle(shared)]
pub(crate) enum Link<T> {
    Start,
    Newest(T, Shared<T>),
}

// One link at a time, so that a long list takes no deep stack.
impl<T: Drop> Drop for Link<T> {
    fn drop(mut self) {
        loop {
            match self {
                Link::Start => return,
                Link::Newest(_, older) => {
                    let Shared { link } = older;
                    match Arc::into_inner(link) {
                        None => return,
                        Some(inside) => self = inside,
                    }
                }
            }
        }
    }
}

impl<T: Drop> Link<T> {
    fn split(self) -> Option<(T, Shared<T>)>
        ensures { MatchOption result (items_of self ≡ []) (λ p. items_of self ≡ p.0 ∷ p.1) }
    {
        match self {
            Link::Start => None,
            Link::Newest(item, older) => Some((item, older)),
        }
    }
}

impl<T> Model for Shared<T> {
    ghost use Rattle.std.specs.Prelude.{◌≡◌, List, length};
    ghost use Rattle.std.specs.Coded.{coded_list};

    ghost Value = { List T };

    ghost coded = { coded_list T.code };

    ghost use Rattle.plain_list.specs.Links.{items_of};

    ghost view = { λ s. items_of s.link.value };

    ghost size = { length };

    ghost use Rattle.std.proofs.Common.{arith};

    ghost size_decreases = { λ a h. Prim.grind arith };
}

impl<T: Drop> Shared<T> {
    /// The empty list.
    pub fn new(alloc: Global) -> Result<Shared<T>, AllocError>
        ensures { IfOk result (λ s. s ≡ []) }
    {
        Ok(Shared {
            link: Arc::new(alloc, Link::Start)?,
        })
    }

    /// One more owner of the same elements: a count, and no copy.
    pub fn copy(&self) -> Result<Shared<T>, AllocError>
        ensures { IfOk result (λ s. s ≡ self.now) }
    {
        Ok(Shared {
            link: Arc::try_clone(&self.link)?,
        })
    }

    /// The elements with a newer one.
    pub fn with(self, alloc: Global, item: T) -> Result<Shared<T>, AllocError>
        ensures { IfOk result (λ s. s ≡ item ∷ self) }
    {
        Ok(Shared {
            link: Arc::new(alloc, Link::Newest(item, self))?,
        })
    }

    /// The newest element, and those before it.
    pub fn newest(&self) -> Option<(&T, &Shared<T>)>
        ensures { MatchOption result (self.now ≡ []) (λ p. self.now ≡ p.0.now ∷ p.1.now) }
    {
        match &*self.link {
            Link::Start => None,
            Link::Newest(item, older) => Some((item, older)),
        }
    }

    /// The newest element and those before it, where no other list shares them; else the list again.
    pub fn split(self) -> Result<Option<(T, Shared<T>)>, Shared<T>>
        ensures ok { IfOk result (λ o. MatchOption o (self ≡ []) (λ p. self ≡ p.0 ∷ p.1)) }
        ensures err { IfErr result (λ s. s ≡ self) }
    {
        let Shared { link } = self;
        match Arc::try_unwrap(link) {
            Ok(owned) => Ok(owned.split()),
            Err(link) => Err(Shared { link }),
        }
    }

    pub fn is_empty(&self) -> bool
        ensures { IsTrue result ↔ (self.now ≡ []) }
    {
        match &*self.link {
            Link::Start => true,
            Link::Newest(_, _) => false,
        }
    }
}
