//! A list in plain data: what a type holds that contracts compare as a whole.
#![tactic(auto)]

ghost use Rattle.std.specs.Prelude.{◌≡◌, ◌↔◌, ◌<◌, [], ◌∷◌, ◌++◌, length, slice_get, slice_set, IsTrue, IfOk, OnOk, OnErr, OnSome, MatchOption};
ghost use Rattle.std.specs.Option.{option_copied};

mod shared;

pub use shared::Shared;
use std::alloc::{AllocError, Global};
use std::marker::Model;

/// A `Vec` that contracts see as the list of its elements: a value is equal to its copy,
/// whatever their capacities.
#[derive(Drop)]
pub struct Sequence<T> {
    items: Vec<T>,
}

impl<T> Model for Sequence<T> {
    ghost use Rattle.std.specs.Prelude.{List};
    ghost use Rattle.std.specs.Coded.{coded_list};

    ghost Value = { List T };

    ghost coded = { coded_list T.code };

    ghost view = { λ s. s.items.items };
}

impl<T> Sequence<T> {
    /// The empty list. It takes no memory.
    pub fn new(alloc: Global) -> Sequence<T>
        ensures { result ≡ [] }
    {
        Sequence {
            items: Vec::new(alloc),
        }
    }

    /// The elements of a `Vec`. It takes no memory.
    pub fn from_vec(items: Vec<T>) -> Sequence<T>
        ensures { result ≡ items.items }
    {
        Sequence { items }
    }

    /// The elements as a `Vec` again. It takes no memory.
    pub fn into_vec(self) -> Vec<T>
        ensures { result.items ≡ self }
    {
        let Sequence { items } = self;
        items
    }

    pub fn as_slice(&self) -> &[T]
        ensures { result.now ≡ self.now }
    {
        self.items.as_slice()
    }

    pub fn len(&self) -> usize
        ensures { result ≡ length self.now }
    {
        self.items.len()
    }

    pub fn is_empty(&self) -> bool
        ensures { IsTrue result ↔ (self.now ≡ []) }
    {
        self.items.is_empty()
    }

    pub fn get(&self, at: usize) -> Option<&T>
        ensures value { option_copied result ≡ slice_get self.now at }
        ensures within { OnSome result (at < length self.now) }
    {
        self.items.get(at)
    }

    /// Takes the last element off.
    pub fn pop(&mut self) -> Option<T>
        ensures { MatchOption result ((self.old ≡ []) × (self.new ≡ [])) (λ last. self.old ≡ self.new ++ last ∷ []) }
    {
        self.items.pop()
    }
}

impl<T: Copy> Sequence<T> {
    /// The list with the elements of a slice.
    pub fn from_slice(alloc: Global, items: &[T]) -> Result<Sequence<T>, AllocError>
        ensures { IfOk result (λ s. s ≡ items.now) }
    {
        let items = Vec::from_slice(alloc, items)?;
        Ok(Sequence { items })
    }

    /// A list with the same elements.
    pub fn copy(&self, alloc: Global) -> Result<Sequence<T>, AllocError>
        ensures { IfOk result (λ s. s ≡ self.now) }
    {
        Sequence::from_slice(alloc, self.as_slice())
    }
}

impl<T: Drop> Sequence<T> {
    /// The list of one element.
    pub fn of_one(alloc: Global, item: T) -> Result<Sequence<T>, AllocError>
        ensures { IfOk result (λ s. s ≡ item ∷ []) }
    {
        let mut items = Vec::new(alloc);
        items.push(item)?;
        Ok(Sequence { items })
    }

    pub fn push(&mut self, item: T) -> Result<(), AllocError>
        ensures ok { OnOk result (self.new ≡ self.old ++ item ∷ []) }
        ensures err { OnErr result (self.new ≡ self.old) }
    {
        self.items.push(item)?;
        Ok(())
    }

    /// Puts an element in the place of the one that stands there.
    pub fn put(&mut self, at: usize, item: T)
        requires { at < length self.old }
        ensures { self.new ≡ slice_set self.old at item }
    {
        self.items[at] = item;
    }

    /// Moves the elements of `more` to the end.
    pub fn append(&mut self, more: Sequence<T>) -> Result<(), AllocError>
        ensures { OnOk result (self.new ≡ self.old ++ more) }
    {
        let Sequence { mut items } = more;
        self.items.append(&mut items)
    }
}
