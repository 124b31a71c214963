//! What a walk remembers of the terms that it met, so that it visits each shared node once.
ghost use Rattle.std.specs.Prelude.{◌≡◌, ◌⊎◌, [], IfSome, OnOk};
ghost use Rattle.terms.specs.Tree.{Tree};
ghost use Rattle.terms.specs.Memo.{Remembers};

use crate::term::{Shape, Term};
use places::{Home, Place};
use std::alloc::{AllocError, Global};
use std::collections::HashMap;
use std::marker::Model;

/// What is remembered of the term at a place.
#[derive(Drop)]
struct Known<H: Home, V> {
    place: Place<Shape, H>,
    value: V,
}

/// Values of terms, by the numbers of their places. What the values mean is the caller's: a walk keeps it as a fact of
/// each remembered pair of a tree and a value.
#[derive(Drop)]
pub struct Memo<H: Home, V> {
    known: HashMap<u64, Known<H, V>>,
}

impl<H: Home, V> Model for Memo<H, V> {
    ghost use Rattle.std.specs.Prelude.{ℕ, List};
    ghost use base.Stored.{coded×, coded_ℕ};
    ghost use Rattle.std.specs.Coded.{coded_list};
    ghost use Rattle.terms.specs.Memo.{Note, coded_note, notes_of};

    ghost Value = { List (ℕ × Note V) };

    ghost coded = { coded_list (coded× coded_ℕ (coded_note V.code)) };

    ghost view = { λ m. notes_of m.known.entries };
}

impl<H: Home, V: Drop> Memo<H, V> {
    /// A memo of nothing.
    pub fn new(alloc: Global) -> Memo<H, V>
        ensures { result ≡ [] }
    {
        Memo {
            known: HashMap::new(alloc),
        }
    }

    /// What is remembered of the term, if its place was met.
    pub fn get(&self, t: &Term<H>) -> Option<&V>
        ensures { IfSome result (λ v. Remembers self.now t.now v.now) }
    {
        let known = self.known.get(&t.place().number())?;
        if known.place.same(t.place()) {
            Some(&known.value)
        } else {
            None
        }
    }

    /// Remembers a value of the term.
    pub fn put(&mut self, t: &Term<H>, value: V) -> Result<(), AllocError>
        ensures remembered { OnOk result (Remembers self.new t.now value) }
        ensures others { (u : Tree) (v : V) → Remembers self.new u v → Remembers self.old u v ⊎ ((u ≡ t.now) × (v ≡ value)) }
    {
        let known = Known {
            place: t.place().again(),
            value,
        };
        self.known.insert(t.place().number(), known)?;
        Ok(())
    }
}
