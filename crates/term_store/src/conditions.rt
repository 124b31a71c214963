ghost use Rattle.std.specs.Prelude.{◌≡◌, ◌||◌, ℕ, List, [], IfOk, OnErr, length};
ghost use Rattle.terms.specs.Tree.{width_of, IsTree};
ghost use Rattle.terms.specs.Folding.{constant_of};
ghost use Rattle.term_store.specs.Condition as spec;
ghost use Rattle.term_store.specs.Condition.{MeetsAlso};

use indexmap::IndexSet;
use places::Home;
use plain_list::Sequence;
use std::alloc::{AllocError, Global};
use std::marker::Model;
use terms::{Term, Terms, not};

/// What adding a conjunct did.
#[derive(Clone, Copy, PartialEq, Eq)]
pub enum Added {
    /// The condition has the conjunct already, or it is the constant 1.
    Held,
    /// The conjunct stands at the condition's end.
    Appended,
    /// The condition has the conjunct's negation, or it is the constant 0. The condition stays as it was.
    Contradicted,
}

/// A condition, seen as the list of its conjuncts, in the order in which they were added.
pub struct Conditions<H: Home> {
    terms: IndexSet<Term<H>>,
}

// All that lets one go is in this one place, and each end of a scope is a call.
impl<H: Home> Drop for Conditions<H> {
    fn drop(self) {
        let Conditions { terms: _ } = self;
    }
}

impl<H: Home> Model for Conditions<H> {
    ghost use Rattle.std.specs.Prelude.{List};
    ghost use Rattle.std.specs.Coded.{coded_list};
    ghost use Rattle.terms.specs.Tree.{Tree};
    ghost use Rattle.terms.specs.Codes.{coded_tree};

    ghost Value = { List Tree };

    ghost coded = { coded_list coded_tree };

    ghost view = { λ c. c.terms.keys };
}

fn is_bit<H: Home>(bit: u64, t: &Term<H>) -> bool
    ensures { result ≡ spec.is_bit bit (constant_of t.now) }
{
    match t.as_constant() {
        Some(n) => n.bits() == bit,
        None => false,
    }
}

impl<H: Home> Conditions<H> {
    /// The condition that every input meets.
    pub fn new(alloc: Global) -> Conditions<H>
        ensures { result ≡ [] }
    {
        Conditions {
            terms: IndexSet::new(alloc),
        }
    }

    /// How many conjuncts there are.
    pub fn len(&self) -> usize
        ensures { result ≡ length self.now }
    {
        self.terms.len()
    }

    /// Whether a term stands in the condition.
    pub fn stands(&self, t: &Term<H>) -> bool
        ensures { result ≡ spec.stands self.now t.now }
    {
        self.terms.contains(t)
    }

    // Whether the condition denies a term: it is 0, or its negation stands there.
    fn denies(&self, terms: &Terms<H>, t: &Term<H>) -> Result<bool, AllocError>
        requires { width_of t.now ≡ 1 }
        ensures { IfOk result (λ b. b ≡ (spec.is_bit 0 (constant_of t.now) || spec.stands self.now (spec.negation t.now))) }
    {
        if is_bit(0, t) {
            return Ok(true);
        }
        let denial = not(terms, t)?;
        Ok(self.stands(&denial))
    }

    /// What adding the term will answer.
    pub fn answer(&self, terms: &Terms<H>, t: &Term<H>) -> Result<Added, AllocError>
        requires { width_of t.now ≡ 1 }
        ensures answer { IfOk result (λ a. a ≡ spec.answer self.now t.now) }
        ensures tree { IsTree t.now }
    {
        let _width = t.width();
        if is_bit(1, t) || self.stands(t) {
            Ok(Added::Held)
        } else if self.denies(terms, t)? {
            Ok(Added::Contradicted)
        } else {
            Ok(Added::Appended)
        }
    }

    /// Adds a conjunct of one bit, unless the condition has it or denies it.
    pub fn add(&mut self, terms: &Terms<H>, t: &Term<H>) -> Result<Added, AllocError>
        requires { width_of t.now ≡ 1 }
        ensures answer { IfOk result (λ a. a ≡ spec.answer self.old t.now) }
        ensures list { IfOk result (λ a. self.new ≡ spec.after a self.old t.now) }
        ensures meets { IfOk result (λ a. (input : List ℕ) → MeetsAlso a input self.old self.new t.now) }
        ensures err { OnErr result (self.new ≡ self.old) }
    {
        match self.answer(terms, t)? {
            Added::Appended => {
                let t = t.copy()?;
                self.terms.insert(t)?;
                Ok(Added::Appended)
            }
            Added::Held => Ok(Added::Held),
            Added::Contradicted => Ok(Added::Contradicted),
        }
    }

    /// An equal list of its own.
    pub fn fork(&self) -> Result<Conditions<H>, AllocError>
        ensures { IfOk result (λ c. c ≡ self.now) }
    {
        let terms = self.terms.clone()?;
        Ok(Conditions { terms })
    }

    /// The conjuncts, in their order.
    pub fn as_slice(&self) -> &[Term<H>]
        ensures { result.now ≡ self.now }
    {
        self.terms.as_slice()
    }

    /// A list of the conjuncts, in their order.
    pub fn to_list(&self) -> Result<Sequence<Term<H>>, AllocError>
        ensures { IfOk result (λ list. list ≡ self.now) }
    {
        let mut list = Sequence::new(*self.terms.allocator());
        for t in self.terms.as_slice() {
            list.push(t.copy()?)?;
        }
        Ok(list)
    }
}
