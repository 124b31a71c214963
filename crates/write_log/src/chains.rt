//! Chains of bytes, each of which is the one looked for where a test is 1.
ghost use Rattle.std.specs.Prelude.{◌≡◌, Some, IfOk, IfSome};
ghost use Rattle.terms.specs.Tree.{width_of};
ghost use Rattle.sym_bytes.specs.Joining as joining;
ghost use Rattle.sym_bytes.specs.ShownAnswers.{read_of};
ghost use Rattle.log_laws.specs.Reading as reading;

use places::Home;
use plain_list::Sequence;
use std::alloc::AllocError;
use std::marker::Model;
use sym_bytes::{ByteKind, ReadByte, SymByte};
use terms::{Term, Terms, ite};

/// A byte that is the one looked for where the test is 1.
pub(crate) struct Candidate<H: Home> {
    test: Term<H>,
    found: SymByte<H>,
}

// All that lets one go is in this one place, and each end of a scope is a call.
impl<H: Home> Drop for Candidate<H> {
    fn drop(self) {
        let Candidate { test: _, found: _ } = self;
    }
}

impl<H: Home> Model for Candidate<H> {
    ghost use Rattle.std.specs.Prelude.{◌≡◌};
    ghost use Rattle.terms.specs.Tree.{width_of};
    ghost use Rattle.log_laws.specs.Reading.{Candidate};

    ghost Value = { Candidate };

    ghost use Rattle.std.specs.Coded.{codes};
    ghost use Rattle.terms.specs.Codes.{coded_tree};

    ghost coded = { Prim.hlevel (codes, coded_tree) };

    ghost view = { λ c. record { test = c.test; found = c.found } };

    ghost invariant = { λ c. width_of c.test ≡ 1 };
}

// The term of a byte that is an integer.
fn int_of<H: Home>(byte: &SymByte<H>) -> Result<Option<Term<H>>, AllocError>
    ensures term { IfOk result (λ o. o ≡ joining.int_of byte.now) }
    ensures width { IfOk result (λ o. IfSome o (λ t. width_of t ≡ 8)) }
{
    match byte.kind() {
        ByteKind::Int(t) => Ok(Some(t.copy()?)),
        _ => Ok(None),
    }
}

impl<H: Home> Candidate<H> {
    pub(crate) fn new(test: Term<H>, found: SymByte<H>) -> Candidate<H>
        requires { width_of test ≡ 1 }
        ensures { result ≡ record { test = test; found = found } }
    {
        Candidate { test, found }
    }

    pub(crate) fn test(&self) -> &Term<H>
        ensures test { result.now ≡ self.now.test }
        ensures bit { width_of self.now.test ≡ 1 }
    {
        &self.test
    }

    pub(crate) fn found(&self) -> &SymByte<H>
        ensures { result.now ≡ self.now.found }
    {
        &self.found
    }

    // The byte as a term where the test is 1, and else the other term.
    fn choose(&self, terms: &Terms<H>, other: Term<H>) -> Result<Option<Term<H>>, AllocError>
        requires { width_of other ≡ 8 }
        ensures term { IfOk result (λ o. o ≡ reading.choose self.now.test (joining.int_of self.now.found) (Some other)) }
        ensures width { IfOk result (λ o. IfSome o (λ t. width_of t ≡ 8)) }
    {
        match int_of(&self.found)? {
            None => Ok(None),
            Some(byte) => Ok(Some(ite(terms, &self.test, &byte, &other)?)),
        }
    }
}

/// The chain as one term, if all its bytes are integers.
#[tactic(auto, using(crate::proofs::Chained::chosen_none))]
fn term_of<H: Home>(
    terms: &Terms<H>,
    candidates: &[Candidate<H>],
    last: &SymByte<H>,
) -> Result<Option<Term<H>>, AllocError>
    ensures term { IfOk result (λ o. o ≡ reading.term_of candidates.now last.now) }
    ensures width { IfOk result (λ o. IfSome o (λ t. width_of t ≡ 8)) }
{
    let mut term = int_of(last)?;
    let mut left = candidates.len();
    'back: while left > 0 {
        left -= 1;
        term = match term {
            None => return Ok(None),
            Some(other) => candidates[left].choose(terms, other)?,
        };
    }
    Ok(term)
}

/// What a chain of candidates with a last byte behind them answers.
pub(crate) fn answered<H: Home>(
    terms: &Terms<H>,
    candidates: &[Candidate<H>],
    last: SymByte<H>,
) -> Result<ReadByte<H>, AllocError>
    ensures { IfOk result (λ r. read_of r ≡ reading.answer_of (record { candidates = candidates.now; last = last })) }
{
    match term_of(terms, candidates, &last)? {
        Some(t) => Ok(ReadByte::Byte(SymByte::int(t))),
        None => undecided(candidates, last),
    }
}

fn undecided<H: Home>(
    candidates: &[Candidate<H>],
    last: SymByte<H>,
) -> Result<ReadByte<H>, AllocError>
    ensures { IfOk result (λ r. read_of r ≡ reading.undecided candidates.now last) }
{
    match candidates.first() {
        None => Ok(ReadByte::Byte(last)),
        Some(first) => Ok(ReadByte::Undecided(first.test().copy()?)),
    }
}
