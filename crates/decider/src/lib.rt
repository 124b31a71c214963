//! The decider: which input meets a condition, if any does.
#![tactic(auto)]

ghost use Rattle.std.specs.Prelude.{◌≡◌, ◌≢◌, ◌<◌, ◌≤◌, ℕ, List, true, false, All, IfOk, length};
ghost use Rattle.terms.specs.Tree.{Tree};
ghost use Rattle.terms.specs.Value.{are_met_by, ReadsBelow};
ghost use Rattle.term_bits.specs.Conditions.{IsConjunct};
ghost use Rattle.decider.specs.Decided.{decided};
ghost use Rattle.decider.specs.Inputs.{IsAtMost, ReadsOnly};
ghost use Rattle.decider.specs.declared.Verdict.TheVariants.{Sat, Unsat, Spent};

mod found;
mod plain;

use places::Home;
pub use plain::Plain;
use plain_list::Sequence;
use std::alloc::{AllocError, Global};
use terms::Term;

/// What was decided of a condition.
#[derive(Drop)]
pub enum Verdict {
    /// This input meets it, and is the least that does.
    Sat(Sequence<u8>),
    /// No input meets it.
    Unsat,
    /// The budget of conflicts was spent first.
    Spent,
}

/// Decides conditions. A decider that is shared by threads decides for each of them.
pub trait Decide: Sync {
    /// The least input of `inputs` bytes, at most 64, that meets all conjuncts, which have one bit
    /// each and read no further byte. `budget` is the number of conflicts at which it is given up.
    /// The same condition, inputs and budget have always the same verdict.
    fn decide<H: Home>(
        &self,
        alloc: Global,
        condition: &[Term<H>],
        inputs: u8,
        budget: u64,
    ) -> Result<Verdict, AllocError>
        requires conjuncts { All IsConjunct condition.now }
        requires reads { All (ReadsBelow inputs) condition.now }
        requires inputs { inputs ≤ 64 }
        requires budget { 1 ≤ budget }
        ensures { IfOk result (λ verdict. verdict ≡ decided condition.now inputs budget) };
}

/// The input that is decided has `inputs` bytes, meets the condition, and is at most each other
/// input of as many bytes that does, in the order of a dictionary. Unsat says that none does. A
/// condition that reads at most two bytes of input is decided by a budget of 65,537.
pub fn decisions_are_right()
    ensures met { (c : List Tree) (inputs budget : ℕ) (input : List ℕ) → All IsConjunct c → All (ReadsBelow inputs) c → inputs ≤ 64
        → decided c inputs budget ≡ Sat input → are_met_by input c ≡ true }
    ensures size { (c : List Tree) (inputs budget : ℕ) (input : List ℕ) → inputs ≤ 64
        → decided c inputs budget ≡ Sat input → length input ≡ inputs }
    ensures bytes { (c : List Tree) (inputs budget : ℕ) (input : List ℕ)
        → decided c inputs budget ≡ Sat input → All (λ b. b < 256) input }
    ensures least { (c : List Tree) (inputs budget : ℕ) (input other : List ℕ) → All IsConjunct c → inputs ≤ 64
        → decided c inputs budget ≡ Sat input → length other ≡ inputs → All (λ b. b < 256) other
        → are_met_by other c ≡ true → IsAtMost input other }
    ensures none { (c : List Tree) (inputs budget : ℕ) (input : List ℕ) → All IsConjunct c
        → decided c inputs budget ≡ Unsat → are_met_by input c ≡ false }
    ensures two_bytes { (c : List Tree) (inputs budget j k : ℕ) → All (ReadsOnly j k) c → 65537 ≤ budget
        → decided c inputs budget ≢ Spent }
{}
