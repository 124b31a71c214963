//! What is printed is read again: the tokens of a printed tree are a module whose tree is that tree without regard to places.
//! It has no code: its one function states the law.
#![tactic(auto)]

ghost use Rattle.printed_again.specs.Again.{IsSpelledAgain};

/// The tokens of a printed tree are a module again, and its tree is the one that was printed, but for places.
pub fn what_is_printed_is_read_again()
    ensures spelled_again { IsSpelledAgain }
{}
