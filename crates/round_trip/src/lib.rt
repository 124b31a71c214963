//! What is printed is read again. Its one function states it of every text.
#![tactic(auto)]

ghost use Rattle.round_trip.specs.ReadAgain.{IsReadAgain};

/// A tree that was read is read again from what it is printed as, without regard to places.
pub fn a_printed_tree_is_read_again()
    ensures { IsReadAgain }
{}
