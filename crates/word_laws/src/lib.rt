//! Which words begin a command, so that the word that a usage line names is the first that can't stand where it does.
#![tactic(auto)]

ghost use Rattle.word_laws.specs.Beginnings.{MisfitsAreFirst};

/// The words before the place that a usage line names begin words of the table, and with the word at that place they begin none.
pub fn misfits_are_first()
    ensures { MisfitsAreFirst }
{}
