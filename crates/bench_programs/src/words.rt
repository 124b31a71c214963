//! The words behind the first one.
use std::io;

const USAGE: &str = "bench_programs WORD .., where WORD says what is done
memory OBJECTS TIMES
terms copy|add|same|walk SIZE TIMES
log read|append|copy LENGTH TIMES
solver clauses|search|dimacs equal|sum|less|mul|urem|table BYTES TIMES
board wide|chain COUNT ROUNDS
reader keep|lex|read FILE
machine INPUT TIMES FILE
points_to SITES CHOICES
slice STEPS FUNCTIONS
each";

/// The number that stands at a place, if one does.
pub(crate) fn number(words: &[String], place: usize) -> Option<u32> {
    words.get(place).and_then(|word| word.parse::<u32>().ok())
}

/// A copy of the word that stands at a place, if one does.
pub(crate) fn word_at(words: &[String], place: usize) -> Option<String> {
    words.get(place).and_then(|word| word.clone().ok())
}

/// Prints which words there are.
pub(crate) fn refused(rt: &HostRuntime) -> io::Result<()> {
    println!(rt; "{USAGE}")
}
