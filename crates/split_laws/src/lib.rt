//! Every exploration splits the inputs and keeps the least ones, with skipped calls, in recoveries and through merges: proofs of
//! laws alone.
#![tactic(auto)]

mod laws;

pub use laws::{attempts_and_merges_split, explorations_split, no_list_is_empty};
