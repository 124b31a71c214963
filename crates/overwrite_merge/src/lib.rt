//! What a suspended state becomes when its recoveries are there: the merge of lists of leaves, over the state's condition, its
//! kept input and what is left of its steps and shares.
#![tactic(auto)]

mod laws;

pub use laws::merges_are_of_bases;
