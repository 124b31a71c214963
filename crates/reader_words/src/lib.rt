//! The tokens that are left of a module's text, and what is read of one or few of them: words and marks, names, numbers, and
//! what has no place in the tree.
#![tactic(auto)]

pub mod ignored;
pub mod names;
pub mod numbers;
pub mod source;
pub mod stop;
pub mod words;
