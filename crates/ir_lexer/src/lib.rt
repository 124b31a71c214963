//! The tokens of a module's text: which text is a token of which kind, the longest token in front, and the one list of
//! tokens that a text has.
#![tactic(auto)]

pub mod classes;
mod scan;
pub mod text;
pub mod token;
