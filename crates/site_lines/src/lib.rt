//! The lines that say to what the pointers of a program's objects may point, and what its functions may change.
#![tactic(auto)]

mod pieces;
mod texts;

pub use texts::sites_text;
