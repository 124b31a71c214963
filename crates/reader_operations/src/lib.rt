//! What instructions do, and calls, read from tokens.
#![tactic(auto)]

pub mod calls;
pub mod operations;
