//! Lines of a block, and blocks, read from tokens.
#![tactic(auto)]

pub mod blocks;
pub mod lines;
