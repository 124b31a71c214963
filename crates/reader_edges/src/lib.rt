//! What goes from block to block: phis and terminators, read from tokens.
#![tactic(auto)]

pub mod phis;
pub mod terminators;
