//! Types, operands and constant addresses, read from tokens.
#![tactic(auto)]

pub mod operands;
pub mod types;
