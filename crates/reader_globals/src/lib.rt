//! What stands outside of functions: constants, types and globals, and headers of functions, read from tokens.
#![tactic(auto)]

pub mod constants;
pub mod definitions;
pub mod headers;
