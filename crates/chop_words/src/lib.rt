//! The words of a call, and what they ask for.
#![tactic(auto)]

mod commands;
mod options;
mod words;

pub use commands::{Command, UsageError, read_words, usage_line};
pub use options::Options;
