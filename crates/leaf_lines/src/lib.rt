//! The report of an exploration: its leaves as lines, with their events and conditions.
#![tactic(auto)]

mod lines;
mod objects;
mod shown;
mod term_texts;

pub use lines::report;
