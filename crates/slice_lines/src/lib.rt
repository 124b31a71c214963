//! The functions and locations that words name, and the lines that say what of a program the slice of a function for a location retains.
#![tactic(auto)]

mod lines;
mod targets;

pub use lines::slice_text;
pub use targets::{function_named, location_named, unknown_line};
