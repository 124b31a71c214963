//! Names of a program as they stand in a line of text.
#![tactic(auto)]

mod texts;

pub use texts::{put_function, put_global, put_place, put_register};
