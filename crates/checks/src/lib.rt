//! Whether a program's types fit, its registers are set before they are read, and its edges are good: the first place where
//! one of these fails.
#![tactic(auto)]

mod checking;
mod typed;
mod types;

pub use checking::{check, first_place_is_one};
