//! Calls, returns and ends of symbolic states: the frames that calls make, and what a frame frees as it ends.
#![tactic(auto)]

mod ends;
mod entering;
mod frees;
mod moving;
mod returning;
mod skipping;

pub use ends::{completes, ends_first, exits, recovers};
pub use entering::{entered, enters};
pub use frees::ended;
pub use moving::{moves, set_all};
pub use returning::{ends_frame, resumed, returns};
pub use skipping::{calls, skips, values_of};
