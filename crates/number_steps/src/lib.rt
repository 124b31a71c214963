//! Nodes of symbolic states that make numbers and pointers, make objects, read and write, and choose their way.
#![tactic(auto)]

mod dividing;
mod going;
mod making;
mod picking;

pub use dividing::{computes, divides};
pub use going::{branches, puts, switches, takes_input};
pub use making::{casts, compares, gives_term, places};
pub use picking::{asks_memory, chooses, makes, mallocs, picks, selects};
