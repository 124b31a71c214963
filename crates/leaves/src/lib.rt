//! What an exploration tells: its leaves, each with its condition, its input, its path and how it ends.
#![tactic(auto)]

mod events;
mod leaf;
mod options;
mod told;

pub use events::{Event, EventKind};
pub use leaf::{Leaf, LeafKind};
pub use options::{Cause, Options};
pub use told::{Recovered, Told};
