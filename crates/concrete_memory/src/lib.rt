//! Concrete memory: objects in a map, which stand for the history of all changes.
#![tactic(auto)]

mod joining;
mod objects;
mod values;

pub use joining::{join_value, size_of_type};
pub use objects::{Life, Store};
pub use values::{AccessError, cut_value, size_of_value};
