//! Symbolic states as code, and the children that the sides of a branch or a test make of them.
#![tactic(auto)]

mod frames;
mod path;
mod program;
mod sides;
mod states;
mod telling;

pub use frames::successor;
pub use path::Path;
pub use program::{node_in, nodes_of, result_of, type_at, types_of};
pub use sides::{Tested, Way};
pub use states::{Child, Flow, Machine, Needed, Scope, State, Step};
pub use telling::{opens, told, told_with};
