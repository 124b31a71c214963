//! The text of a tree.

mod instructions;
mod lines;
mod names;
mod operands;
mod page;
mod spelled;
mod types;

pub use lines::print;
pub use names::push_name;
