//! Whether each register of a function is set on every path to where it is read.
#![tactic(auto)]

mod finding;
mod operands;
mod tables;
mod undefined;
mod unset;

pub use finding::{first_undefined, functions_are_named};
pub use operands::registers_read;
pub use tables::{results, row};
pub use undefined::Undefined;
