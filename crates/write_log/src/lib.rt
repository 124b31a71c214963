//! The log of a path as a memory: what was done, marks of skipped calls, and fills at the marks.
#![tactic(auto)]

mod chains;
mod covers;
mod items;
mod lives;
mod log;
mod marks;
mod memory;
mod needs;
mod plain;
mod reading;
mod totals;
mod trail;

pub use log::Log;
pub use memory::{Index, Memory, SymMemory};
pub use plain::Plain;
