//! A tree of tasks: what it evaluates to, and a board on which many hands evaluate it.
#![tactic(auto)]

pub mod alone;
pub mod board;
pub mod evaluation;
pub mod expansion;
mod load;
pub mod perform;
pub mod record;
pub mod settle;
pub mod shared;
pub mod slots;
pub mod tree;
