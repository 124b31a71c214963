//! Where the types and the edges of a function don't fit, by the numbers of its nodes. The definitions stand in the `specs/` of
//! `ir_programs`.
#![tactic(auto)]

mod calls;
mod clashes;
mod edges;
mod marked;
mod operations;
mod phis;
mod sets;
mod signatures;
mod spelled;
mod steps;
mod values;

pub use clashes::clashes_of;
pub use edges::bad_edges_of;
