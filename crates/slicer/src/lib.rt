//! The slice of a function for a location: the nodes that decide what a call of the function does there, and where a run of them goes on.
#![tactic(auto)]

mod closing;
mod graphs;
mod keeping;
mod linking;
mod looking;
mod marks;
mod nodes;
mod places;
mod reaching;
mod slicing;

pub use slicing::slice;
