//! Closed sets of nodes: from each node at most one of them is met first.
#![tactic(auto)]

mod closing;
mod graph;
mod meeting;
mod summing;

pub use closing::{close, closed_sets_meet_one, closing_closes, closing_round};
pub use graph::Graph;
pub use meeting::first_met;
pub use summing::{Met, all_met};
