//! The clauses of a condition whose conjuncts are places of a table of bit expressions.
#![tactic(auto)]

mod clauses;
mod inputs;
mod numbers;

pub use clauses::{Blasted, clauses_at};
