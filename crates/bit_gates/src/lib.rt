//! Conditions of terms as clauses: the bits of each term, made once in a table of bit expressions,
//! and the clauses of the conjuncts.
#![tactic(auto)]

mod conditions;
mod inputs;
mod operations;
mod walk;

pub use conditions::clauses_of;
pub use gate_clauses::Blasted;
