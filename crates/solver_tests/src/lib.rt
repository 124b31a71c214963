//! Tests of the solver: clauses and logs by hand, gates as clauses, and conditions that are
//! decided.
#![tactic(auto)]

#[cfg(test)]
mod of_clauses;
#[cfg(test)]
mod of_conditions;
#[cfg(test)]
mod of_decisions;
#[cfg(test)]
mod of_gates;
