//! Tests of symbolic values, conditions and memory: worked logs, forks, and bytes that are cut and joined.
#![tactic(auto)]

#[cfg(test)]
mod of_bytes;
#[cfg(test)]
mod of_conditions;
#[cfg(test)]
mod of_logs;
