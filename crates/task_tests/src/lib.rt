//! Tests of the board of tasks on a small tree.
#![tactic(auto)]

#[cfg(test)]
mod boards;
#[cfg(test)]
mod trees;
