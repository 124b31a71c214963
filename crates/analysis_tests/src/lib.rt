//! Tests of the analyses: a graph that is closed, and what is left of a small program.
#![tactic(auto)]

#[cfg(test)]
mod of_closing;
#[cfg(test)]
mod of_slices;
