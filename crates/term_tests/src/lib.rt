//! Tests of terms and their places: each constructor once, deep and shared terms, and two threads.
#![tactic(auto)]

#[cfg(test)]
mod of_places;
#[cfg(test)]
mod of_terms;
