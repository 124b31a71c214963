//! Tests of texts: their tokens, where they are refused, that modules are read, and what is printed, once and again.
#![tactic(auto)]

#[cfg(test)]
mod of_reading;
#[cfg(test)]
mod of_round_trips;
#[cfg(test)]
mod of_tokens;
