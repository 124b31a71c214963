//! Tests of the top call over every layer below it: words, each refusal, reports, the lines of sites, runs and slices, calls of the outside that
//! fail, and the host's files.
#![tactic(auto)]

#[cfg(test)]
mod modules;
#[cfg(test)]
mod outside;
#[cfg(test)]
mod refusals;
#[cfg(test)]
mod reports;
#[cfg(test)]
mod running;
#[cfg(test)]
mod runs;
#[cfg(test)]
mod slicing;
#[cfg(test)]
mod words;
