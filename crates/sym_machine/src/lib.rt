//! Explorations of symbolic states: what an attempt of a state gives, and the leaves of a program.
#![tactic(auto)]

mod advancing;
mod ending;
mod executing;
mod exploring;
mod fitting;
mod leading;
mod making;
mod remembering;

pub use advancing::advance;
pub use exploring::{Counts, explore, explore_counted};
pub use fitting::program_fits;
