//! Where the pointers of a program may point: for each register and for the objects of each site, the sites whose objects it
//! may point to.
#![tactic(auto)]

mod asking;
mod holders;
mod laws;
mod rows;
mod sets;
mod tables;

pub use holders::{Holder, Inclusion};
pub use laws::{runs_stay_within, steps_stay_within};
pub use rows::rank;
pub use sets::{PointsTo, points_to};
