//! The bits of each operation on numbers, made as places of a table of bit expressions. A row is a
//! list of places, the lowest bit first. A call adds nodes to the table and changes none.
#![tactic(auto)]

mod bits;
mod compare;
mod constants;
mod divisions;
mod moves;
mod pairs;
mod products;
mod shifts;
mod sums;

pub use compare::{equal, less, signed_less};
pub use constants::constant;
pub use divisions::{Division, divided, signed_quotient, signed_remainder};
pub use moves::{byte, joined, repeated, taken, top, widened};
pub use pairs::{Gate, each, inverted};
pub use products::product;
pub use shifts::{shifted_down, shifted_up, sign_shifted_down};
pub use sums::{added, negated, negated_where, subtracted};
