//! Values and constants of a module's tree: where one doesn't fit, where a constant pointer leads, and the bytes that globals
//! begin with. The definitions stand in `ir_programs`.
#![tactic(auto)]

mod addresses;
mod bytes;
mod constants;
mod forms;
mod indices;
mod names;
mod numbers;
mod places;
mod steps;
mod telling;
mod told;
mod values;

pub use addresses::gep_offset;
pub use bytes::global_vars;
pub use constants::constants_told;
pub use names::{is_defined, is_function, is_reserved};
pub use numbers::{bits_of, index_bits};
pub use steps::gep_steps_fit;
pub use told::{registers_told, values_told};
