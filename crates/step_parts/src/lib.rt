//! What the parts of an attempt share: operands of a state, the calls that are needed first, what must hold, and the faults
//! where it doesn't.
#![tactic(auto)]

mod faults;
mod needs;
mod operands;

pub use faults::{fails, must};
pub use needs::{firm, knows, unless_needed};
pub use operands::{address, number, value};
