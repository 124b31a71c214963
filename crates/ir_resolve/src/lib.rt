//! The program of a module's tree, or the first refusal.
#![tactic(auto)]

mod answering;
mod callees;
mod cases;
mod error;
mod errors;
mod functions;
mod mains;
mod names;
mod program;
mod telling;
mod told;

pub use answering::resolve;
pub use error::ResolveError;
