//! What a call of a function may change: places in memory, lives of objects, input and output.
#![tactic(auto)]

mod callers;
mod changes;
mod laws;
mod owned;
mod places;

pub use callers::callee;
pub use changes::mods;
pub use laws::{calls_change_own, steps_change_own};
pub use owned::{changed_by, freed_by, is_malloc_site, nodes_of, written_through};
pub use places::{locations, sites};
