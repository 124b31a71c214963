//! What nodes do with memory: loads, stores and copies behind the tests of their accesses, and frees.
#![tactic(auto)]

mod accesses;
mod freeing;
mod loading;
mod reading;
mod writing;

pub use accesses::{Reached, access};
pub use freeing::frees;
pub use loading::{Valued, join_read, joins, loaded, loads, loads_at};
pub use reading::{ReadBytes, reads};
pub use writing::{copies, copies_from, stores_at, writes};
