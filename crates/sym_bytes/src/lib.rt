//! Values of an exploration and their bytes: numbers that are terms, pointers, and results of skipped calls.
#![tactic(auto)]

mod answers;
mod cutting;
mod entries;
mod joining;
mod kinds;
mod names;
mod values;

pub use answers::{Joined, LifeOf, ReadByte, Wanted};
pub use cutting::cut_value;
pub use entries::{Entry, EntryKind, copy_bytes};
pub use joining::{join_bytes, put_call};
pub use kinds::{ByteKind, ValueKind};
pub use names::{Base, CallId};
pub use values::{Pointer, SymByte, SymValue};
