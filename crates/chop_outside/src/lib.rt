//! What a program meets outside of itself: named files, a sink for bytes, and a gate. Each is a trait whose clauses
//! say what a call does to the bytes, where they are told, and when it may fail: only where a count of faults rose.
#![tactic(auto)]

mod host;
mod mem_reading;
mod mem_writing;
mod outside;
mod whole;

pub use host::{FreeGate, HostFiles, HostSink};
pub use mem_reading::MemFiles;
pub use mem_writing::MemSink;
pub use outside::{Fault, Files, Gate, Sink};
pub use whole::{ReadError, read_whole, write_whole};
