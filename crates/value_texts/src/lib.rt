//! Numbers, bytes and faults as they stand in a line of text.
#![tactic(auto)]

mod texts;

pub use texts::{fault_text, put_bytes, put_number, put_text};
