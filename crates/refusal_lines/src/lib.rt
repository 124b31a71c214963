//! The line that is written where a file is refused.
#![tactic(auto)]

mod lines;

pub use lines::{misread_line, refused_line, unchecked_line, unresolved_line};
