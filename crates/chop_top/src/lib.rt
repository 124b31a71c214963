//! The top call: from the words to the bytes that are written.
#![tactic(auto)]

mod accepting;
mod top;

pub use accepting::a_text_has_one_program;
pub use top::{Status, chop_main};
