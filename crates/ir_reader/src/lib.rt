//! The reader of a module's text: by descent over its tokens, one function a production, each with what the grammar's phrase
//! gives. What the parts of a module are read by stands in the crates below.
#![tactic(auto)]

pub mod entities;
mod refusing;
pub mod text;
