//! The numbers of what a module's text leaves unnamed.
#![tactic(auto)]

pub mod numbering;
