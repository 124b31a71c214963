//! The tree of a module, one type a production of the grammar and one variant an alternative. What is read and ignored
//! does not stand in it.
#![tactic(auto)]

pub mod constants;
pub mod instructions;
pub mod layouts;
pub mod module;
pub mod printing;
pub mod types;
