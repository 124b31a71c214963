//! The nodes of a function, made from the tree of its module. The definitions stand in the `specs/` of `ir_programs`.
#![tactic(auto)]

mod addresses;
mod blocks;
mod calls;
mod edges;
mod flow;
mod functions;
mod instructions;
mod names;
mod operands;
mod scope;
mod terminators;

pub use blocks::nodes_of;
pub use calls::function_of;
pub use flow::{behind, label_of, led_to, node_count, phis_of, start_of, value_from};
pub use functions::{all_functions, called, global_texts};
pub use names::{narrow, number_of};
pub use operands::{operand_of, register_of};
pub use scope::{Scope, Whole};
