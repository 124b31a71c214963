//! Terms over numbers and input bytes, as trees whose parts are shared, each part with a number of its own.
#![tactic(auto)]

mod alike;
mod build;
mod evaluate;
mod joins;
mod memo;
mod operate;
mod term;

pub use alike::same;
pub use build::{
    bin, byte, constant, eq, input_byte, ite, not, sext_term, slt, trunc_term, ult, zext_term,
};
pub use evaluate::{value, value_in, value_once};
pub use joins::join;
pub use memo::Memo;
pub use term::{Binary, MOST_LEVELS, Node, Shape, Term, Terms, Unary, same_place};
