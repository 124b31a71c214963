//! What is asked of symbolic values and memory, and what is answered.
use crate::{CallId, SymByte, SymValue};
use flat_ir::ObjectName;
use places::Home;
use plain_list::Sequence;
use terms::Term;

/// What some bytes make.
#[derive(Drop)]
pub enum Joined<H: Home> {
    /// A value.
    Value(SymValue<H>),
    /// What the results of these calls will decide.
    Needs(Sequence<CallId>),
    /// A value where the test holds, and else a mixture.
    Test(Term<H>, SymValue<H>),
    /// A mixture of bytes that makes no value.
    Mixed,
}

/// What is asked of memory.
#[derive(Drop)]
pub enum Wanted<H: Home> {
    /// So many bytes of an object, from an offset on.
    Bytes(ObjectName, Term<H>, u8),
    /// Whether an object lives.
    Life(ObjectName),
    /// How much of the input was read.
    Input,
    /// What was written out.
    Output,
}

/// A byte that was read.
#[derive(Drop)]
pub enum ReadByte<H: Home> {
    Byte(SymByte<H>),
    /// An equality of offsets decides which byte it is.
    Undecided(Term<H>),
}

/// Whether an object lives.
#[derive(Drop)]
pub enum LifeOf<H: Home> {
    Alive(Term<H>),
    Dead,
}
