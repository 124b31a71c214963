//! Operands and constants.

use crate::types::{IrType, Name};
use plain_list::Sequence;
use sqlite_items::Items;

/// A number as it is written, from -2^63 to 2^64 - 1. Zero is never negative.
#[derive(Clone, Copy, Debug, PartialEq, Eq)]
pub struct Integer {
    pub negative: bool,
    pub magnitude: u64,
}

/// An operand (Language Reference, "Constants" and "Identifiers"), and the byte of the source at which it begins.
#[derive(Drop)]
pub struct Value {
    pub at: u32,
    pub form: ValueForm,
}

#[derive(Drop)]
pub enum ValueForm {
    /// The name of a register or a parameter.
    Local(Sequence<u8>),
    /// The name of a global or a function.
    Global(Sequence<u8>),
    Int(Integer),
    True,
    False,
    Null,
    Undef,
    Poison,
    ZeroInitializer,
    Gep(ConstGep),
}

/// A constant expression `getelementptr`: its levels, the outermost first, and the global within the innermost.
#[derive(Drop)]
pub struct ConstGep {
    pub levels: Sequence<GepLevel>,
    pub base: Name,
}

/// One `getelementptr ( SOURCE, ptr .., INDICES )`, and the byte of its word.
#[derive(Drop)]
pub struct GepLevel {
    pub at: u32,
    pub source: IrType,
    pub indices: Sequence<ConstIndex>,
}

/// An index with its number of bits, and the byte of its number.
#[derive(Clone, Copy, Debug, PartialEq, Eq)]
pub struct ConstIndex {
    pub width: u8,
    pub value: Integer,
    pub at: u32,
}

/// A constant of a global with the type that stands before it, and the byte of the source at which the constant begins.
#[derive(Drop)]
pub enum Constant {
    /// An operand, which is no register.
    Value {
        kind: IrType,
        value: Value,
    },
    /// `c".."`, as its bytes.
    Bytes {
        kind: IrType,
        at: u32,
        bytes: Sequence<u8>,
    },
    /// `[ .. ]`
    Array {
        kind: IrType,
        at: u32,
        elements: Items<Constant>,
    },
    /// `{ .. }`, or packed `<{ .. }>`.
    Struct {
        kind: IrType,
        at: u32,
        fields: Items<Constant>,
        packed: bool,
    },
}
