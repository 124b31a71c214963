//! Instructions, terminators and blocks.

use crate::constants::{Integer, Value};
use crate::types::{IrType, Name};
use bitnum::{BinOp, Pred};
use plain_list::Sequence;

/// Language Reference, "Conversion Operations".
#[derive(Clone, Copy, Debug, PartialEq, Eq)]
pub enum CastOp {
    Trunc,
    Zext,
    Sext,
}

/// A value with its type.
#[derive(Drop)]
pub struct Typed {
    pub kind: IrType,
    pub value: Value,
}

/// An index of a `getelementptr`, with its number of bits.
#[derive(Drop)]
pub struct Index {
    pub width: u8,
    pub value: Value,
}

/// What an instruction does (Language Reference, "Instruction Reference"), one variant an alternative.
#[derive(Drop)]
pub enum Operation {
    Binary {
        op: BinOp,
        width: u8,
        a: Value,
        b: Value,
    },
    Compare {
        pred: Pred,
        kind: IrType,
        a: Value,
        b: Value,
    },
    Cast {
        op: CastOp,
        from: u8,
        value: Value,
        to: u8,
    },
    Select {
        condition: Value,
        a: Typed,
        b: Typed,
    },
    Alloca {
        kind: IrType,
    },
    Load {
        kind: IrType,
        pointer: Value,
    },
    Store {
        kind: IrType,
        value: Value,
        pointer: Value,
    },
    GetElementPtr {
        source: IrType,
        pointer: Value,
        indices: Sequence<Index>,
    },
    /// A call; its result is none for `void`.
    Call {
        result: Option<IrType>,
        callee: Name,
        arguments: Sequence<Typed>,
    },
}

/// An instruction, the register that it sets, and the byte of the source at which it begins.
#[derive(Drop)]
pub struct Instruction {
    pub at: u32,
    pub result: Option<Name>,
    pub operation: Operation,
}

/// What a `phi` gives where control comes from a label.
#[derive(Drop)]
pub struct Incoming {
    pub value: Value,
    pub label: Name,
}

/// Language Reference, "phi Instruction".
#[derive(Drop)]
pub struct Phi {
    pub result: Name,
    pub kind: IrType,
    pub incoming: Sequence<Incoming>,
}

/// A case of a `switch`: its number, with the number's bits and byte, and its label.
#[derive(Drop)]
pub struct Case {
    pub width: u8,
    pub value: Integer,
    pub at: u32,
    pub label: Name,
}

/// Language Reference, "Terminator Instructions".
#[derive(Drop)]
pub enum TerminatorForm {
    /// `ret`; none for `void`.
    Return(Option<Typed>),
    Jump(Name),
    Branch {
        condition: Value,
        if_true: Name,
        if_false: Name,
    },
    Switch {
        width: u8,
        value: Value,
        default: Name,
        cases: Sequence<Case>,
    },
    Unreachable,
}

/// A terminator, and the byte of the source at which it begins.
#[derive(Drop)]
pub struct Terminator {
    pub at: u32,
    pub form: TerminatorForm,
}

/// A block. In a tree that was read it has a label, its number where the source leaves that out.
#[derive(Drop)]
pub struct Block {
    pub label: Option<Name>,
    pub phis: Sequence<Phi>,
    pub instructions: Sequence<Instruction>,
    pub terminator: Terminator,
}
