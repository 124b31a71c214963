//! The nodes of a function.
use crate::{FuncId, NodeId, RegId};
use bitnum::{BinOp, Num, Pred};
use plain_list::Sequence;

#[derive(Clone, Copy, Debug, PartialEq, Eq)]
pub enum RegType {
    Int(u8),
    Ptr,
}

#[derive(Clone, Copy, Debug)]
pub enum Operand {
    Reg(RegId),
    Int(Num),
    Null,
    Global { global: u32, offset: u64 },
}

#[derive(Clone, Copy, Debug, PartialEq, Eq)]
pub enum CastOp {
    Trunc,
    Zext,
    Sext,
}

#[derive(Clone, Copy, Debug)]
pub enum GepPart {
    Field { offset: u64 },
    Index { scale: u64, index: Operand },
}

/// A register, and what it is set to.
#[derive(Clone, Copy, Debug)]
pub struct MoveSet {
    pub register: RegId,
    pub value: Operand,
}

/// A number, and where it leads.
#[derive(Clone, Copy, Debug)]
pub struct SwitchCase {
    pub number: Num,
    pub to: NodeId,
}

/// A step of a function.
#[derive(Drop)]
pub enum Node {
    Bin {
        op: BinOp,
        a: Operand,
        b: Operand,
        result: RegId,
        next: NodeId,
    },
    Cmp {
        pred: Pred,
        a: Operand,
        b: Operand,
        result: RegId,
        next: NodeId,
    },
    Cast {
        op: CastOp,
        a: Operand,
        result: RegId,
        next: NodeId,
    },
    Gep {
        base: Operand,
        parts: Sequence<GepPart>,
        result: RegId,
        next: NodeId,
    },
    Select {
        condition: Operand,
        a: Operand,
        b: Operand,
        result: RegId,
        next: NodeId,
    },
    Alloca {
        size: u64,
        result: RegId,
        next: NodeId,
    },
    Malloc {
        size: Operand,
        result: Option<RegId>,
        next: NodeId,
    },
    Free {
        pointer: Operand,
        next: NodeId,
    },
    Load {
        pointer: Operand,
        result: RegId,
        next: NodeId,
    },
    Store {
        value: Operand,
        pointer: Operand,
        next: NodeId,
    },
    Copy {
        from: Operand,
        to: Operand,
        next: NodeId,
    },
    In {
        result: RegId,
        next: NodeId,
    },
    Put {
        value: Operand,
        next: NodeId,
    },
    Call {
        callee: FuncId,
        args: Sequence<Operand>,
        result: Option<RegId>,
        next: NodeId,
    },
    Moves {
        sets: Sequence<MoveSet>,
        next: NodeId,
    },
    Jump {
        next: NodeId,
    },
    Branch {
        condition: Operand,
        yes: NodeId,
        no: NodeId,
    },
    Switch {
        value: Operand,
        cases: Sequence<SwitchCase>,
        default: NodeId,
    },
    Ret {
        value: Option<Operand>,
    },
    Exit {
        status: Operand,
    },
    Abort,
    Assert {
        args: Sequence<Operand>,
    },
    Unreachable,
}
