//! Numbers of 1 to 64 bits, and the operations on them.
#![tactic(auto)]

mod bits;
mod num;

pub use num::{Num, apply, compare, divide, sext, trunc, zext};

/// An operation on two numbers of one width: the binary operators and bitwise operators of the LLVM Language
/// Reference, with a value where the reference leaves one open. Flags (`nuw`, `nsw`, `exact`, `disjoint`) are no part of
/// an operation, so no result is poison.
#[derive(Clone, Copy, Debug, PartialEq, Eq, Hash)]
pub enum BinOp {
    /// The 'add' instruction: the sum, modulo 2 to the width.
    Add,
    /// The 'sub' instruction: the difference, modulo 2 to the width.
    Sub,
    /// The 'mul' instruction: the product, modulo 2 to the width.
    Mul,
    /// The 'udiv' instruction: the unsigned quotient. By 0, where the reference has undefined behavior, every bit is 1.
    Udiv,
    /// The 'sdiv' instruction: the signed quotient, rounded towards 0. Where the reference has undefined behavior, it is
    /// by absolute values too: the least number over -1 is the least number, and by 0 it is -1, or 1 of a negative number.
    Sdiv,
    /// The 'urem' instruction: the unsigned remainder. By 0, where the reference has undefined behavior, it is the number.
    Urem,
    /// The 'srem' instruction: the signed remainder, with the sign of the first number. Where the reference has undefined
    /// behavior, the least number by -1 leaves 0, and a remainder by 0 is the number.
    Srem,
    /// The 'shl' instruction. By the width and more, where the reference has poison, it is 0.
    Shl,
    /// The 'lshr' instruction, with 0 shifted in. By the width and more, where the reference has poison, it is 0.
    Lshr,
    /// The 'ashr' instruction, with the sign shifted in. By the width and more, where the reference has poison, every bit
    /// is the sign.
    Ashr,
    /// The 'and' instruction.
    And,
    /// The 'or' instruction.
    Or,
    /// The 'xor' instruction.
    Xor,
}

/// A comparison of two numbers of one width: the predicates of the 'icmp' instruction of the LLVM Language Reference.
#[derive(Clone, Copy, Debug, PartialEq, Eq, Hash)]
pub enum Pred {
    /// Equal.
    Eq,
    /// Not equal.
    Ne,
    /// Unsigned, greater.
    Ugt,
    /// Unsigned, greater or equal.
    Uge,
    /// Unsigned, less.
    Ult,
    /// Unsigned, less or equal.
    Ule,
    /// Signed, greater.
    Sgt,
    /// Signed, greater or equal.
    Sge,
    /// Signed, less.
    Slt,
    /// Signed, less or equal.
    Sle,
}
