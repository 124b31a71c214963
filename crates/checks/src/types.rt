//! Types of operands.
ghost use Rattle.std.specs.Prelude.{◌≡◌};
ghost use Rattle.checks.specs.Types as spec;

use bitnum::Pred;
use flat_ir::{CastOp, GepPart, MoveSet, Operand, RegId, RegType, SwitchCase};

/// The type of a register.
pub fn type_at(regs: &[RegType], register: RegId) -> RegType
    ensures { result ≡ spec.type_at regs.now register }
{
    match regs.get(register.0 as usize) {
        Some(kind) => *kind,
        None => RegType::Ptr,
    }
}

/// The type of an operand.
pub fn type_of(regs: &[RegType], operand: Operand) -> RegType
    ensures { result ≡ spec.type_of regs.now operand }
{
    match operand {
        Operand::Reg(register) => type_at(regs, register),
        Operand::Int(number) => RegType::Int(number.width()),
        Operand::Null | Operand::Global { .. } => RegType::Ptr,
    }
}

pub fn same_type(a: RegType, b: RegType) -> bool
    ensures { result ≡ spec.same_type a b }
{
    match (a, b) {
        (RegType::Int(m), RegType::Int(n)) => m == n,
        (RegType::Ptr, RegType::Ptr) => true,
        _ => false,
    }
}

pub fn is_int(kind: RegType) -> bool
    ensures { result ≡ spec.is_int kind }
{
    match kind {
        RegType::Int(_) => true,
        RegType::Ptr => false,
    }
}

/// Whether memory holds values of the type.
pub fn is_scalar(kind: RegType) -> bool
    ensures { result ≡ spec.is_scalar kind }
{
    match kind {
        RegType::Int(width) => width == 8 || width == 16 || width == 32 || width == 64,
        RegType::Ptr => true,
    }
}

pub fn has(regs: &[RegType], operand: Operand, kind: RegType) -> bool
    ensures { result ≡ spec.has regs.now operand kind }
{
    same_type(type_of(regs, operand), kind)
}

/// Whether the register, if there is one, has the type, if there is one.
pub fn sets(regs: &[RegType], register: Option<RegId>, kind: Option<RegType>) -> bool
    ensures { result ≡ spec.sets regs.now register kind }
{
    match (register, kind) {
        (Some(register), Some(kind)) => same_type(type_at(regs, register), kind),
        (None, None) => true,
        _ => false,
    }
}

/// Whether the value, if there is one, has the type, if there is one.
pub fn gives(regs: &[RegType], value: Option<Operand>, kind: Option<RegType>) -> bool
    ensures { result ≡ spec.gives regs.now value kind }
{
    match (value, kind) {
        (Some(value), Some(kind)) => has(regs, value, kind),
        (None, None) => true,
        _ => false,
    }
}

/// Whether there are as many operands as types, and each has its type.
pub fn have(regs: &[RegType], operands: &[Operand], kinds: &[RegType]) -> bool
    ensures { result ≡ spec.have regs.now operands.now kinds.now }
{
    let mut rest = kinds;
    'each: for operand in operands {
        match rest.split_first() {
            Some((kind, more)) => {
                if !has(regs, *operand, *kind) {
                    return false;
                }
                rest = more;
            }
            None => {
                return false;
            }
        }
    }
    rest.is_empty()
}

fn is_equality(pred: Pred) -> bool
    ensures { result ≡ spec.is_equality pred }
{
    match pred {
        Pred::Eq | Pred::Ne => true,
        _ => false,
    }
}

/// Whether values of the types can be compared so.
pub fn compares(pred: Pred, a: RegType, b: RegType) -> bool
    ensures { result ≡ spec.compares pred a b }
{
    same_type(a, b) && (is_int(a) || is_equality(pred))
}

fn resizes(op: CastOp, from: u8, to: u8) -> bool
    ensures { result ≡ spec.resizes op from to }
{
    match op {
        CastOp::Trunc => to < from,
        CastOp::Zext | CastOp::Sext => from < to,
    }
}

/// Whether a number of the first type becomes one of the second so.
pub fn casts(op: CastOp, from: RegType, to: RegType) -> bool
    ensures { result ≡ spec.casts op from to }
{
    match (from, to) {
        (RegType::Int(from), RegType::Int(to)) => resizes(op, from, to),
        _ => false,
    }
}

fn is_indexed(regs: &[RegType], part: &GepPart) -> bool
    ensures { result ≡ spec.is_indexed regs.now part.now }
{
    match part {
        GepPart::Field { .. } => true,
        GepPart::Index { index, .. } => is_int(type_of(regs, *index)),
    }
}

/// Whether each index of a pointer's parts is a number.
pub fn are_indexed(regs: &[RegType], parts: &[GepPart]) -> bool
    ensures { result ≡ spec.are_indexed regs.now parts.now }
{
    'each: for part in parts {
        if !is_indexed(regs, part) {
            return false;
        }
    }
    true
}

/// Whether each register is set to a value of its type.
pub fn are_moved(regs: &[RegType], moved: &[MoveSet]) -> bool
    ensures { result ≡ spec.are_moved regs.now moved.now }
{
    'each: for set in moved {
        if !has(regs, set.value, type_at(regs, set.register)) {
            return false;
        }
    }
    true
}

/// Whether each case is a number of the type.
pub fn are_cases(kind: RegType, cases: &[SwitchCase]) -> bool
    ensures { result ≡ spec.are_cases kind cases.now }
{
    'each: for case in cases {
        if !same_type(RegType::Int(case.number.width()), kind) {
            return false;
        }
    }
    true
}
