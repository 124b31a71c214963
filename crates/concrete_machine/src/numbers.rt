//! Nodes that compute with numbers.
ghost use Rattle.std.specs.Prelude.{◌≡◌, ◌==◌, if◌then◌else◌, true, IfOk, List, ℕ};
ghost use Rattle.bitnum.specs.Number.{IsWidth};
ghost use Rattle.checks.specs.Types.{resizes};
ghost use Rattle.flat_ir.specs.declared.nodes.Node.TheVariants as node;
ghost use Rattle.flat_ir.specs.Machine.{value_in, type_at as register_type};
ghost use Rattle.flat_ir.specs.Registers as registers;
ghost use Rattle.flat_ir.specs.Steps as spec;
ghost use Rattle.flat_ir.specs.declared.program.ProgramData.{ProgramData};
ghost use Rattle.concrete_machine.specs.Frames.{frame_of};
ghost use Rattle.concrete_machine.specs.Standing.{Attempts, AttemptsAnywhere};
ghost use Rattle.concrete_machine.specs.Suiting.{number_here};
ghost use Rattle.typed_runs.specs.Suiting.{AreAlike, IsNumbers};

use crate::frames::{number_of, value_of};
use crate::machine::{Frame, Led, Machine};
use bitnum::{BinOp, Num, Pred, apply, compare, divide, sext, trunc, zext};
use flat_ir::{
    Address, CastOp, ConcreteValue, FaultKind, NodeId, Operand, ProgramData, RegId, RegType,
    type_at,
};
use std::alloc::AllocError;

// The fault of a quotient by 0.
fn by_zero(b: Num) -> Option<FaultKind>
    ensures { result ≡ spec.by_zero b }
{
    if b.bits() == 0 {
        Some(FaultKind::DivideByZero)
    } else {
        None
    }
}

// The fault of a signed quotient.
fn by_zero_or_overflow(a: Num, b: Num) -> Option<FaultKind>
    requires { a.width ≡ b.width }
    ensures { result ≡ spec.by_zero_or_overflow a b }
{
    if b.bits() == 0 {
        return Some(FaultKind::DivideByZero);
    }
    match divide(BinOp::Sdiv, a, b) {
        Some(_) => None,
        None => Some(FaultKind::DivideOverflow),
    }
}

// The fault of an operation, where it is a division that has one.
fn division_fault(op: BinOp, a: Num, b: Num) -> Option<FaultKind>
    requires { a.width ≡ b.width }
    ensures { result ≡ spec.division_fault op a b }
{
    match op {
        BinOp::Udiv => by_zero(b),
        BinOp::Urem => by_zero(b),
        BinOp::Sdiv => by_zero_or_overflow(a, b),
        BinOp::Srem => by_zero_or_overflow(a, b),
        _ => None,
    }
}

fn is_same_address(a: &Address, b: &Address) -> bool
    ensures { result ≡ registers.same_address a.now b.now }
{
    match (&a.base, &b.base) {
        (None, None) => a.offset == b.offset,
        (Some(x), Some(y)) => x == y && a.offset == b.offset,
        _ => false,
    }
}

// How two pointers compare.
fn are_related(pred: Pred, a: &Address, b: &Address) -> bool
    ensures { result ≡ spec.pointers_related pred a.now b.now }
{
    match pred {
        Pred::Eq => is_same_address(a, b),
        _ => !is_same_address(a, b),
    }
}

// How two values compare.
fn related(pred: Pred, a: &ConcreteValue, b: &ConcreteValue) -> bool
    requires { AreAlike a.now b.now }
    ensures { result ≡ spec.related pred a.now b.now }
{
    match (a, b) {
        (ConcreteValue::Int(a), ConcreteValue::Int(b)) => compare(pred, *a, *b),
        (ConcreteValue::Ptr(a), ConcreteValue::Ptr(b)) => are_related(pred, a, b),
        _ => false,
    }
}

// The number of one bit that says whether something holds.
fn bit(holds: bool) -> ConcreteValue
    ensures { result ≡ spec.bit holds }
{
    let bits = if holds { 1 } else { 0 };
    ConcreteValue::Int(Num::new(1, bits))
}

// How many bits the numbers of a type have.
fn width_of(of: RegType) -> u8
    ensures { result ≡ spec.width_of of }
{
    match of {
        RegType::Int(width) => width,
        RegType::Ptr => 64,
    }
}

// A number in another width.
fn cast_to(op: CastOp, width: u8, a: Num) -> Num
    requires width_is { IsWidth width }
    requires resizes { resizes op a.width width ≡ true }
    ensures { result ≡ spec.cast_to op width a }
{
    match op {
        CastOp::Trunc => trunc(a, width),
        CastOp::Zext => zext(a, width),
        CastOp::Sext => sext(a, width),
    }
}

// One of two values.
fn chosen(
    frame: &Frame,
    condition: &Operand,
    a: &Operand,
    b: &Operand,
) -> Result<ConcreteValue, AllocError>
    ensures { IfOk result (λ v. v ≡ (if (registers.number (value_in (frame_of frame.now) condition.now)).bits == 1 then value_in (frame_of frame.now) a.now else value_in (frame_of frame.now) b.now)) }
{
    if number_of(frame, condition).bits() == 1 {
        value_of(frame, a)
    } else {
        value_of(frame, b)
    }
}

impl Machine {
    /// An operation on two numbers.
    pub(crate) fn bin(
        &mut self,
        op: BinOp,
        a: &Operand,
        b: &Operand,
        register: RegId,
        next: NodeId,
    ) -> Led
        requires { (number_here self.old a.now).width ≡ (number_here self.old b.now).width }
        ensures { AttemptsAnywhere (node.Bin op a.now b.now register next) self.old self.new result }
    {
        let left = number_of(&self.frame, a);
        let right = number_of(&self.frame, b);
        match division_fault(op, left, right) {
            Some(kind) => Led::Faulted(kind),
            None => {
                self.give(register, ConcreteValue::Int(apply(op, left, right)), next);
                Led::On
            }
        }
    }

    /// A comparison of two values.
    pub(crate) fn cmp(
        &mut self,
        pred: Pred,
        a: &Operand,
        b: &Operand,
        register: RegId,
        next: NodeId,
    ) -> Result<Led, AllocError>
        requires { AreAlike (value_in (frame_of self.old.frame) a.now) (value_in (frame_of self.old.frame) b.now) }
        ensures { IfOk result (AttemptsAnywhere (node.Cmp pred a.now b.now register next) self.old self.new) }
    {
        let left = value_of(&self.frame, a)?;
        let right = value_of(&self.frame, b)?;
        let holds = related(pred, &left, &right);
        self.give(register, bit(holds), next);
        Ok(Led::On)
    }

    /// A number in the width of the register.
    pub(crate) fn cast(
        &mut self,
        program: &ProgramData,
        op: CastOp,
        a: &Operand,
        register: RegId,
        next: NodeId,
    ) -> Led
        requires numbers { IsNumbers (register_type program.now self.old.frame.func register) }
        requires resizes { resizes op (number_here self.old a.now).width (spec.width_of (register_type program.now self.old.frame.func register)) ≡ true }
        ensures { (input : List ℕ) → Attempts program.now input (node.Cast op a.now register next) self.old self.new result }
    {
        let width = width_of(type_at(program, self.frame.func, register));
        let number = cast_to(op, width, number_of(&self.frame, a));
        self.give(register, ConcreteValue::Int(number), next);
        Led::On
    }

    /// One of two values.
    pub(crate) fn select(
        &mut self,
        condition: &Operand,
        a: &Operand,
        b: &Operand,
        register: RegId,
        next: NodeId,
    ) -> Result<Led, AllocError>
        ensures { IfOk result (AttemptsAnywhere (node.Select condition.now a.now b.now register next) self.old self.new) }
    {
        let value = chosen(&self.frame, condition, a, b)?;
        self.give(register, value, next);
        Ok(Led::On)
    }
}
