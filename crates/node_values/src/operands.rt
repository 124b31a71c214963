//! Operands' values, with recovered results in place of pending ones.
ghost use Rattle.std.specs.Prelude.{◌≡◌, Some, IfOk, slice_get};
ghost use Rattle.sym_states.specs.Terms as spec;

use crate::numbers::{null, pointer_to, wide};
use flat_ir::{ObjectName, Operand};
use places::Home;
use plain_list::Sequence;
use skip_records::Snapshot;
use std::alloc::{AllocError, Global};
use sym_bytes::{Base, CallId, Pointer, SymValue, ValueKind, put_call};
use terms::{Term, Terms, constant};

/// What the call returned, where that is recovered, in place of its pending result.
///
/// # Errors
///
/// No memory.
pub fn with_result<H: Home>(
    snapshot: &Snapshot<H>,
    value: SymValue<H>,
) -> Result<SymValue<H>, AllocError>
    ensures { IfOk result (λ v. v ≡ spec.with_result snapshot.now value) }
{
    let ValueKind::Pending(call, _) = value.kind() else {
        return Ok(value);
    };
    if call.0 != snapshot.call().0 {
        return Ok(value);
    }
    match snapshot.result() {
        Some(returned) => returned.copy(),
        None => Ok(value),
    }
}

/// The value with recovered results in place of pending ones. The snapshots stand in the order of their calls, the oldest first.
///
/// # Errors
///
/// No memory.
pub fn resolved<H: Home>(
    snapshots: &[Snapshot<H>],
    value: SymValue<H>,
) -> Result<SymValue<H>, AllocError>
    ensures { IfOk result (λ v. v ≡ spec.resolved snapshots.now value) }
{
    let mut made = value;
    let mut rest = snapshots;
    'older: while let Some((newest, older)) = rest.split_last() {
        made = with_result(newest, made)?;
        rest = older;
    }
    Ok(made)
}

fn or_null<H: Home>(
    terms: &Terms<H>,
    register: &Option<SymValue<H>>,
) -> Result<SymValue<H>, AllocError>
    ensures { IfOk result (λ v. v ≡ spec.set_or_null (Some register.now)) }
{
    match register {
        Some(value) => value.copy(),
        None => null(terms),
    }
}

// What a register holds, or null.
fn held<H: Home>(
    terms: &Terms<H>,
    regs: &[Option<SymValue<H>>],
    at: usize,
) -> Result<SymValue<H>, AllocError>
    ensures { IfOk result (λ v. v ≡ spec.set_or_null (slice_get regs.now at)) }
{
    match regs.get(at) {
        Some(register) => or_null(terms, register),
        None => null(terms),
    }
}

/// An operand's value as it stands in registers. A register that isn't set is null.
///
/// # Errors
///
/// No memory.
pub fn raw_in<H: Home>(
    terms: &Terms<H>,
    regs: &[Option<SymValue<H>>],
    operand: &Operand,
) -> Result<SymValue<H>, AllocError>
    ensures { IfOk result (λ v. v ≡ spec.raw_in regs.now operand.now) }
{
    match operand {
        Operand::Reg(register) => held(terms, regs, register.0 as usize),
        Operand::Int(number) => Ok(SymValue::int(constant(terms, *number)?)),
        Operand::Null => null(terms),
        Operand::Global { global, offset } => {
            pointer_to(terms, ObjectName::Global(*global), *offset)
        }
    }
}

/// An operand's value, with recovered results in place of pending ones.
///
/// # Errors
///
/// No memory.
pub fn value_in<H: Home>(
    terms: &Terms<H>,
    snapshots: &[Snapshot<H>],
    regs: &[Option<SymValue<H>>],
    operand: &Operand,
) -> Result<SymValue<H>, AllocError>
    ensures { IfOk result (λ v. v ≡ spec.resolved snapshots.now (spec.raw_in regs.now operand.now)) }
{
    let raw = raw_in(terms, regs, operand)?;
    resolved(snapshots, raw)
}

/// The term of a value. One of a pointer or of a pending result is 0 in 64 bits.
///
/// # Errors
///
/// No memory.
pub fn term_in<H: Home>(terms: &Terms<H>, value: &SymValue<H>) -> Result<Term<H>, AllocError>
    ensures { IfOk result (λ t. t ≡ spec.term_in value.now) }
{
    match value.kind() {
        ValueKind::Int(t) => t.copy(),
        ValueKind::Ptr(_) => wide(terms, 0),
        ValueKind::Pending(_, _) => wide(terms, 0),
    }
}

fn no_pointer<H: Home>(terms: &Terms<H>) -> Result<Pointer<H>, AllocError>
    ensures { IfOk result (λ p. p ≡ spec.no_pointer) }
{
    Ok(Pointer::new(Base::Null, wide(terms, 0)?))
}

/// The pointer of a value. One of a number or of a pending result is null.
///
/// # Errors
///
/// No memory.
pub fn pointer_in<H: Home>(terms: &Terms<H>, value: &SymValue<H>) -> Result<Pointer<H>, AllocError>
    ensures { IfOk result (λ p. p ≡ spec.pointer_in value.now) }
{
    match value.kind() {
        ValueKind::Int(_) => no_pointer(terms),
        ValueKind::Ptr(p) => p.copy(),
        ValueKind::Pending(_, _) => no_pointer(terms),
    }
}

/// The term of an operand.
///
/// # Errors
///
/// No memory.
pub fn number_in<H: Home>(
    terms: &Terms<H>,
    snapshots: &[Snapshot<H>],
    regs: &[Option<SymValue<H>>],
    operand: &Operand,
) -> Result<Term<H>, AllocError>
    ensures { IfOk result (λ t. t ≡ spec.term_in (spec.resolved snapshots.now (spec.raw_in regs.now operand.now))) }
{
    let value = value_in(terms, snapshots, regs, operand)?;
    term_in(terms, &value)
}

/// The pointer of an operand.
///
/// # Errors
///
/// No memory.
pub fn address_in<H: Home>(
    terms: &Terms<H>,
    snapshots: &[Snapshot<H>],
    regs: &[Option<SymValue<H>>],
    operand: &Operand,
) -> Result<Pointer<H>, AllocError>
    ensures { IfOk result (λ p. p ≡ spec.pointer_in (spec.resolved snapshots.now (spec.raw_in regs.now operand.now))) }
{
    let value = value_in(terms, snapshots, regs, operand)?;
    pointer_in(terms, &value)
}

/// The calls, and the one whose result the value is, if that is pending.
///
/// # Errors
///
/// No memory.
pub fn put_pending<H: Home>(
    alloc: Global,
    value: &SymValue<H>,
    calls: Sequence<CallId>,
) -> Result<Sequence<CallId>, AllocError>
    ensures { IfOk result (λ list. list ≡ spec.put_pending value.now calls) }
{
    match value.kind() {
        ValueKind::Pending(call, _) => put_call(alloc, *call, calls.as_slice()),
        _ => Ok(calls),
    }
}
