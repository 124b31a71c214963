//! Numbers and pointers that nodes make.
ghost use Rattle.std.specs.Prelude.{◌≡◌, Some, IfOk};
ghost use Rattle.flat_ir.specs.Steps as steps;
ghost use Rattle.terms.specs.Tree.{width_of};
ghost use Rattle.sym_states.specs.Attempts as attempts;
ghost use Rattle.sym_states.specs.States.{gives};
ghost use Rattle.sym_states.specs.Terms as spec;
ghost use Rattle.state_sides.specs.Views.{context_of, state_seen, step_seen};

use bitnum::Pred;
use decider::Decide;
use flat_ir::{CastOp, GepPart, Operand, RegId, RegType};
use node_values::{behind, cast_to, compared_values, moved_by_index};
use places::Home;
use state_sides::{Machine, State, Step, type_at};
use std::alloc::AllocError;
use step_parts::{address, number, value};
use sym_bytes::{Pointer, SymValue};
use terms::{Term, Terms};
use write_log::{Index, SymMemory};

/// The node gives a value to its register.
///
/// # Errors
///
/// No memory, or a count past its bound.
pub(crate) fn gives_value<H: Home, K: Index, D: Decide>(
    machine: &Machine<'_, H, D>,
    register: RegId,
    value: SymValue<H>,
    state: State<H, K>,
) -> Result<Step<H, K>, AllocError>
    ensures { IfOk result (λ step. step_seen step ≡ gives (context_of machine.now.scope) (Some register) (Some value) (state_seen state)) }
{
    match machine.done(Some(register), Some(value), state) {
        Ok(next) => Ok(Step::Goes(next)),
        Err(error) => Err(error),
    }
}

/// The node gives a term to its register.
///
/// # Errors
///
/// No memory, or a count past its bound.
pub fn gives_term<H: Home, K: SymMemory, D: Decide>(
    machine: &Machine<'_, H, D>,
    register: RegId,
    term: Term<H>,
    state: State<H, K>,
) -> Result<Step<H, K>, AllocError>
    ensures { IfOk result (λ step. step_seen step ≡ attempts.gives_term (context_of machine.now.scope) register term (state_seen state)) }
{
    let value = SymValue::int(term);
    Ok(Step::Goes(machine.done(Some(register), Some(value), state)?))
}

// A comparison of two operands of a state.
fn compared<H: Home, K: Index>(
    terms: &Terms<H>,
    state: &State<H, K>,
    pred: Pred,
    a: &Operand,
    b: &Operand,
) -> Result<Term<H>, AllocError>
    ensures { IfOk result (λ t. t ≡ spec.compared_values pred (spec.value_in (state_seen state.now) a.now) (spec.value_in (state_seen state.now) b.now)) }
{
    let x = value(terms, state, a)?;
    let y = value(terms, state, b)?;
    compared_values(terms, pred, &x, &y)
}

/// A comparison of two operands.
///
/// # Errors
///
/// No memory, or a count past its bound.
pub fn compares<H: Home, K: SymMemory, D: Decide>(
    machine: &Machine<'_, H, D>,
    pred: Pred,
    a: &Operand,
    b: &Operand,
    register: RegId,
    state: State<H, K>,
) -> Result<Step<H, K>, AllocError>
    ensures { IfOk result (λ step. step_seen step ≡ attempts.compares (context_of machine.now.scope) pred a.now b.now register (state_seen state)) }
{
    match compared(machine.terms, &state, pred, a, b) {
        Ok(holds) => gives_term(machine, register, holds, state),
        Err(error) => {
            drop(state);
            Err(error)
        }
    }
}

// How many bits a register of the type has; a pointer has those of an address.
fn width_of_type(of: RegType) -> u8
    ensures { result ≡ steps.width_of of }
{
    match of {
        RegType::Int(width) => width,
        RegType::Ptr => 64,
    }
}

// An operand of a state in the width of a type.
fn cast_operand<H: Home, K: Index>(
    terms: &Terms<H>,
    state: &State<H, K>,
    op: CastOp,
    a: &Operand,
    of: RegType,
) -> Result<Term<H>, AllocError>
    ensures { IfOk result (λ t. t ≡ spec.cast_to op (steps.width_of of) (spec.number_in (state_seen state.now) a.now)) }
{
    let x = number(terms, state, a)?;
    cast_to(terms, op, width_of_type(of), &x)
}

/// An operand in the width of the node's register.
///
/// # Errors
///
/// No memory, or a count past its bound.
pub fn casts<H: Home, K: SymMemory, D: Decide>(
    machine: &Machine<'_, H, D>,
    op: CastOp,
    a: &Operand,
    register: RegId,
    state: State<H, K>,
) -> Result<Step<H, K>, AllocError>
    ensures { IfOk result (λ step. step_seen step ≡ attempts.casts (context_of machine.now.scope) op a.now register (state_seen state)) }
{
    let of = type_at(machine.scope.program, state.frame.func(), register);
    match cast_operand(machine.terms, &state, op, a, of) {
        Ok(cast) => gives_term(machine, register, cast, state),
        Err(error) => {
            drop(state);
            Err(error)
        }
    }
}

// An offset moved by a part.
fn moved_by<H: Home, K: Index>(
    terms: &Terms<H>,
    state: &State<H, K>,
    offset: &Term<H>,
    part: &GepPart,
) -> Result<Term<H>, AllocError>
    requires { width_of offset.now ≡ 64 }
    ensures value { IfOk result (λ t. t ≡ spec.moved_by (state_seen state.now) offset.now part.now) }
    ensures width { IfOk result (λ t. width_of t ≡ 64) }
{
    match part {
        GepPart::Field { offset: by } => behind(terms, offset, *by),
        GepPart::Index { scale, index } => {
            let times = number(terms, state, index)?;
            moved_by_index(terms, offset, *scale, &times)
        }
    }
}

// An offset moved by parts, one after another.
fn moved_by_all<H: Home, K: Index>(
    terms: &Terms<H>,
    state: &State<H, K>,
    offset: &Term<H>,
    parts: &[GepPart],
) -> Result<Term<H>, AllocError>
    requires { width_of offset.now ≡ 64 }
    ensures value { IfOk result (λ t. t ≡ spec.moved_by_all (state_seen state.now) offset.now parts.now) }
    ensures width { IfOk result (λ t. width_of t ≡ 64) }
{
    let mut moved = offset.copy()?;
    'moves: for part in parts {
        moved = moved_by(terms, state, &moved, part)?;
    }
    Ok(moved)
}

// The pointer of an operand, moved by parts.
fn placed<H: Home, K: Index>(
    terms: &Terms<H>,
    state: &State<H, K>,
    base: &Operand,
    parts: &[GepPart],
) -> Result<Pointer<H>, AllocError>
    ensures { IfOk result (λ p. p ≡ record { base = (spec.address_in (state_seen state.now) base.now).base; offset = spec.moved_by_all (state_seen state.now) (spec.address_in (state_seen state.now) base.now).offset parts.now }) }
{
    let pointer = address(terms, state, base)?;
    let offset = moved_by_all(terms, state, pointer.offset(), parts)?;
    Ok(Pointer::new(pointer.base().copy()?, offset))
}

/// A pointer moved by fields and by indexes.
///
/// # Errors
///
/// No memory, or a count past its bound.
pub fn places<H: Home, K: SymMemory, D: Decide>(
    machine: &Machine<'_, H, D>,
    base: &Operand,
    parts: &[GepPart],
    register: RegId,
    state: State<H, K>,
) -> Result<Step<H, K>, AllocError>
    ensures { IfOk result (λ step. step_seen step ≡ attempts.places (context_of machine.now.scope) base.now parts.now register (state_seen state)) }
{
    let pointer = placed(machine.terms, &state, base, parts)?;
    let value = SymValue::ptr(pointer);
    Ok(Step::Goes(machine.done(Some(register), Some(value), state)?))
}
