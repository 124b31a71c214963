//! Operations, and the tests of divisions.
ghost use Rattle.std.specs.Prelude.{◌≡◌, ◌≤◌, length, IfOk};
ghost use Rattle.leaves.specs.Fitting.{IsTerm};
ghost use Rattle.sym_states.specs.Attempts as attempts;
ghost use Rattle.sym_states.specs.Terms as values;
ghost use Rattle.state_laws.specs.Kept.{IsFitting, StateFitsAt, FlowFits, OperandFits};
ghost use Rattle.state_sides.specs.Views.{context_of, state_seen, step_seen, flow_seen};

use crate::making::gives_term;
use bitnum::BinOp;
use decider::Decide;
use flat_ir::{FaultKind, Operand, RegId};
use node_values::{calculated, has_quotient, is_nonzero};
use places::Home;
use state_sides::{Flow, Machine, State, Step};
use std::alloc::AllocError;
use step_parts::{must, number};
use terms::Term;
use write_log::SymMemory;

// The test of a divisor.
fn divides_by<H: Home, K: SymMemory, D: Decide>(
    machine: &Machine<'_, H, D>,
    b: &Term<H>,
    state: State<H, K>,
) -> Result<Flow<H, K, State<H, K>>, AllocError>
    requires budget { 1 ≤ machine.now.scope.budget }
    requires fitting { IsFitting (context_of machine.now.scope) }
    requires fits { StateFitsAt (length state.kept) (state_seen state) }
    requires divisor { IsTerm (length state.kept) b.now }
    ensures value { IfOk result (λ flow. flow_seen state_seen flow ≡ attempts.divides_by (context_of machine.now.scope) b.now (state_seen state)) }
    ensures fits { IfOk result (λ flow. FlowFits (length state.kept) (StateFitsAt (length state.kept)) (flow_seen state_seen flow)) }
{
    let holds = is_nonzero(machine.terms, b)?;
    must(machine, &holds, FaultKind::DivideByZero, state)
}

// The test of a signed quotient.
fn tests_quotient<H: Home, K: SymMemory, D: Decide>(
    machine: &Machine<'_, H, D>,
    a: &Term<H>,
    b: &Term<H>,
    state: State<H, K>,
) -> Result<Flow<H, K, State<H, K>>, AllocError>
    requires budget { 1 ≤ machine.now.scope.budget }
    requires fitting { IsFitting (context_of machine.now.scope) }
    requires fits { StateFitsAt (length state.kept) (state_seen state) }
    requires dividend { IsTerm (length state.kept) a.now }
    requires divisor { IsTerm (length state.kept) b.now }
    ensures { IfOk result (λ flow. flow_seen state_seen flow ≡ attempts.must (context_of machine.now.scope) (values.has_quotient a.now b.now) FaultKind.DivideOverflow (state_seen state)) }
{
    let holds = has_quotient(machine.terms, a, b)?;
    must(machine, &holds, FaultKind::DivideOverflow, state)
}

// Both tests of a signed division.
fn divides_signed<H: Home, K: SymMemory, D: Decide>(
    machine: &Machine<'_, H, D>,
    a: &Term<H>,
    b: &Term<H>,
    state: State<H, K>,
) -> Result<Flow<H, K, State<H, K>>, AllocError>
    requires budget { 1 ≤ machine.now.scope.budget }
    requires fitting { IsFitting (context_of machine.now.scope) }
    requires fits { StateFitsAt (length state.kept) (state_seen state) }
    requires dividend { IsTerm (length state.kept) a.now }
    requires divisor { IsTerm (length state.kept) b.now }
    ensures { IfOk result (λ flow. flow_seen state_seen flow ≡ attempts.divides_signed (context_of machine.now.scope) a.now b.now (state_seen state)) }
{
    let flow = divides_by(machine, b, state)?;
    match flow {
        Flow::On(state) => tests_quotient(machine, a, b, state),
        Flow::Over(step) => Ok(Flow::Over(step)),
    }
}

/// The tests of an operation on two terms over the bytes of the kept input: those of the divisions.
///
/// # Errors
///
/// No memory.
pub fn divides<H: Home, K: SymMemory, D: Decide>(
    machine: &Machine<'_, H, D>,
    op: BinOp,
    a: &Term<H>,
    b: &Term<H>,
    state: State<H, K>,
) -> Result<Flow<H, K, State<H, K>>, AllocError>
    requires budget { 1 ≤ machine.now.scope.budget }
    requires fitting { IsFitting (context_of machine.now.scope) }
    requires fits { StateFitsAt (length state.kept) (state_seen state) }
    requires dividend { IsTerm (length state.kept) a.now }
    requires divisor { IsTerm (length state.kept) b.now }
    ensures { IfOk result (λ flow. flow_seen state_seen flow ≡ attempts.divides (context_of machine.now.scope) op a.now b.now (state_seen state)) }
{
    match op {
        BinOp::Udiv => divides_by(machine, b, state),
        BinOp::Urem => divides_by(machine, b, state),
        BinOp::Sdiv => divides_signed(machine, a, b, state),
        BinOp::Srem => divides_signed(machine, a, b, state),
        _ => Ok(Flow::On(state)),
    }
}

/// An operation on two operands, behind its tests.
///
/// # Errors
///
/// No memory, or a count past its bound.
pub fn computes<H: Home, K: SymMemory, D: Decide>(
    machine: &Machine<'_, H, D>,
    op: BinOp,
    a: &Operand,
    b: &Operand,
    register: RegId,
    state: State<H, K>,
) -> Result<Step<H, K>, AllocError>
    requires budget { 1 ≤ machine.now.scope.budget }
    requires fitting { IsFitting (context_of machine.now.scope) }
    requires fits { StateFitsAt (length state.kept) (state_seen state) }
    requires first { OperandFits a.now }
    requires second { OperandFits b.now }
    ensures { IfOk result (λ step. step_seen step ≡ attempts.computes (context_of machine.now.scope) op a.now b.now register (state_seen state)) }
{
    let x = number(machine.terms, &state, a)?;
    let y = number(machine.terms, &state, b)?;
    let value = calculated(machine.terms, op, &x, &y)?;
    let flow = divides(machine, op, &x, &y, state)?;
    match flow {
        Flow::On(state) => gives_term(machine, register, value, state),
        Flow::Over(step) => Ok(step),
    }
}
