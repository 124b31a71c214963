//! Stores, and copies of single bytes.
ghost use Rattle.std.specs.Prelude.{◌≡◌, ◌≤◌, IfOk, length};
ghost use Rattle.leaves.specs.Fitting.{IsTermOf};
ghost use Rattle.terms.specs.Tree.{width_of};
ghost use Rattle.sym_states.specs.Attempts as attempts;
ghost use Rattle.sym_states.specs.States.{then_flow, then_step};
ghost use Rattle.sym_states.specs.Terms.{bytes_of_value, stored_bytes};
ghost use Rattle.state_laws.specs.Kept.{IsFitting, OperandFits, StateFitsAt, FlowFits, ReadBytesFits, ValueFitsAt};
ghost use Rattle.state_sides.specs.Views.{context_of, state_seen, step_seen, flow_seen};
ghost use Rattle.memory_steps.specs.Views.{reached_seen, bytes_seen};

use crate::accesses::{Reached, access};
use crate::reading::{ReadBytes, reads};
use decider::Decide;
use flat_ir::Operand;
use node_values::{bytes_of_value, stored_bytes};
use places::Home;
use plain_list::Sequence;
use state_sides::{Flow, Machine, State, Step};
use std::alloc::AllocError;
use step_parts::address;
use sym_bytes::{Entry, Pointer, SymByte, SymValue};
use write_log::SymMemory;

/// The write of at most 8 bytes to an object and an offset that may be accessed.
///
/// # Errors
///
/// No memory, or a count past its bound.
pub fn writes<H: Home, K: SymMemory, D: Decide>(
    machine: &Machine<'_, H, D>,
    bytes: Sequence<SymByte<H>>,
    reached: Reached<H, K>,
) -> Result<Step<H, K>, AllocError>
    requires few { length bytes ≤ 8 }
    requires wide { width_of reached.offset ≡ 64 }
    ensures { IfOk result (λ step. step_seen step ≡ attempts.writes (context_of machine.now.scope) bytes (reached_seen reached)) }
{
    let Reached {
        object,
        offset,
        mut state,
    } = reached;
    K::append(&mut state.memory, Entry::write(object, offset, bytes))?;
    let state = machine.done(None, None, state)?;
    Ok(Step::Goes(state))
}

/// The write of a byte that was read, as it is, behind the tests of its access.
///
/// # Errors
///
/// No memory, or a count past its bound.
pub fn copies<H: Home, K: SymMemory, D: Decide>(
    machine: &Machine<'_, H, D>,
    there: &Pointer<H>,
    read: ReadBytes<H, K>,
) -> Result<Step<H, K>, AllocError>
    requires budget { 1 ≤ machine.now.scope.budget }
    requires fitting { IsFitting (context_of machine.now.scope) }
    requires fits { ReadBytesFits (length read.state.kept) 1 (bytes_seen read) }
    requires there { IsTermOf (length read.state.kept) 64 there.now.offset }
    ensures { IfOk result (λ step. step_seen step ≡ attempts.copies (context_of machine.now.scope) there.now (bytes_seen read)) }
{
    let ReadBytes { bytes, state } = read;
    let flow = access(machine, 1, there, state)?;
    match flow {
        Flow::On(reached) => writes(machine, bytes, reached),
        Flow::Over(step) => Ok(step),
    }
}

// A value is written at a pointer.
fn stores<H: Home, K: SymMemory, D: Decide>(
    machine: &Machine<'_, H, D>,
    value: &SymValue<H>,
    there: &Pointer<H>,
    state: State<H, K>,
) -> Result<Step<H, K>, AllocError>
    requires budget { 1 ≤ machine.now.scope.budget }
    requires fitting { IsFitting (context_of machine.now.scope) }
    requires fits { StateFitsAt (length state.kept) (state_seen state) }
    requires value { ValueFitsAt (length state.kept) value.now }
    requires there { IsTermOf (length state.kept) 64 there.now.offset }
    ensures { IfOk result (λ step. step_seen step ≡ then_step (attempts.access (context_of machine.now.scope) (bytes_of_value value.now) there.now (state_seen state)) (attempts.writes (context_of machine.now.scope) (stored_bytes value.now))) }
{
    let bytes = stored_bytes(machine.terms, value)?;
    let flow = access(machine, bytes_of_value(value), there, state)?;
    match flow {
        Flow::On(reached) => writes(machine, bytes, reached),
        Flow::Over(step) => Ok(step),
    }
}

/// The store of an operand at an operand's pointer.
///
/// # Errors
///
/// No memory, or a count past its bound.
pub fn stores_at<H: Home, K: SymMemory, D: Decide>(
    machine: &Machine<'_, H, D>,
    value: &Operand,
    pointer: &Operand,
    state: State<H, K>,
) -> Result<Step<H, K>, AllocError>
    requires budget { 1 ≤ machine.now.scope.budget }
    requires fitting { IsFitting (context_of machine.now.scope) }
    requires fits { StateFitsAt (length state.kept) (state_seen state) }
    requires value { OperandFits value.now }
    requires pointer { OperandFits pointer.now }
    ensures { IfOk result (λ step. step_seen step ≡ attempts.stores_at (context_of machine.now.scope) value.now pointer.now (state_seen state)) }
{
    let stored = step_parts::value(machine.terms, &state, value)?;
    let there = address(machine.terms, &state, pointer)?;
    stores(machine, &stored, &there, state)
}

// The byte at a pointer.
fn reads_byte<H: Home, K: SymMemory, D: Decide>(
    machine: &Machine<'_, H, D>,
    from: &Pointer<H>,
    state: State<H, K>,
) -> Result<Flow<H, K, ReadBytes<H, K>>, AllocError>
    requires budget { 1 ≤ machine.now.scope.budget }
    requires fitting { IsFitting (context_of machine.now.scope) }
    requires fits { StateFitsAt (length state.kept) (state_seen state) }
    requires from { IsTermOf (length state.kept) 64 from.now.offset }
    ensures value { IfOk result (λ flow. flow_seen bytes_seen flow ≡ then_flow (attempts.access (context_of machine.now.scope) 1 from.now (state_seen state)) (attempts.reads (context_of machine.now.scope) 1)) }
    ensures fits { IfOk result (λ flow. FlowFits (length state.kept) (ReadBytesFits (length state.kept) 1) (flow_seen bytes_seen flow)) }
{
    let flow = access(machine, 1, from, state)?;
    match flow {
        Flow::On(reached) => reads(machine, 1, reached),
        Flow::Over(step) => Ok(Flow::Over(step)),
    }
}

// The byte at a pointer is written at another.
fn copies_at<H: Home, K: SymMemory, D: Decide>(
    machine: &Machine<'_, H, D>,
    from: &Pointer<H>,
    there: &Pointer<H>,
    state: State<H, K>,
) -> Result<Step<H, K>, AllocError>
    requires budget { 1 ≤ machine.now.scope.budget }
    requires fitting { IsFitting (context_of machine.now.scope) }
    requires fits { StateFitsAt (length state.kept) (state_seen state) }
    requires from { IsTermOf (length state.kept) 64 from.now.offset }
    requires there { IsTermOf (length state.kept) 64 there.now.offset }
    ensures { IfOk result (λ step. step_seen step ≡ then_step (then_flow (attempts.access (context_of machine.now.scope) 1 from.now (state_seen state)) (attempts.reads (context_of machine.now.scope) 1)) (attempts.copies (context_of machine.now.scope) there.now)) }
{
    let flow = reads_byte(machine, from, state)?;
    match flow {
        Flow::On(read) => copies(machine, there, read),
        Flow::Over(step) => Ok(step),
    }
}

/// The copy of the byte at an operand's pointer to another's.
///
/// # Errors
///
/// No memory, or a count past its bound.
pub fn copies_from<H: Home, K: SymMemory, D: Decide>(
    machine: &Machine<'_, H, D>,
    from: &Operand,
    there: &Operand,
    state: State<H, K>,
) -> Result<Step<H, K>, AllocError>
    requires budget { 1 ≤ machine.now.scope.budget }
    requires fitting { IsFitting (context_of machine.now.scope) }
    requires fits { StateFitsAt (length state.kept) (state_seen state) }
    requires from { OperandFits from.now }
    requires there { OperandFits there.now }
    ensures { IfOk result (λ step. step_seen step ≡ attempts.copies_from (context_of machine.now.scope) from.now there.now (state_seen state)) }
{
    let source = address(machine.terms, &state, from)?;
    let target = address(machine.terms, &state, there)?;
    copies_at(machine, &source, &target, state)
}
