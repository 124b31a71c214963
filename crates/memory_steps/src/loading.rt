//! Loads.
ghost use Rattle.std.specs.Prelude.{◌≡◌, ◌≤◌, IfOk, length, map};
ghost use Rattle.flat_ir.specs.Registers.{bytes_of_type};
ghost use Rattle.leaves.specs.Fitting.{IsTermOf};
ghost use Rattle.sym_bytes.specs.Answers as answers;
ghost use Rattle.sym_bytes.specs.ShownAnswers.{join_of};
ghost use Rattle.sym_states.specs.Attempts as attempts;
ghost use Rattle.sym_states.specs.States.{then_flow, then_step};
ghost use Rattle.sym_states.specs.Terms.{byte_resolved, joined_as};
ghost use Rattle.state_laws.specs.Kept.{IsFitting, IsShortType, OperandFits, StateFitsAt, ReachedFits, ReadBytesFits, JoinFits};
ghost use Rattle.state_sides.specs.Views.{context_of, state_seen, step_seen, flow_seen};
ghost use Rattle.memory_steps.specs.Views.{reached_seen, bytes_seen, valued_seen};

use crate::accesses::{Reached, access};
use crate::reading::{ReadBytes, reads};
use decider::Decide;
use flat_ir::{FaultKind, Location, Operand, RegId, RegType};
use leaves::Event;
use node_values::{bytes_of_type, bytes_resolved, joined_as, null};
use places::Home;
use plain_list::Sequence;
use state_sides::{Flow, Machine, State, Step};
use std::alloc::AllocError;
use step_parts::{address, fails, must, unless_needed};
use sym_bytes::{CallId, Joined, Pointer, SymValue};
use terms::{Term, Terms};
use write_log::{Index, SymMemory};

/// A value that was made.
#[derive(Drop)]
pub struct Valued<H: Home, K: Index> {
    pub value: SymValue<H>,
    pub state: State<H, K>,
}

// A value that waits for the results of calls. None is needed where there are none, and the value is null.
fn joins_needed<H: Home, K: SymMemory, D: Decide>(
    machine: &Machine<'_, H, D>,
    calls: Sequence<CallId>,
    state: State<H, K>,
) -> Result<Flow<H, K, Valued<H, K>>, AllocError>
    ensures { IfOk result (λ flow. flow_seen valued_seen flow ≡ attempts.joins (context_of machine.now.scope) (answers.Needs calls) (state_seen state)) }
{
    let flow = unless_needed(machine.terms.alloc(), Location::Result, calls, state)?;
    match flow {
        Flow::On(state) => Ok(Flow::On(Valued {
            value: null(machine.terms)?,
            state,
        })),
        Flow::Over(step) => Ok(Flow::Over(step)),
    }
}

// A value where a test holds.
fn joins_tested<H: Home, K: SymMemory, D: Decide>(
    machine: &Machine<'_, H, D>,
    holds: &Term<H>,
    value: SymValue<H>,
    state: State<H, K>,
) -> Result<Flow<H, K, Valued<H, K>>, AllocError>
    requires budget { 1 ≤ machine.now.scope.budget }
    requires fitting { IsFitting (context_of machine.now.scope) }
    requires fits { StateFitsAt (length state.kept) (state_seen state) }
    requires truth { IsTermOf (length state.kept) 1 holds.now }
    ensures { IfOk result (λ flow. flow_seen valued_seen flow ≡ attempts.joins (context_of machine.now.scope) (answers.Test holds.now value) (state_seen state)) }
{
    let flow = must(machine, holds, FaultKind::MixedBytes, state)?;
    match flow {
        Flow::On(state) => Ok(Flow::On(Valued { value, state })),
        Flow::Over(step) => Ok(Flow::Over(step)),
    }
}

/// The value that bytes make.
///
/// # Errors
///
/// No memory.
pub fn joins<H: Home, K: SymMemory, D: Decide>(
    machine: &Machine<'_, H, D>,
    joined: Joined<H>,
    state: State<H, K>,
) -> Result<Flow<H, K, Valued<H, K>>, AllocError>
    requires budget { 1 ≤ machine.now.scope.budget }
    requires fitting { IsFitting (context_of machine.now.scope) }
    requires fits { StateFitsAt (length state.kept) (state_seen state) }
    requires join { JoinFits (length state.kept) (join_of joined) }
    ensures { IfOk result (λ flow. flow_seen valued_seen flow ≡ attempts.joins (context_of machine.now.scope) (join_of joined) (state_seen state)) }
{
    match joined {
        Joined::Value(value) => Ok(Flow::On(Valued { value, state })),
        Joined::Needs(calls) => joins_needed(machine, calls, state),
        Joined::Test(holds, value) => joins_tested(machine, &holds, value, state),
        Joined::Mixed => {
            let step = fails(machine.terms.alloc(), FaultKind::MixedBytes, state)?;
            Ok(Flow::Over(step))
        }
    }
}

// What bytes make of a type, with recovered results in place of pending ones.
fn joined_of<H: Home, K: SymMemory>(
    terms: &Terms<H>,
    of: RegType,
    read: &ReadBytes<H, K>,
) -> Result<Joined<H>, AllocError>
    requires short { IsShortType of }
    requires size { length read.now.bytes ≡ bytes_of_type of }
    ensures { IfOk result (λ joined. join_of joined ≡ joined_as of (map (byte_resolved read.now.state.snapshots) read.now.bytes)) }
{
    let snapshots = read.state.snapshots.as_slice();
    let bytes = bytes_resolved(terms, snapshots, read.bytes.as_slice())?;
    joined_as(terms, of, bytes.as_slice())
}

/// The value of a type that bytes make, with recovered results in place of pending ones.
///
/// # Errors
///
/// No memory.
pub fn join_read<H: Home, K: SymMemory, D: Decide>(
    machine: &Machine<'_, H, D>,
    of: RegType,
    read: ReadBytes<H, K>,
) -> Result<Flow<H, K, Valued<H, K>>, AllocError>
    requires budget { 1 ≤ machine.now.scope.budget }
    requires fitting { IsFitting (context_of machine.now.scope) }
    requires short { IsShortType of }
    requires fits { ReadBytesFits (length read.state.kept) (bytes_of_type of) (bytes_seen read) }
    ensures { IfOk result (λ flow. flow_seen valued_seen flow ≡ attempts.join_read (context_of machine.now.scope) of (bytes_seen read)) }
{
    let joined = joined_of(machine.terms, of, &read)?;
    let ReadBytes { bytes: _, state } = read;
    joins(machine, joined, state)
}

/// The load of a value: it is shown, and its register is set.
///
/// # Errors
///
/// No memory, or a count past its bound.
pub fn loaded<H: Home, K: SymMemory, D: Decide>(
    machine: &Machine<'_, H, D>,
    register: RegId,
    valued: Valued<H, K>,
) -> Result<Step<H, K>, AllocError>
    ensures { IfOk result (λ step. step_seen step ≡ attempts.loaded (context_of machine.now.scope) register (valued_seen valued)) }
{
    let Valued { value, mut state } = valued;
    let node = state.frame.place().node();
    let event = Event::load(state.frame.func(), node, value.copy()?);
    state.path = state.path.with(machine.terms.alloc(), event)?;
    let state = machine.done(Some(register), Some(value), state)?;
    Ok(Step::Goes(state))
}

// The value of a type that stands in an object at an offset.
fn reads_value<H: Home, K: SymMemory, D: Decide>(
    machine: &Machine<'_, H, D>,
    of: RegType,
    reached: Reached<H, K>,
) -> Result<Flow<H, K, Valued<H, K>>, AllocError>
    requires budget { 1 ≤ machine.now.scope.budget }
    requires fitting { IsFitting (context_of machine.now.scope) }
    requires short { IsShortType of }
    requires fits { ReachedFits (length reached.state.kept) (reached_seen reached) }
    ensures { IfOk result (λ flow. flow_seen valued_seen flow ≡ then_flow (attempts.reads (context_of machine.now.scope) (bytes_of_type of) (reached_seen reached)) (attempts.join_read (context_of machine.now.scope) of)) }
{
    let flow = reads(machine, bytes_of_type(of), reached)?;
    match flow {
        Flow::On(read) => join_read(machine, of, read),
        Flow::Over(step) => Ok(Flow::Over(step)),
    }
}

/// The load of a type from an object and an offset that may be accessed.
///
/// # Errors
///
/// No memory, or a count past its bound.
pub fn loads<H: Home, K: SymMemory, D: Decide>(
    machine: &Machine<'_, H, D>,
    register: RegId,
    of: RegType,
    reached: Reached<H, K>,
) -> Result<Step<H, K>, AllocError>
    requires budget { 1 ≤ machine.now.scope.budget }
    requires fitting { IsFitting (context_of machine.now.scope) }
    requires short { IsShortType of }
    requires fits { ReachedFits (length reached.state.kept) (reached_seen reached) }
    ensures { IfOk result (λ step. step_seen step ≡ attempts.loads (context_of machine.now.scope) register of (reached_seen reached)) }
{
    let flow = reads_value(machine, of, reached)?;
    match flow {
        Flow::On(valued) => loaded(machine, register, valued),
        Flow::Over(step) => Ok(step),
    }
}

fn loads_there<H: Home, K: SymMemory, D: Decide>(
    machine: &Machine<'_, H, D>,
    there: &Pointer<H>,
    register: RegId,
    of: RegType,
    state: State<H, K>,
) -> Result<Step<H, K>, AllocError>
    requires budget { 1 ≤ machine.now.scope.budget }
    requires fitting { IsFitting (context_of machine.now.scope) }
    requires fits { StateFitsAt (length state.kept) (state_seen state) }
    requires there { IsTermOf (length state.kept) 64 there.now.offset }
    requires short { IsShortType of }
    ensures { IfOk result (λ step. step_seen step ≡ then_step (attempts.access (context_of machine.now.scope) (bytes_of_type of) there.now (state_seen state)) (attempts.loads (context_of machine.now.scope) register of)) }
{
    let flow = access(machine, bytes_of_type(of), there, state)?;
    match flow {
        Flow::On(reached) => loads(machine, register, of, reached),
        Flow::Over(step) => Ok(step),
    }
}

/// The load of a type at an operand's pointer.
///
/// # Errors
///
/// No memory, or a count past its bound.
pub fn loads_at<H: Home, K: SymMemory, D: Decide>(
    machine: &Machine<'_, H, D>,
    pointer: &Operand,
    register: RegId,
    of: RegType,
    state: State<H, K>,
) -> Result<Step<H, K>, AllocError>
    requires budget { 1 ≤ machine.now.scope.budget }
    requires fitting { IsFitting (context_of machine.now.scope) }
    requires fits { StateFitsAt (length state.kept) (state_seen state) }
    requires operand { OperandFits pointer.now }
    requires short { IsShortType of }
    ensures { IfOk result (λ step. step_seen step ≡ attempts.loads_at (context_of machine.now.scope) pointer.now register of (state_seen state)) }
{
    let there = address(machine.terms, &state, pointer)?;
    loads_there(machine, &there, register, of, state)
}
