//! Calls, which are skipped or entered.
ghost use Rattle.std.specs.Prelude.{◌≡◌, ◌∷◌, [], map, slice_get, unwrap_or, Option, None, IfOk};
ghost use Rattle.std.specs.Option.{option_map};
ghost use Rattle.flat_ir.specs.Skipped as skipped;
ghost use Rattle.sym_bytes.specs.Value.{Pending};
ghost use Rattle.sym_states.specs.Attempts as attempts;
ghost use Rattle.sym_states.specs.States as states;
ghost use Rattle.sym_states.specs.Terms.{value_in as operand_value};
ghost use Rattle.state_sides.specs.Views.{context_of, state_seen, step_seen};

use crate::entering::enters;
use decider::Decide;
use flat_ir::{FuncId, Location, Operand, RegId, RegType};
use node_values::value_in;
use places::Home;
use plain_list::Sequence;
use skip_records::Snapshot;
use state_sides::{Machine, State, Step, result_of};
use std::alloc::{AllocError, Global};
use sym_bytes::{CallId, SymValue};
use sym_states::{Frame, Target};
use terms::Terms;
use write_log::{Index, SymMemory};

/// The values of operands.
///
/// # Errors
///
/// No memory.
pub fn values_of<H: Home, K: Index>(
    terms: &Terms<H>,
    state: &State<H, K>,
    operands: &[Operand],
) -> Result<Sequence<SymValue<H>>, AllocError>
    ensures { IfOk result (λ values. values ≡ map (operand_value (state_seen state.now)) operands.now) }
{
    let mut values = Sequence::new(terms.alloc());
    'operands: for operand in operands {
        let snapshots = state.snapshots.as_slice();
        values.push(value_in(terms, snapshots, state.frame.regs(), operand)?)?;
    }
    Ok(values)
}

// The number of the next skipped call.
fn next_call<H: Home, K: Index>(state: &State<H, K>) -> Result<CallId, AllocError>
    ensures { IfOk result (λ call. call ≡ attempts.next_call (state_seen state.now)) }
{
    match u32::try_from(state.snapshots.len()) {
        Ok(before) => Ok(CallId(before.checked_add(1).ok_or(AllocError)?)),
        Err(_) => Err(AllocError),
    }
}

// What a call of a function may change.
fn mods_of(
    alloc: Global,
    mods: &[Sequence<Location>],
    func: FuncId,
) -> Result<Sequence<Location>, AllocError>
    ensures { IfOk result (λ list. list ≡ unwrap_or (slice_get mods.now func.0) []) }
{
    match mods.get(func.0 as usize) {
        Some(list) => list.copy(alloc),
        None => Ok(Sequence::new(alloc)),
    }
}

// The result of a skipped call, if it has one.
fn pending<H: Home>(call: CallId, of: Option<RegType>) -> Option<SymValue<H>>
    ensures { result ≡ option_map (Pending call) of }
{
    match of {
        Some(kind) => Some(SymValue::pending(call, kind)),
        None => None,
    }
}

// The snapshot of a call that the frame makes.
fn snapshot_of<H: Home>(
    alloc: Global,
    call: CallId,
    func: FuncId,
    args: Sequence<SymValue<H>>,
    frame: &Frame<H>,
) -> Result<Snapshot<H>, AllocError>
    ensures { IfOk result (λ s. s ≡ record { call = call; func = func; args = args; frame = states.name_below frame.now; result = None; recovered = [] }) }
{
    let frame = frame.name_below(alloc)?;
    Ok(Snapshot {
        call,
        func,
        args,
        frame,
        result: None,
        recovered: Sequence::new(alloc),
    })
}

/// A call of a function with arguments that is skipped: it leaves a mark and a snapshot, and its result is pending.
///
/// # Errors
///
/// No memory, or a count past its bound.
pub fn skips<H: Home, K: SymMemory, D: Decide>(
    machine: &Machine<'_, H, D>,
    func: FuncId,
    args: Sequence<SymValue<H>>,
    register: Option<RegId>,
    mut state: State<H, K>,
) -> Result<Step<H, K>, AllocError>
    ensures { IfOk result (λ step. step_seen step ≡ attempts.skips (context_of machine.now.scope) func args register (state_seen state)) }
{
    let alloc = machine.terms.alloc();
    let call = next_call(&state)?;
    let snapshot = snapshot_of(alloc, call, func, args, &state.frame)?;
    let mods = mods_of(alloc, machine.scope.mods, func)?;
    K::mark(&mut state.memory, call, mods)?;
    state.snapshots.push(snapshot)?;
    let value = pending(call, result_of(machine.scope.program, func));
    Ok(Step::Goes(machine.done(register, value, state)?))
}

fn is_named(names: &[FuncId], func: FuncId) -> bool
    ensures { result ≡ skipped.is_named names.now func }
{
    names.iter().any(|name| name.0 == func.0)
}

// Whether a call is skipped. A recovery skips nothing anew.
fn is_skipped<H: Home, D: Decide>(
    machine: &Machine<'_, H, D>,
    func: FuncId,
    target: &Option<Target>,
) -> bool
    ensures { result ≡ attempts.is_skipped (context_of machine.now.scope) func target.now }
{
    match target {
        None => is_named(machine.scope.skips, func),
        Some(_) => false,
    }
}

/// A call of a function with arguments, whose result goes to a register if one is named: it is skipped or entered.
///
/// # Errors
///
/// No memory, or a count past its bound.
pub fn calls<H: Home, K: SymMemory, D: Decide>(
    machine: &Machine<'_, H, D>,
    func: FuncId,
    args: Sequence<SymValue<H>>,
    register: Option<RegId>,
    state: State<H, K>,
) -> Result<Step<H, K>, AllocError>
    ensures { IfOk result (λ step. step_seen step ≡ attempts.calls (context_of machine.now.scope) func args register (state_seen state)) }
{
    if is_skipped(machine, func, &state.target) {
        skips(machine, func, args, register, state)
    } else {
        enters(machine, func, args, state)
    }
}
