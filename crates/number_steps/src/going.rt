//! Input and output, and nodes that choose their way.
ghost use Rattle.std.specs.Prelude.{◌≡◌, ◌≤◌, length, IfOk};
ghost use Rattle.sym_states.specs.Attempts as attempts;
ghost use Rattle.sym_states.specs.Terms as values;
ghost use Rattle.log_laws.specs.Logs as log;
ghost use Rattle.state_laws.specs.Kept.{StateFitsAt, OperandFits, CasesFit};
ghost use Rattle.state_sides.specs.Views.{context_of, state_seen, step_seen};

use crate::making::gives_term;
use decider::Decide;
use flat_ir::{Operand, RegId, SwitchCase};
use node_values::{branch_sides, input_at, low_byte, switch_sides};
use places::Home;
use state_sides::{Machine, State, Step};
use std::alloc::AllocError;
use step_parts::number;
use sym_bytes::Entry;
use terms::{Term, Terms};
use write_log::SymMemory;

// The byte that is read next.
fn next_byte<H: Home, K: SymMemory>(
    terms: &Terms<H>,
    state: &State<H, K>,
) -> Result<Term<H>, AllocError>
    requires { length state.now.kept ≤ 64 }
    ensures { IfOk result (λ t. t ≡ values.input_at (length state.now.kept) (log.position state.now.memory.log)) }
{
    input_at(terms, state.kept.len(), K::position(&state.memory))
}

/// The next byte of the kept input, or its end, is read.
///
/// # Errors
///
/// No memory, or a count past its bound.
pub fn takes_input<H: Home, K: SymMemory, D: Decide>(
    machine: &Machine<'_, H, D>,
    register: RegId,
    mut state: State<H, K>,
) -> Result<Step<H, K>, AllocError>
    requires fits { StateFitsAt (length state.kept) (state_seen state) }
    ensures { IfOk result (λ step. step_seen step ≡ attempts.takes_input (context_of machine.now.scope) register (state_seen state)) }
{
    let byte = next_byte(machine.terms, &state)?;
    K::append(&mut state.memory, Entry::get())?;
    gives_term(machine, register, byte, state)
}

/// The low byte of an operand is written out.
///
/// # Errors
///
/// No memory, or a count past its bound.
pub fn puts<H: Home, K: SymMemory, D: Decide>(
    machine: &Machine<'_, H, D>,
    value: &Operand,
    mut state: State<H, K>,
) -> Result<Step<H, K>, AllocError>
    ensures { IfOk result (λ step. step_seen step ≡ attempts.puts (context_of machine.now.scope) value.now (state_seen state)) }
{
    let written = number(machine.terms, &state, value)?;
    let byte = low_byte(machine.terms, &written)?;
    K::append(&mut state.memory, Entry::put(byte))?;
    Ok(Step::Goes(machine.done(None, None, state)?))
}

/// A branch by an operand: its sides that can be met are taken.
///
/// # Errors
///
/// No memory, or a count past its bound.
pub fn branches<H: Home, K: SymMemory, D: Decide>(
    machine: &Machine<'_, H, D>,
    condition: &Operand,
    state: State<H, K>,
) -> Result<Step<H, K>, AllocError>
    requires budget { 1 ≤ machine.now.scope.budget }
    requires fits { StateFitsAt (length state.kept) (state_seen state) }
    requires condition { OperandFits condition.now }
    ensures { IfOk result (λ step. step_seen step ≡ attempts.branches (context_of machine.now.scope) condition.now (state_seen state)) }
{
    let truth = number(machine.terms, &state, condition)?;
    let sides = branch_sides(machine.terms, &truth)?;
    machine.choose_way(sides.as_slice(), state)
}

/// A switch by an operand: its cases and its default that can be met are taken.
///
/// # Errors
///
/// No memory, or a count past its bound.
pub fn switches<H: Home, K: SymMemory, D: Decide>(
    machine: &Machine<'_, H, D>,
    value: &Operand,
    cases: &[SwitchCase],
    state: State<H, K>,
) -> Result<Step<H, K>, AllocError>
    requires budget { 1 ≤ machine.now.scope.budget }
    requires fits { StateFitsAt (length state.kept) (state_seen state) }
    requires value { OperandFits value.now }
    requires cases { CasesFit cases.now }
    ensures { IfOk result (λ step. step_seen step ≡ attempts.switches (context_of machine.now.scope) value.now cases.now (state_seen state)) }
{
    let key = number(machine.terms, &state, value)?;
    let sides = switch_sides(machine.terms, &key, cases)?;
    machine.choose_way(sides.as_slice(), state)
}
