//! Attempts of states.
ghost use Rattle.std.specs.Prelude.{◌≡◌, ◌≤◌, length, IfOk};
ghost use Rattle.sym_states.specs.Attempts as attempts;
ghost use Rattle.sym_states.specs.States.{code_of, node_of};
ghost use Rattle.state_laws.specs.Kept.{IsFitting, ProgramFits, StateFitsAt};
ghost use Rattle.state_sides.specs.Views.{context_of, state_seen, step_seen};

use crate::executing::executes;
use call_steps::ends_frame;
use decider::Decide;
use flat_ir::FaultKind;
use leaves::Cause;
use places::Home;
use state_sides::{Machine, State, Step, node_in, opens};
use std::alloc::AllocError;
use step_parts::fails;
use sym_states::Place;
use write_log::SymMemory;

// What the frame's node does. One that isn't there is Unreachable.
fn executes_here<H: Home, K: SymMemory, D: Decide>(
    machine: &Machine<'_, H, D>,
    state: State<H, K>,
) -> Result<Step<H, K>, AllocError>
    requires budget { 1 ≤ machine.now.scope.budget }
    requires fitting { IsFitting (context_of machine.now.scope) }
    requires program { ProgramFits machine.now.scope.program.now }
    requires fits { StateFitsAt (length state.kept) (state_seen state) }
    ensures { IfOk result (λ step. step_seen step ≡ attempts.executes (context_of machine.now.scope) (code_of machine.now.scope.program.now state.frame) (state_seen state)) }
{
    let node = state.frame.place().node();
    match node_in(machine.scope.program, state.frame.func(), node) {
        Some(node) => executes(machine, node, state),
        None => fails(machine.terms.alloc(), FaultKind::Unreachable, state),
    }
}

// What a state at a node gives: it takes a step, if one is left.
fn takes_step<H: Home, K: SymMemory, D: Decide>(
    machine: &Machine<'_, H, D>,
    mut state: State<H, K>,
) -> Result<Step<H, K>, AllocError>
    requires budget { 1 ≤ machine.now.scope.budget }
    requires fitting { IsFitting (context_of machine.now.scope) }
    requires program { ProgramFits machine.now.scope.program.now }
    requires fits { StateFitsAt (length state.kept) (state_seen state) }
    ensures { IfOk result (λ step. step_seen step ≡ attempts.attempt_at (context_of machine.now.scope) (Place.At (node_of state.frame.place)) (state_seen state)) }
{
    if state.left == 0 {
        return opens(machine.terms.alloc(), Cause::Steps, state);
    }
    state.left -= 1;
    executes_here(machine, state)
}

/// What an attempt of a state gives: it takes a step of its node. The end of a slice is reached without one, and so is a place from
/// which it leads nowhere.
///
/// # Errors
///
/// No memory, or a count past its bound.
pub fn advance<H: Home, K: SymMemory, D: Decide>(
    machine: &Machine<'_, H, D>,
    state: State<H, K>,
) -> Result<Step<H, K>, AllocError>
    requires budget { 1 ≤ machine.now.scope.budget }
    requires fitting { IsFitting (context_of machine.now.scope) }
    requires program { ProgramFits machine.now.scope.program.now }
    requires fits { StateFitsAt (length state.kept) (state_seen state) }
    ensures attempt { IfOk result (λ step. step_seen step ≡ attempts.attempt (context_of machine.now.scope) (state_seen state)) }
{
    match state.frame.place() {
        Place::At(_) => takes_step(machine, state),
        Place::End => ends_frame(machine, None, state),
        Place::Never(_) => fails(machine.terms.alloc(), FaultKind::NoReturn, state),
    }
}
