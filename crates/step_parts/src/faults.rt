//! What must hold, and the faults where it doesn't.
ghost use Rattle.std.specs.Prelude.{◌≡◌, ◌≤◌, None, IfOk, length};
ghost use Rattle.leaves.specs.Events as events;
ghost use Rattle.leaves.specs.Fitting.{IsTermOf, AreTermsOf};
ghost use Rattle.sym_states.specs.Attempts as attempts;
ghost use Rattle.sym_states.specs.States as states;
ghost use Rattle.state_laws.specs.Kept.{IsFitting, StateFitsAt, FlowFits};
ghost use Rattle.state_sides.specs.Views.{context_of, state_seen, step_seen, flow_seen};

use crate::needs::knows;
use decider::Decide;
use flat_ir::FaultKind;
use leaves::{Leaf, LeafKind};
use places::Home;
use plain_list::Sequence;
use state_sides::{Flow, Machine, State, Step, Tested, told};
use std::alloc::{AllocError, Global};
use sym_bytes::Wanted;
use terms::Term;
use write_log::SymMemory;

// The end of a state in a fault that shows this output.
fn ends<H: Home, K: SymMemory>(
    alloc: Global,
    kind: FaultKind,
    output: Sequence<Term<H>>,
    state: &State<H, K>,
) -> Result<Step<H, K>, AllocError>
    requires fits { StateFitsAt (length state.now.kept) (state_seen state.now) }
    requires output { AreTermsOf (length state.now.kept) 8 output }
    ensures { IfOk result (λ step. step_seen step ≡ states.Ends (events.Fault (states.told (state_seen state.now)) kind state.now.frame.func (states.here (state_seen state.now)) output)) }
{
    let told = told(alloc, state)?;
    Ok(Step::Ends(Leaf::new(LeafKind::Fault {
        told,
        kind,
        func: state.frame.func(),
        node: state.frame.place().node(),
        output,
    })))
}

// A fault that shows the output.
fn faulted<H: Home, K: SymMemory>(
    alloc: Global,
    kind: FaultKind,
    state: &State<H, K>,
) -> Result<Step<H, K>, AllocError>
    requires fits { StateFitsAt (length state.now.kept) (state_seen state.now) }
    ensures { IfOk result (λ step. step_seen step ≡ attempts.faulted kind (state_seen state.now)) }
{
    let output = K::output(&state.memory)?;
    ends(alloc, kind, output, state)
}

// A fault of a state that isn't in a recovery.
fn fails_whole<H: Home, K: SymMemory>(
    alloc: Global,
    kind: FaultKind,
    state: State<H, K>,
) -> Result<Step<H, K>, AllocError>
    requires fits { StateFitsAt (length state.kept) (state_seen state) }
    ensures { IfOk result (λ step. step_seen step ≡ attempts.fails_in None kind (state_seen state)) }
{
    let flow = knows(alloc, &Wanted::Output, state)?;
    match flow {
        Flow::On(state) => faulted(alloc, kind, &state),
        Flow::Over(step) => Ok(step),
    }
}

/// A fault at the state's node. It shows the output, which is needed first; in a recovery it shows none.
///
/// # Errors
///
/// No memory.
pub fn fails<H: Home, K: SymMemory>(
    alloc: Global,
    kind: FaultKind,
    state: State<H, K>,
) -> Result<Step<H, K>, AllocError>
    requires fits { StateFitsAt (length state.kept) (state_seen state) }
    ensures { IfOk result (λ step. step_seen step ≡ attempts.fails kind (state_seen state)) }
{
    match state.target {
        None => fails_whole(alloc, kind, state),
        Some(_) => ends(alloc, kind, Sequence::new(alloc), &state),
    }
}

/// Goes on where a term of one bit over the bytes of the kept input holds, behind its test; else it is a fault.
///
/// # Errors
///
/// No memory.
pub fn must<H: Home, K: SymMemory, D: Decide>(
    machine: &Machine<'_, H, D>,
    holds: &Term<H>,
    kind: FaultKind,
    state: State<H, K>,
) -> Result<Flow<H, K, State<H, K>>, AllocError>
    requires budget { 1 ≤ machine.now.scope.budget }
    requires fitting { IsFitting (context_of machine.now.scope) }
    requires fits { StateFitsAt (length state.kept) (state_seen state) }
    requires truth { IsTermOf (length state.kept) 1 holds.now }
    ensures value { IfOk result (λ flow. flow_seen state_seen flow ≡ attempts.must (context_of machine.now.scope) holds.now kind (state_seen state)) }
    ensures fits { IfOk result (λ flow. FlowFits (length state.kept) (StateFitsAt (length state.kept)) (flow_seen state_seen flow)) }
{
    passes(machine, holds, kind, state)
}

fn passes<H: Home, K: SymMemory, D: Decide>(
    machine: &Machine<'_, H, D>,
    holds: &Term<H>,
    kind: FaultKind,
    state: State<H, K>,
) -> Result<Flow<H, K, State<H, K>>, AllocError>
    requires budget { 1 ≤ machine.now.scope.budget }
    requires fitting { IsFitting (context_of machine.now.scope) }
    requires fits { StateFitsAt (length state.kept) (state_seen state) }
    requires truth { IsTermOf (length state.kept) 1 holds.now }
    ensures { IfOk result (λ flow. flow_seen state_seen flow ≡ attempts.must (context_of machine.now.scope) holds.now kind (state_seen state)) }
{
    let tested = machine.test(holds, state)?;
    match tested {
        Tested::Good(state) => Ok(Flow::On(state)),
        Tested::Bad(state) => Ok(Flow::Over(fails(machine.terms.alloc(), kind, state)?)),
        Tested::Answered(step) => Ok(Flow::Over(step)),
    }
}
