//! Ends of programs and of recoveries.
ghost use Rattle.std.specs.Prelude.{◌≡◌, Some, length, IfOk};
ghost use Rattle.leaves.specs.Fitting.{ValueFits, ValueFitsIf};
ghost use Rattle.sym_states.specs.Attempts as attempts;
ghost use Rattle.state_laws.specs.Kept.{StateFitsAt};
ghost use Rattle.state_sides.specs.Views.{state_seen, step_seen};

use flat_ir::{FaultKind, Location};
use leaves::{Leaf, LeafKind};
use node_values::status_of;
use places::Home;
use state_sides::{Flow, State, Step, told};
use std::alloc::AllocError;
use step_parts::{fails, knows};
use sym_bytes::{SymValue, Wanted};
use sym_states::Target;
use terms::Terms;
use write_log::SymMemory;

// The end of the program, whose output is known.
fn completed<H: Home, K: SymMemory>(
    terms: &Terms<H>,
    value: Option<SymValue<H>>,
    state: State<H, K>,
) -> Result<Step<H, K>, AllocError>
    requires fits { StateFitsAt (length state.kept) (state_seen state) }
    requires value { ValueFitsIf (length state.kept) value }
    ensures { IfOk result (λ step. step_seen step ≡ attempts.completed value (state_seen state)) }
{
    let status = status_of(terms, &value)?;
    let told = told(terms.alloc(), &state)?;
    let output = K::output(&state.memory)?;
    Ok(Step::Ends(Leaf::new(LeafKind::Complete {
        told,
        status,
        output,
    })))
}

/// The end of the program with what main returns, or with an exit's status. It shows the output, which is needed first.
///
/// # Errors
///
/// No memory.
pub fn completes<H: Home, K: SymMemory>(
    terms: &Terms<H>,
    value: Option<SymValue<H>>,
    state: State<H, K>,
) -> Result<Step<H, K>, AllocError>
    requires fits { StateFitsAt (length state.kept) (state_seen state) }
    requires value { ValueFitsIf (length state.kept) value }
    ensures { IfOk result (λ step. step_seen step ≡ attempts.completes value (state_seen state)) }
{
    let flow = knows(terms.alloc(), &Wanted::Output, state)?;
    match flow {
        Flow::On(state) => completed(terms, value, state),
        Flow::Over(step) => Ok(step),
    }
}

// What a recovery gives of its call's result: it, where that is recovered.
fn if_result<H: Home>(at: Location, value: Option<SymValue<H>>) -> Option<SymValue<H>>
    ensures { result ≡ attempts.if_result at value }
{
    match at {
        Location::Result => value,
        _ => None,
    }
}

/// The end of a recovery: what it appended in its location, or its call's result.
///
/// # Errors
///
/// No memory.
pub fn recovers<H: Home, K: SymMemory>(
    terms: &Terms<H>,
    target: Target,
    value: Option<SymValue<H>>,
    state: State<H, K>,
) -> Result<Step<H, K>, AllocError>
    requires fits { StateFitsAt (length state.kept) (state_seen state) }
    requires value { ValueFitsIf (length state.kept) value }
    ensures { IfOk result (λ step. step_seen step ≡ attempts.recovers target value (state_seen state)) }
{
    let told = told(terms.alloc(), &state)?;
    let entries = K::entries_since(&state.memory, target.length, target.at)?;
    let result = if_result(target.at, value);
    Ok(Step::Ends(Leaf::new(LeafKind::Done {
        told,
        entries,
        result,
    })))
}

/// The end of the first frame: of the program, or of a recovery.
///
/// # Errors
///
/// No memory.
pub fn ends_first<H: Home, K: SymMemory>(
    terms: &Terms<H>,
    value: Option<SymValue<H>>,
    state: State<H, K>,
) -> Result<Step<H, K>, AllocError>
    requires fits { StateFitsAt (length state.kept) (state_seen state) }
    requires value { ValueFitsIf (length state.kept) value }
    ensures { IfOk result (λ step. step_seen step ≡ attempts.ends_first state.target value (state_seen state)) }
{
    match state.target {
        None => completes(terms, value, state),
        Some(target) => recovers(terms, target, value, state),
    }
}

/// An exit with a status, which ends the program. In a recovery it is the fault that the call doesn't return.
///
/// # Errors
///
/// No memory.
pub fn exits<H: Home, K: SymMemory>(
    terms: &Terms<H>,
    status: SymValue<H>,
    state: State<H, K>,
) -> Result<Step<H, K>, AllocError>
    requires fits { StateFitsAt (length state.kept) (state_seen state) }
    requires value { ValueFits (length state.kept) status }
    ensures { IfOk result (λ step. step_seen step ≡ attempts.exits state.target status (state_seen state)) }
{
    match state.target {
        None => completes(terms, Some(status), state),
        Some(_) => fails(terms.alloc(), FaultKind::NoReturn, state),
    }
}
