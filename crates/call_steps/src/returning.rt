//! Returns, which end frames.
ghost use Rattle.std.specs.Prelude.{◌≡◌, ◌∷◌, [], length, unwrap_or, IfOk, MatchOption};
ghost use Rattle.std.specs.Option.{option_copied, option_map, option_to_list};
ghost use Rattle.flat_ir.specs.declared.nodes.Node.TheVariants as node;
ghost use Rattle.flat_ir.specs.Steps as steps;
ghost use Rattle.leaves.specs.Fitting.{ValueFitsIf};
ghost use Rattle.sym_states.specs.Attempts as attempts;
ghost use Rattle.sym_states.specs.States as states;
ghost use Rattle.sym_states.specs.Terms.{value_in as operand_value};
ghost use Rattle.state_laws.specs.Kept.{StateFitsAt, FlowFits, OperandsFit};
ghost use Rattle.state_sides.specs.Views.{context_of, state_seen, step_seen, flow_seen};

use crate::ends::{completes, ends_first};
use crate::frees::ended;
use decider::Decide;
use flat_ir::{Node, Operand, RegId};
use node_values::value_in;
use places::Home;
use state_sides::{Flow, Machine, State, Step, node_in};
use std::alloc::{AllocError, Global};
use std::mem;
use step_parts::firm;
use sym_bytes::SymValue;
use sym_states::{Callers, Frame};
use terms::Terms;
use write_log::{Index, SymMemory};

// Where a call puts its result.
fn call_result(call: Option<&Node>) -> Option<RegId>
    ensures { result ≡ steps.call_result (unwrap_or (option_copied call.entry) node.Unreachable) }
{
    match call {
        Some(Node::Call { result, .. }) => *result,
        _ => None,
    }
}

/// A caller's frame behind its call, with what the call returned.
pub fn resumed<H: Home, D: Decide>(
    machine: &Machine<'_, H, D>,
    value: Option<SymValue<H>>,
    mut caller: Frame<H>,
) -> Frame<H>
    ensures { result ≡ attempts.resumed (context_of machine.now.scope) value caller }
{
    let call = node_in(machine.scope.program, caller.func(), caller.place().node());
    let register = call_result(call);
    caller.set_if(register, value);
    machine.moved(0, &mut caller);
    caller
}

// Takes off the newest of the frames, if there is one.
fn take_newest<H: Home>(
    alloc: Global,
    callers: &mut Callers<H>,
) -> Result<Option<Frame<H>>, AllocError>
    ensures { IfOk result (λ o. MatchOption o ((callers.old ≡ []) × (callers.new ≡ [])) (λ frame. callers.old ≡ frame ∷ callers.new)) }
{
    let none = Callers::new(alloc)?;
    let all = mem::replace(callers, none);
    match all.split(alloc)? {
        None => Ok(None),
        Some((frame, older)) => {
            *callers = older;
            Ok(Some(frame))
        }
    }
}

// The caller goes on, if there is one; else it is the end.
fn leaves_to<H: Home, K: SymMemory, D: Decide>(
    machine: &Machine<'_, H, D>,
    value: Option<SymValue<H>>,
    mut state: State<H, K>,
) -> Result<Step<H, K>, AllocError>
    requires fits { StateFitsAt (length state.kept) (state_seen state) }
    requires value { ValueFitsIf (length state.kept) value }
    ensures { IfOk result (λ step. step_seen step ≡ attempts.leaves_to (context_of machine.now.scope) value state.callers (state_seen state)) }
{
    match take_newest(machine.terms.alloc(), &mut state.callers) {
        Ok(None) => ends_first(machine.terms, value, state),
        Ok(Some(caller)) => {
            state.frame = resumed(machine, value, caller);
            Ok(Step::Goes(state))
        }
        Err(error) => {
            drop(value);
            drop(state);
            Err(error)
        }
    }
}

/// The end of the newest frame: what its allocas made is freed, and its caller goes on with the value, if it has one. The first
/// frame's end is that of the program or of the recovery.
///
/// # Errors
///
/// No memory, or a node past its bound.
pub fn ends_frame<H: Home, K: SymMemory, D: Decide>(
    machine: &Machine<'_, H, D>,
    value: Option<SymValue<H>>,
    state: State<H, K>,
) -> Result<Step<H, K>, AllocError>
    requires fits { StateFitsAt (length state.kept) (state_seen state) }
    requires value { ValueFitsIf (length state.kept) value }
    ensures { IfOk result (λ step. step_seen step ≡ attempts.ends_frame (context_of machine.now.scope) value (state_seen state)) }
{
    let state = ended(machine, state)?;
    leaves_to(machine, value, state)
}

// The value that is returned, if there is one.
fn returned<H: Home, K: Index>(
    terms: &Terms<H>,
    state: &State<H, K>,
    value: &Option<Operand>,
) -> Result<Option<SymValue<H>>, AllocError>
    ensures { IfOk result (λ v. v ≡ option_map (operand_value (state_seen state.now)) value.now) }
{
    match value {
        None => Ok(None),
        Some(operand) => {
            let snapshots = state.snapshots.as_slice();
            let value = value_in(terms, snapshots, state.frame.regs(), operand)?;
            Ok(Some(value))
        }
    }
}

fn is_main_end<H: Home, K: Index>(state: &State<H, K>) -> bool
    ensures { result ≡ attempts.is_main_end state.now.target state.now.callers }
{
    match state.target {
        None => state.callers.is_empty(),
        Some(_) => false,
    }
}

fn firm_if<H: Home, K: SymMemory>(
    terms: &Terms<H>,
    value: &Option<Operand>,
    state: State<H, K>,
) -> Result<Flow<H, K, State<H, K>>, AllocError>
    requires { StateFitsAt (length state.kept) (state_seen state) }
    ensures value { IfOk result (λ flow. flow_seen state_seen flow ≡ attempts.firm (option_to_list value.now) (state_seen state)) }
    ensures fits { IfOk result (λ flow. FlowFits (length state.kept) (StateFitsAt (length state.kept)) (flow_seen state_seen flow)) }
{
    match value {
        None => firm(terms, &[], state),
        Some(operand) => firm(terms, &[*operand], state),
    }
}

// The end of the program with what main returns, which is known.
fn completes_with<H: Home, K: SymMemory>(
    terms: &Terms<H>,
    value: &Option<Operand>,
    state: State<H, K>,
) -> Result<Step<H, K>, AllocError>
    requires fits { StateFitsAt (length state.kept) (state_seen state) }
    requires operand { OperandsFit (option_to_list value.now) }
    ensures { IfOk result (λ step. step_seen step ≡ attempts.completes (option_map (operand_value (state_seen state)) value.now) (state_seen state)) }
{
    let value = returned(terms, &state, value)?;
    completes(terms, value, state)
}

// The return of main's first frame.
fn main_returns<H: Home, K: SymMemory>(
    terms: &Terms<H>,
    value: &Option<Operand>,
    state: State<H, K>,
) -> Result<Step<H, K>, AllocError>
    requires fits { StateFitsAt (length state.kept) (state_seen state) }
    requires operand { OperandsFit (option_to_list value.now) }
    ensures { IfOk result (λ step. step_seen step ≡ states.then_step (attempts.firm (option_to_list value.now) (state_seen state)) (λ u. attempts.completes (option_map (operand_value u) value.now) u)) }
{
    let flow = firm_if(terms, value, state)?;
    match flow {
        Flow::On(state) => completes_with(terms, value, state),
        Flow::Over(step) => Ok(step),
    }
}

// The return of a frame that isn't main's first.
fn call_returns<H: Home, K: SymMemory, D: Decide>(
    machine: &Machine<'_, H, D>,
    value: &Option<Operand>,
    mut state: State<H, K>,
) -> Result<Step<H, K>, AllocError>
    requires fits { StateFitsAt (length state.kept) (state_seen state) }
    requires operand { OperandsFit (option_to_list value.now) }
    ensures { IfOk result (λ step. step_seen step ≡ attempts.ends_frame (context_of machine.now.scope) (option_map (operand_value (state_seen state)) value.now) (states.in_frame (states.counted state.frame) (state_seen state))) }
{
    let value = returned(machine.terms, &state, value)?;
    state.frame.counted()?;
    ends_frame(machine, value, state)
}

/// A return of the newest frame, with a value if there is one. That of main's first frame ends the program, and its value is needed
/// first.
///
/// # Errors
///
/// No memory, or a count past its bound.
pub fn returns<H: Home, K: SymMemory, D: Decide>(
    machine: &Machine<'_, H, D>,
    value: &Option<Operand>,
    state: State<H, K>,
) -> Result<Step<H, K>, AllocError>
    requires fits { StateFitsAt (length state.kept) (state_seen state) }
    requires operand { OperandsFit (option_to_list value.now) }
    ensures { IfOk result (λ step. step_seen step ≡ attempts.returns (context_of machine.now.scope) value.now (state_seen state)) }
{
    if is_main_end(&state) {
        main_returns(machine.terms, value, state)
    } else {
        call_returns(machine, value, state)
    }
}
