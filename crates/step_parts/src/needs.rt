//! Skipped calls that have to be recovered before an attempt can go on.
ghost use Rattle.std.specs.Prelude.{◌≡◌, IfOk, length, map};
ghost use Rattle.flat_ir.specs.History as history;
ghost use Rattle.log_laws.specs.Needs as needs;
ghost use Rattle.sym_bytes.specs.ShownAnswers.{want_of};
ghost use Rattle.write_log.specs.Memory.{IsWanted};
ghost use Rattle.sym_states.specs.Attempts as attempts;
ghost use Rattle.sym_states.specs.States as states;
ghost use Rattle.state_laws.specs.Kept.{StateFitsAt, FlowFits};
ghost use Rattle.state_sides.specs.Views.{state_seen, needed_seen, flow_seen};
ghost use Rattle.sym_states.specs.Terms.{pending_in, put_pending, value_in};

use flat_ir::{Location, ObjectName, Operand, Site};
use node_values::{put_pending, value_in};
use places::Home;
use plain_list::Sequence;
use state_sides::{Flow, Needed, State, Step};
use std::alloc::{AllocError, Global};
use sym_bytes::{CallId, Wanted};
use terms::Terms;
use write_log::{Index, SymMemory};

// Where an object comes from.
fn site_of(name: &ObjectName) -> Site
    ensures { result ≡ history.site_of name.now }
{
    match name {
        ObjectName::Global(global) => Site::Global(*global),
        ObjectName::Made { frame: _, made } => Site::Node(made.func, made.node),
    }
}

// Where what is wanted lies.
fn location_of<H: Home>(wanted: &Wanted<H>) -> Location
    ensures { result ≡ needs.location_of (want_of wanted.now) }
{
    match wanted {
        Wanted::Bytes(name, _, _) => Location::Cells(site_of(name)),
        Wanted::Life(name) => Location::Life(site_of(name)),
        Wanted::Input => Location::Input,
        Wanted::Output => Location::Output,
    }
}

// Each of the calls, needed in the location.
fn needs_at(alloc: Global, at: Location, calls: &[CallId]) -> Result<Vec<Needed>, AllocError>
    ensures { IfOk result (λ list. map needed_seen list.items ≡ states.needs_at at calls.now) }
{
    let mut list = Vec::new(alloc);
    'calls: for call in calls {
        list.push(Needed { call: *call, at })?;
    }
    Ok(list)
}

/// Goes on where no call is needed in the location.
///
/// # Errors
///
/// No memory.
pub fn unless_needed<H: Home, K: Index>(
    alloc: Global,
    at: Location,
    calls: Sequence<CallId>,
    state: State<H, K>,
) -> Result<Flow<H, K, State<H, K>>, AllocError>
    ensures { IfOk result (λ flow. flow_seen state_seen flow ≡ states.unless_needed at calls (state_seen state)) }
{
    match calls.as_slice().split_first() {
        None => Ok(Flow::On(state)),
        Some(_) => {
            let needs = needs_at(alloc, at, calls.as_slice())?;
            Ok(Flow::Over(Step::Needs(state, needs)))
        }
    }
}

/// Goes on where what is wanted of memory waits for no call.
///
/// # Errors
///
/// No memory.
pub fn knows<H: Home, K: SymMemory>(
    alloc: Global,
    wanted: &Wanted<H>,
    state: State<H, K>,
) -> Result<Flow<H, K, State<H, K>>, AllocError>
    requires wanted { IsWanted (want_of wanted.now) }
    requires fits { StateFitsAt (length state.kept) (state_seen state) }
    ensures value { IfOk result (λ flow. flow_seen state_seen flow ≡ attempts.knows (want_of wanted.now) (state_seen state)) }
    ensures fits { IfOk result (λ flow. FlowFits (length state.kept) (StateFitsAt (length state.kept)) (flow_seen state_seen flow)) }
{
    known(alloc, wanted, state)
}

fn known<H: Home, K: SymMemory>(
    alloc: Global,
    wanted: &Wanted<H>,
    state: State<H, K>,
) -> Result<Flow<H, K, State<H, K>>, AllocError>
    requires { IsWanted (want_of wanted.now) }
    ensures { IfOk result (λ flow. flow_seen state_seen flow ≡ attempts.knows (want_of wanted.now) (state_seen state)) }
{
    let calls = K::need(&state.memory, wanted)?;
    unless_needed(alloc, location_of(wanted), calls, state)
}

// The calls whose pending results are operands.
fn pending_in<H: Home, K: SymMemory>(
    terms: &Terms<H>,
    operands: &[Operand],
    state: &State<H, K>,
) -> Result<Sequence<CallId>, AllocError>
    ensures { IfOk result (λ calls. calls ≡ pending_in (state_seen state.now) operands.now) }
{
    let mut calls = Sequence::new(terms.alloc());
    let mut rest = operands;
    'operands: while let Some((operand, before)) = rest.split_last() {
        calls = put_operand(terms, operand, state, calls)?;
        rest = before;
    }
    Ok(calls)
}

fn put_operand<H: Home, K: SymMemory>(
    terms: &Terms<H>,
    operand: &Operand,
    state: &State<H, K>,
    calls: Sequence<CallId>,
) -> Result<Sequence<CallId>, AllocError>
    ensures { IfOk result (λ list. list ≡ put_pending (value_in (state_seen state.now) operand.now) calls) }
{
    let snapshots = state.snapshots.as_slice();
    let value = value_in(terms, snapshots, state.frame.regs(), operand)?;
    put_pending(terms.alloc(), &value, calls)
}

/// Goes on where no operand is a pending result.
///
/// # Errors
///
/// No memory.
pub fn firm<H: Home, K: SymMemory>(
    terms: &Terms<H>,
    operands: &[Operand],
    state: State<H, K>,
) -> Result<Flow<H, K, State<H, K>>, AllocError>
    requires fits { StateFitsAt (length state.kept) (state_seen state) }
    ensures value { IfOk result (λ flow. flow_seen state_seen flow ≡ attempts.firm operands.now (state_seen state)) }
    ensures fits { IfOk result (λ flow. FlowFits (length state.kept) (StateFitsAt (length state.kept)) (flow_seen state_seen flow)) }
{
    none_pending(terms, operands, state)
}

fn none_pending<H: Home, K: SymMemory>(
    terms: &Terms<H>,
    operands: &[Operand],
    state: State<H, K>,
) -> Result<Flow<H, K, State<H, K>>, AllocError>
    ensures { IfOk result (λ flow. flow_seen state_seen flow ≡ attempts.firm operands.now (state_seen state)) }
{
    let calls = pending_in(terms, operands, &state)?;
    unless_needed(terms.alloc(), Location::Result, calls, state)
}
