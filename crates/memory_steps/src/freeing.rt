//! Frees.
ghost use Rattle.std.specs.Prelude.{◌≡◌, ◌≤◌, IfOk, length, slice_get};
ghost use Rattle.flat_ir.specs.Machine.{node_at};
ghost use Rattle.flat_ir.specs.Steps as steps;
ghost use Rattle.leaves.specs.Fitting.{IsTermOf};
ghost use Rattle.log_laws.specs.Logs.{life};
ghost use Rattle.sym_bytes.specs.declared.names.Base.TheVariants as base;
ghost use Rattle.sym_bytes.specs.ShownAnswers.{living_of};
ghost use Rattle.sym_states.specs.Attempts as attempts;
ghost use Rattle.state_laws.specs.Kept.{IsFitting, StateFitsAt};
ghost use Rattle.state_sides.specs.Views.{context_of, state_seen, step_seen};

use decider::Decide;
use flat_ir::{FaultKind, Node, ObjectName, ProgramData};
use node_values::is_start;
use places::Home;
use state_sides::{Flow, Machine, State, Step, node_in};
use std::alloc::AllocError;
use step_parts::{fails, knows, must};
use sym_bytes::{Base, Entry, LifeOf, Pointer, Wanted};
use terms::Term;
use write_log::SymMemory;

fn frees_object<H: Home, K: SymMemory, D: Decide>(
    machine: &Machine<'_, H, D>,
    object: &ObjectName,
    state: State<H, K>,
) -> Result<Step<H, K>, AllocError>
    ensures { IfOk result (λ step. step_seen step ≡ attempts.frees_object (context_of machine.now.scope) object.now (state_seen state)) }
{
    let mut state = state;
    K::append(&mut state.memory, Entry::free(object.copy()?))?;
    let state = machine.done(None, None, state)?;
    Ok(Step::Goes(state))
}

fn frees_made<H: Home, K: SymMemory, D: Decide>(
    machine: &Machine<'_, H, D>,
    is_made: bool,
    object: &ObjectName,
    offset: &Term<H>,
    state: State<H, K>,
) -> Result<Step<H, K>, AllocError>
    requires budget { 1 ≤ machine.now.scope.budget }
    requires fitting { IsFitting (context_of machine.now.scope) }
    requires fits { StateFitsAt (length state.kept) (state_seen state) }
    requires offset { IsTermOf (length state.kept) 64 offset.now }
    ensures { IfOk result (λ step. step_seen step ≡ attempts.frees_made (context_of machine.now.scope) is_made object.now offset.now (state_seen state)) }
{
    if !is_made {
        return fails(machine.terms.alloc(), FaultKind::BadFree, state);
    }
    let holds = is_start(machine.terms, offset)?;
    let flow = must(machine, &holds, FaultKind::BadFree, state)?;
    match flow {
        Flow::On(state) => frees_object(machine, object, state),
        Flow::Over(step) => Ok(step),
    }
}

// Whether a malloc made the object.
fn made_by_malloc(program: &ProgramData, object: &ObjectName) -> bool
    ensures { result ≡ steps.made_by_malloc program.now object.now }
{
    match object {
        ObjectName::Global(_) => false,
        ObjectName::Made { frame: _, made } => matches!(
            node_in(program, made.func, made.node),
            Some(Node::Malloc { .. })
        ),
    }
}

fn frees_alive<H: Home, K: SymMemory, D: Decide>(
    machine: &Machine<'_, H, D>,
    living: &LifeOf<H>,
    object: &ObjectName,
    offset: &Term<H>,
    state: State<H, K>,
) -> Result<Step<H, K>, AllocError>
    requires budget { 1 ≤ machine.now.scope.budget }
    requires fitting { IsFitting (context_of machine.now.scope) }
    requires fits { StateFitsAt (length state.kept) (state_seen state) }
    requires offset { IsTermOf (length state.kept) 64 offset.now }
    ensures { IfOk result (λ step. step_seen step ≡ attempts.frees_alive (context_of machine.now.scope) (living_of living.now) object.now offset.now (state_seen state)) }
{
    match living {
        LifeOf::Dead => fails(machine.terms.alloc(), FaultKind::UseAfterFree, state),
        LifeOf::Alive(_) => {
            let is_made = made_by_malloc(machine.scope.program, object);
            frees_made(machine, is_made, object, offset, state)
        }
    }
}

// A free of an object whose life is known.
fn frees_known<H: Home, K: SymMemory, D: Decide>(
    machine: &Machine<'_, H, D>,
    object: &ObjectName,
    offset: &Term<H>,
    state: State<H, K>,
) -> Result<Step<H, K>, AllocError>
    requires budget { 1 ≤ machine.now.scope.budget }
    requires fitting { IsFitting (context_of machine.now.scope) }
    requires fits { StateFitsAt (length state.kept) (state_seen state) }
    requires offset { IsTermOf (length state.kept) 64 offset.now }
    ensures { IfOk result (λ step. step_seen step ≡ attempts.frees_alive (context_of machine.now.scope) (life state.memory.globals object.now state.memory.log) object.now offset.now (state_seen state)) }
{
    let living = K::life(&state.memory, machine.terms, object)?;
    frees_alive(machine, &living, object, offset, state)
}

// A free of null, which does nothing.
fn frees_null<H: Home, K: SymMemory, D: Decide>(
    machine: &Machine<'_, H, D>,
    offset: &Term<H>,
    state: State<H, K>,
) -> Result<Step<H, K>, AllocError>
    requires budget { 1 ≤ machine.now.scope.budget }
    requires fitting { IsFitting (context_of machine.now.scope) }
    requires fits { StateFitsAt (length state.kept) (state_seen state) }
    requires offset { IsTermOf (length state.kept) 64 offset.now }
    ensures { IfOk result (λ step. step_seen step ≡ attempts.frees_base (context_of machine.now.scope) base.Null offset.now (state_seen state)) }
{
    let holds = is_start(machine.terms, offset)?;
    let flow = must(machine, &holds, FaultKind::BadFree, state)?;
    match flow {
        Flow::On(state) => Ok(Step::Goes(machine.done(None, None, state)?)),
        Flow::Over(step) => Ok(step),
    }
}

fn frees_any<H: Home, K: SymMemory, D: Decide>(
    machine: &Machine<'_, H, D>,
    object: &ObjectName,
    offset: &Term<H>,
    state: State<H, K>,
) -> Result<Step<H, K>, AllocError>
    requires budget { 1 ≤ machine.now.scope.budget }
    requires fitting { IsFitting (context_of machine.now.scope) }
    requires fits { StateFitsAt (length state.kept) (state_seen state) }
    requires offset { IsTermOf (length state.kept) 64 offset.now }
    ensures { IfOk result (λ step. step_seen step ≡ attempts.frees_base (context_of machine.now.scope) (base.Object object.now) offset.now (state_seen state)) }
{
    let wanted = Wanted::Life(object.copy()?);
    let flow = knows(machine.terms.alloc(), &wanted, state)?;
    match flow {
        Flow::On(state) => frees_known(machine, object, offset, state),
        Flow::Over(step) => Ok(step),
    }
}

/// The free of a pointer. Null may be freed, and what malloc made at its start, once.
///
/// # Errors
///
/// No memory, or a count past its bound.
pub fn frees<H: Home, K: SymMemory, D: Decide>(
    machine: &Machine<'_, H, D>,
    pointer: &Pointer<H>,
    state: State<H, K>,
) -> Result<Step<H, K>, AllocError>
    requires budget { 1 ≤ machine.now.scope.budget }
    requires fitting { IsFitting (context_of machine.now.scope) }
    requires fits { StateFitsAt (length state.kept) (state_seen state) }
    requires offset { IsTermOf (length state.kept) 64 pointer.now.offset }
    ensures { IfOk result (λ step. step_seen step ≡ attempts.frees (context_of machine.now.scope) pointer.now (state_seen state)) }
{
    match pointer.base() {
        Base::Null => frees_null(machine, pointer.offset(), state),
        Base::Object(object) => frees_any(machine, object, pointer.offset(), state),
    }
}
