//! Accesses of memory: what is tested before an object is read or written.
ghost use Rattle.std.specs.Prelude.{◌≡◌, ◌≤◌, IfOk, length};
ghost use Rattle.leaves.specs.Fitting.{IsTermOf};
ghost use Rattle.log_laws.specs.Logs.{life};
ghost use Rattle.sym_bytes.specs.Answers.{Alive};
ghost use Rattle.sym_bytes.specs.ShownAnswers.{living_of};
ghost use Rattle.sym_states.specs.Attempts as attempts;
ghost use Rattle.sym_states.specs.Fitting.{LivingFits};
ghost use Rattle.state_laws.specs.Kept.{IsFitting, StateFitsAt, FlowFits, ReachedFits};
ghost use Rattle.state_sides.specs.Views.{context_of, state_seen, flow_seen};
ghost use Rattle.memory_steps.specs.Views.{reached_seen};

use decider::Decide;
use flat_ir::{FaultKind, ObjectName};
use node_values::is_within;
use places::Home;
use state_sides::{Flow, Machine, State};
use std::alloc::AllocError;
use step_parts::{fails, knows, must};
use sym_bytes::{Base, LifeOf, Pointer, Wanted};
use terms::Term;
use write_log::{Index, SymMemory};

/// An object and an offset that may be accessed.
#[derive(Drop)]
pub struct Reached<H: Home, K: Index> {
    pub object: ObjectName,
    pub offset: Term<H>,
    pub state: State<H, K>,
}

// The test of an access within an object of a size.
fn access_within<H: Home, K: SymMemory, D: Decide>(
    machine: &Machine<'_, H, D>,
    size: &Term<H>,
    count: u8,
    object: &ObjectName,
    offset: &Term<H>,
    state: State<H, K>,
) -> Result<Flow<H, K, Reached<H, K>>, AllocError>
    requires budget { 1 ≤ machine.now.scope.budget }
    requires fitting { IsFitting (context_of machine.now.scope) }
    requires fits { StateFitsAt (length state.kept) (state_seen state) }
    requires size { IsTermOf (length state.kept) 64 size.now }
    requires offset { IsTermOf (length state.kept) 64 offset.now }
    ensures { IfOk result (λ flow. flow_seen reached_seen flow ≡ attempts.access_alive (context_of machine.now.scope) (Alive size.now) count object.now offset.now (state_seen state)) }
{
    let holds = is_within(machine.terms, size, count, offset)?;
    let flow = must(machine, &holds, FaultKind::OutOfBounds, state)?;
    match flow {
        Flow::On(state) => Ok(Flow::On(Reached {
            object: object.copy()?,
            offset: offset.copy()?,
            state,
        })),
        Flow::Over(step) => Ok(Flow::Over(step)),
    }
}

fn access_alive<H: Home, K: SymMemory, D: Decide>(
    machine: &Machine<'_, H, D>,
    living: &LifeOf<H>,
    count: u8,
    object: &ObjectName,
    offset: &Term<H>,
    state: State<H, K>,
) -> Result<Flow<H, K, Reached<H, K>>, AllocError>
    requires budget { 1 ≤ machine.now.scope.budget }
    requires fitting { IsFitting (context_of machine.now.scope) }
    requires fits { StateFitsAt (length state.kept) (state_seen state) }
    requires life { LivingFits (length state.kept) (living_of living.now) }
    requires offset { IsTermOf (length state.kept) 64 offset.now }
    ensures { IfOk result (λ flow. flow_seen reached_seen flow ≡ attempts.access_alive (context_of machine.now.scope) (living_of living.now) count object.now offset.now (state_seen state)) }
{
    match living {
        LifeOf::Dead => {
            let step = fails(machine.terms.alloc(), FaultKind::UseAfterFree, state)?;
            Ok(Flow::Over(step))
        }
        LifeOf::Alive(size) => access_within(machine, size, count, object, offset, state),
    }
}

// An access of an object whose life is known.
fn access_known<H: Home, K: SymMemory, D: Decide>(
    machine: &Machine<'_, H, D>,
    count: u8,
    object: &ObjectName,
    offset: &Term<H>,
    state: State<H, K>,
) -> Result<Flow<H, K, Reached<H, K>>, AllocError>
    requires budget { 1 ≤ machine.now.scope.budget }
    requires fitting { IsFitting (context_of machine.now.scope) }
    requires fits { StateFitsAt (length state.kept) (state_seen state) }
    requires offset { IsTermOf (length state.kept) 64 offset.now }
    ensures { IfOk result (λ flow. flow_seen reached_seen flow ≡ attempts.access_alive (context_of machine.now.scope) (life state.memory.globals object.now state.memory.log) count object.now offset.now (state_seen state)) }
{
    let living = K::life(&state.memory, machine.terms, object)?;
    access_alive(machine, &living, count, object, offset, state)
}

fn access_object<H: Home, K: SymMemory, D: Decide>(
    machine: &Machine<'_, H, D>,
    count: u8,
    object: &ObjectName,
    offset: &Term<H>,
    state: State<H, K>,
) -> Result<Flow<H, K, Reached<H, K>>, AllocError>
    requires budget { 1 ≤ machine.now.scope.budget }
    requires fitting { IsFitting (context_of machine.now.scope) }
    requires fits { StateFitsAt (length state.kept) (state_seen state) }
    requires offset { IsTermOf (length state.kept) 64 offset.now }
    ensures { IfOk result (λ flow. flow_seen reached_seen flow ≡ attempts.access_object (context_of machine.now.scope) count object.now offset.now (state_seen state)) }
{
    let wanted = Wanted::Life(object.copy()?);
    let flow = knows(machine.terms.alloc(), &wanted, state)?;
    match flow {
        Flow::On(state) => access_known(machine, count, object, offset, state),
        Flow::Over(step) => Ok(Flow::Over(step)),
    }
}

fn access_base<H: Home, K: SymMemory, D: Decide>(
    machine: &Machine<'_, H, D>,
    count: u8,
    base: &Base,
    offset: &Term<H>,
    state: State<H, K>,
) -> Result<Flow<H, K, Reached<H, K>>, AllocError>
    requires budget { 1 ≤ machine.now.scope.budget }
    requires fitting { IsFitting (context_of machine.now.scope) }
    requires fits { StateFitsAt (length state.kept) (state_seen state) }
    requires offset { IsTermOf (length state.kept) 64 offset.now }
    ensures { IfOk result (λ flow. flow_seen reached_seen flow ≡ attempts.access_base (context_of machine.now.scope) count base.now offset.now (state_seen state)) }
{
    match base {
        Base::Null => {
            let step = fails(machine.terms.alloc(), FaultKind::NullAccess, state)?;
            Ok(Flow::Over(step))
        }
        Base::Object(object) => access_object(machine, count, object, offset, state),
    }
}

fn access_at<H: Home, K: SymMemory, D: Decide>(
    machine: &Machine<'_, H, D>,
    count: u8,
    pointer: &Pointer<H>,
    state: State<H, K>,
) -> Result<Flow<H, K, Reached<H, K>>, AllocError>
    requires budget { 1 ≤ machine.now.scope.budget }
    requires fitting { IsFitting (context_of machine.now.scope) }
    requires fits { StateFitsAt (length state.kept) (state_seen state) }
    requires offset { IsTermOf (length state.kept) 64 pointer.now.offset }
    ensures { IfOk result (λ flow. flow_seen reached_seen flow ≡ attempts.access (context_of machine.now.scope) count pointer.now (state_seen state)) }
{
    access_base(machine, count, pointer.base(), pointer.offset(), state)
}

/// The tests of an access of so many bytes at a pointer: it isn't null, its object lives, and the bytes lie in the object.
///
/// # Errors
///
/// No memory.
pub fn access<H: Home, K: SymMemory, D: Decide>(
    machine: &Machine<'_, H, D>,
    count: u8,
    pointer: &Pointer<H>,
    state: State<H, K>,
) -> Result<Flow<H, K, Reached<H, K>>, AllocError>
    requires budget { 1 ≤ machine.now.scope.budget }
    requires fitting { IsFitting (context_of machine.now.scope) }
    requires fits { StateFitsAt (length state.kept) (state_seen state) }
    requires offset { IsTermOf (length state.kept) 64 pointer.now.offset }
    ensures value { IfOk result (λ flow. flow_seen reached_seen flow ≡ attempts.access (context_of machine.now.scope) count pointer.now (state_seen state)) }
    ensures fits { IfOk result (λ flow. FlowFits (length state.kept) (ReachedFits (length state.kept)) (flow_seen reached_seen flow)) }
{
    access_at(machine, count, pointer, state)
}
