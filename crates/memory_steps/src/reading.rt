//! Bytes of objects, behind the tests that decide which they are.
ghost use Rattle.std.specs.Prelude.{◌≡◌, ◌≤◌, ◌+◌, ◌-◌, ◌^◌, suc, ℕ, IfOk, length};
ghost use Rattle.leaves.specs.Fitting.{IsTermOf};
ghost use Rattle.sym_bytes.specs.Building as building;
ghost use Rattle.sym_states.specs.Attempts as attempts;
ghost use Rattle.state_laws.specs.Kept.{IsFitting, StateFitsAt, FlowFits, ReachedFits, ReadBytesFits, TestedFits};
ghost use Rattle.state_sides.specs.Offers.{tested_seen};
ghost use Rattle.state_sides.specs.Views.{context_of, state_seen, flow_seen};
ghost use Rattle.memory_steps.specs.Views.{reached_seen, bytes_seen, byte_seen, tried_then, IsEitherWay, TriedFits};

use crate::accesses::Reached;
use decider::Decide;
use flat_ir::ObjectName;
use leaves::Cause;
use node_values::behind;
use places::Home;
use plain_list::Sequence;
use state_sides::{Flow, Machine, State, Step, Tested, opens};
use std::alloc::AllocError;
use step_parts::knows;
use sym_bytes::{ReadByte, SymByte, Wanted};
use terms::Term;
use write_log::{Index, SymMemory};

/// Bytes that were read.
#[derive(Drop)]
pub struct ReadBytes<H: Home, K: Index> {
    pub bytes: Sequence<SymByte<H>>,
    pub state: State<H, K>,
}

// A byte that was read.
#[derive(Drop)]
pub(crate) struct OneByte<H: Home, K: Index> {
    pub(crate) byte: SymByte<H>,
    pub(crate) state: State<H, K>,
}

// A byte was read; or a test was taken, and it is tried again; or the test made the answer.
#[derive(Drop)]
pub(crate) enum Tried<H: Home, K: Index> {
    Byte(OneByte<H, K>),
    Again(State<H, K>),
    Over(Step<H, K>),
}

fn either_way<H: Home, K: SymMemory>(tested: Tested<H, K>) -> Tried<H, K>
    ensures way { IsEitherWay (tested_seen tested) result }
    ensures fits { (n : ℕ) → TestedFits n (tested_seen tested) → TriedFits n result }
{
    match tested {
        Tested::Good(state) => Tried::Again(state),
        Tested::Bad(state) => Tried::Again(state),
        Tested::Answered(step) => Tried::Over(step),
    }
}

// Reads a byte, or decides one more of the equalities of offsets in the log.
fn tries<H: Home, K: SymMemory, D: Decide>(
    machine: &Machine<'_, H, D>,
    object: &ObjectName,
    at: &Term<H>,
    state: State<H, K>,
) -> Result<Tried<H, K>, AllocError>
    requires budget { 1 ≤ machine.now.scope.budget }
    requires fitting { IsFitting (context_of machine.now.scope) }
    requires fits { StateFitsAt (length state.kept) (state_seen state) }
    requires at { IsTermOf (length state.kept) 64 at.now }
    ensures fits { IfOk result (λ tried. TriedFits (length state.kept) tried) }
    ensures value { (tests : ℕ) → IfOk result (λ tried. tried_then tried (attempts.read_on (context_of machine.now.scope) object.now at.now tests) ≡ attempts.read_on (context_of machine.now.scope) object.now at.now (suc tests) (state_seen state)) }
{
    let read = K::read(&state.memory, machine.terms, object, at, &state.condition)?;
    match read {
        ReadByte::Byte(byte) => Ok(Tried::Byte(OneByte { byte, state })),
        ReadByte::Undecided(holds) => Ok(either_way(machine.test(&holds, state)?)),
    }
}

// The byte of an object at an offset, behind the tests that decide which one it is.
fn read_one<H: Home, K: SymMemory, D: Decide>(
    machine: &Machine<'_, H, D>,
    object: &ObjectName,
    at: &Term<H>,
    state: State<H, K>,
) -> Result<Flow<H, K, OneByte<H, K>>, AllocError>
    requires budget { 1 ≤ machine.now.scope.budget }
    requires fitting { IsFitting (context_of machine.now.scope) }
    requires fits { StateFitsAt (length state.kept) (state_seen state) }
    requires at { IsTermOf (length state.kept) 64 at.now }
    ensures { IfOk result (λ flow. flow_seen byte_seen flow ≡ attempts.read_one (context_of machine.now.scope) object.now at.now (state_seen state)) }
{
    let mut state = state;
    let mut tests = u64::MAX;
    'tests: while tests > 0 {
        tests -= 1;
        let tried = tries(machine, object, at, state)?;
        match tried {
            Tried::Byte(one) => return Ok(Flow::On(one)),
            Tried::Again(next) => state = next,
            Tried::Over(step) => return Ok(Flow::Over(step)),
        }
    }
    Ok(Flow::Over(opens(machine.terms.alloc(), Cause::Steps, state)?))
}

// The byte of an object that lies j behind an offset.
fn read_behind<H: Home, K: SymMemory, D: Decide>(
    machine: &Machine<'_, H, D>,
    object: &ObjectName,
    offset: &Term<H>,
    j: u8,
    state: State<H, K>,
) -> Result<Flow<H, K, OneByte<H, K>>, AllocError>
    requires budget { 1 ≤ machine.now.scope.budget }
    requires fitting { IsFitting (context_of machine.now.scope) }
    requires fits { StateFitsAt (length state.kept) (state_seen state) }
    requires offset { IsTermOf (length state.kept) 64 offset.now }
    ensures value { IfOk result (λ flow. flow_seen byte_seen flow ≡ attempts.read_one (context_of machine.now.scope) object.now (building.behind offset.now j) (state_seen state)) }
    ensures fits { IfOk result (λ flow. FlowFits (length state.kept) (ReadBytesFits (length state.kept) 1) (flow_seen byte_seen flow)) }
{
    let at = behind(machine.terms, offset, u64::from(j))?;
    read_one(machine, object, &at, state)
}

// So many bytes of an object from an offset on.
fn read_all<H: Home, K: SymMemory, D: Decide>(
    machine: &Machine<'_, H, D>,
    object: &ObjectName,
    offset: &Term<H>,
    count: u8,
    state: State<H, K>,
) -> Result<Flow<H, K, ReadBytes<H, K>>, AllocError>
    requires budget { 1 ≤ machine.now.scope.budget }
    requires fitting { IsFitting (context_of machine.now.scope) }
    requires fits { StateFitsAt (length state.kept) (state_seen state) }
    requires offset { IsTermOf (length state.kept) 64 offset.now }
    ensures { IfOk result (λ flow. flow_seen bytes_seen flow ≡ attempts.read_all (context_of machine.now.scope) object.now offset.now count 0 (state_seen state)) }
{
    let mut bytes = Sequence::new(machine.terms.alloc());
    let mut state = state;
    'bytes: for j in 0..count {
        let flow = read_behind(machine, object, offset, j, state)?;
        match flow {
            Flow::On(one) => {
                bytes.push(one.byte)?;
                state = one.state;
            }
            Flow::Over(step) => return Ok(Flow::Over(step)),
        }
    }
    Ok(Flow::On(ReadBytes { bytes, state }))
}

fn reads_known<H: Home, K: SymMemory, D: Decide>(
    machine: &Machine<'_, H, D>,
    count: u8,
    reached: Reached<H, K>,
) -> Result<Flow<H, K, ReadBytes<H, K>>, AllocError>
    requires budget { 1 ≤ machine.now.scope.budget }
    requires fitting { IsFitting (context_of machine.now.scope) }
    requires fits { ReachedFits (length reached.state.kept) (reached_seen reached) }
    ensures { IfOk result (λ flow. flow_seen bytes_seen flow ≡ attempts.reads (context_of machine.now.scope) count (reached_seen reached)) }
{
    let Reached {
        object,
        offset,
        state,
    } = reached;
    let wanted = Wanted::Bytes(object.copy()?, offset.copy()?, count);
    let flow = knows(machine.terms.alloc(), &wanted, state)?;
    match flow {
        Flow::On(state) => read_all(machine, &object, &offset, count, state),
        Flow::Over(step) => Ok(Flow::Over(step)),
    }
}

/// So many bytes of an object from an offset on, once the calls that may have changed them are recovered.
///
/// # Errors
///
/// No memory.
pub fn reads<H: Home, K: SymMemory, D: Decide>(
    machine: &Machine<'_, H, D>,
    count: u8,
    reached: Reached<H, K>,
) -> Result<Flow<H, K, ReadBytes<H, K>>, AllocError>
    requires budget { 1 ≤ machine.now.scope.budget }
    requires fitting { IsFitting (context_of machine.now.scope) }
    requires fits { ReachedFits (length reached.state.kept) (reached_seen reached) }
    ensures value { IfOk result (λ flow. flow_seen bytes_seen flow ≡ attempts.reads (context_of machine.now.scope) count (reached_seen reached)) }
    ensures fits { IfOk result (λ flow. FlowFits (length reached.state.kept) (ReadBytesFits (length reached.state.kept) count) (flow_seen bytes_seen flow)) }
{
    reads_known(machine, count, reached)
}
