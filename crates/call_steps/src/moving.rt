//! Registers that are set at once.
ghost use Rattle.std.specs.Prelude.{◌≡◌, map, IfOk};
ghost use Rattle.sym_states.specs.States as states;
ghost use Rattle.sym_states.specs.Terms as values;
ghost use Rattle.state_sides.specs.Views.{context_of, state_seen, step_seen};
ghost use Rattle.call_steps.specs.Moves.{all_set};

use decider::Decide;
use flat_ir::{MoveSet, RegId};
use node_values::value_in;
use places::Home;
use state_sides::{Machine, State, Step};
use std::alloc::AllocError;
use sym_bytes::SymValue;
use sym_states::Frame;
use terms::Terms;
use write_log::{Index, SymMemory};

// What each register is set to, read before any is set.
fn read_all<H: Home, K: Index>(
    terms: &Terms<H>,
    state: &State<H, K>,
    sets: &[MoveSet],
) -> Result<Vec<(RegId, SymValue<H>)>, AllocError>
    ensures { IfOk result (λ pairs. pairs.items ≡ map (λ m. (m.register, values.value_in (state_seen state.now) m.value)) sets.now) }
{
    let mut pairs = Vec::new(terms.alloc());
    'sets: for entry in sets {
        let snapshots = state.snapshots.as_slice();
        let value = value_in(terms, snapshots, state.frame.regs(), &entry.value)?;
        pairs.push((entry.register, value))?;
    }
    Ok(pairs)
}

fn set_each<H: Home>(frame: &mut Frame<H>, pairs: Vec<(RegId, SymValue<H>)>)
    ensures { frame.new ≡ all_set pairs.items frame.old }
{
    'pairs: for pair in pairs {
        let (register, value) = pair;
        frame.set(register, value);
    }
}

/// The state whose frame has all the registers set, each to its value before any is set.
///
/// # Errors
///
/// No memory.
pub fn set_all<H: Home, K: Index>(
    terms: &Terms<H>,
    sets: &[MoveSet],
    mut state: State<H, K>,
) -> Result<State<H, K>, AllocError>
    ensures { IfOk result (λ s. state_seen s ≡ states.in_frame (values.set_all (state_seen state) sets.now state.frame) (state_seen state)) }
{
    let pairs = read_all(terms, &state, sets)?;
    set_each(&mut state.frame, pairs);
    Ok(state)
}

/// All sets of registers at once, and on to the next node.
///
/// # Errors
///
/// No memory, or a count past its bound.
pub fn moves<H: Home, K: SymMemory, D: Decide>(
    machine: &Machine<'_, H, D>,
    sets: &[MoveSet],
    state: State<H, K>,
) -> Result<Step<H, K>, AllocError>
    ensures { IfOk result (λ step. step_seen step ≡ states.goes_on (context_of machine.now.scope) (states.in_frame (values.set_all (state_seen state) sets.now state.frame) (state_seen state))) }
{
    let state = set_all(machine.terms, sets, state)?;
    Ok(Step::Goes(machine.done(None, None, state)?))
}
