//! What leaves tell of the states that they end.
ghost use Rattle.std.specs.Prelude.{◌≡◌, ◌∷◌, ◌++◌, [], Some, None, IfOk};
ghost use Rattle.leaves.specs.Fitting.{ToldFits};
ghost use Rattle.sym_states.specs.Fitting.{StateFits};
ghost use Rattle.sym_states.specs.States as states;
ghost use Rattle.state_sides.specs.Views.{state_seen, step_seen};

use crate::states::{State, Step};
use leaves::{Cause, Leaf, LeafKind, Recovered, Told};
use places::Home;
use plain_list::Sequence;
use skip_records::Snapshot;
use std::alloc::{AllocError, Global};
use term_store::Conditions;
use write_log::Index;

// The results of skipped calls that are recovered.
fn results_of<H: Home>(
    alloc: Global,
    snapshots: &[Snapshot<H>],
) -> Result<Sequence<Recovered<H>>, AllocError>
    ensures { IfOk result (λ list. list ≡ states.results_of snapshots.now) }
{
    let mut list = Sequence::new(alloc);
    'snapshots: for snapshot in snapshots {
        if let Some(value) = snapshot.result() {
            list.push(Recovered::new(snapshot.call(), value.copy()?))?;
        }
    }
    Ok(list)
}

/// What is told of a state, under a condition and with the input that is kept, if there is one.
///
/// # Errors
///
/// No memory.
pub fn told_with<H: Home, K: Index>(
    alloc: Global,
    kept: Option<Sequence<u8>>,
    condition: Conditions<H>,
    state: &State<H, K>,
) -> Result<Told<H>, AllocError>
    requires { ToldFits (states.told_with kept condition (state_seen state.now)) }
    ensures { IfOk result (λ told. told ≡ states.told_with kept condition (state_seen state.now)) }
{
    let path = state.path.to_list(alloc)?;
    let results = results_of(alloc, state.snapshots.as_slice())?;
    Ok(Told::new(condition, kept, path, results, state.left))
}

/// What is told of a state, with its condition and its input.
///
/// # Errors
///
/// No memory.
pub fn told<H: Home, K: Index>(alloc: Global, state: &State<H, K>) -> Result<Told<H>, AllocError>
    requires { StateFits (state_seen state.now) }
    ensures { IfOk result (λ told. told ≡ states.told (state_seen state.now)) }
{
    let kept = state.kept.copy(alloc)?;
    let condition = state.condition.fork()?;
    told_with(alloc, Some(kept), condition, state)
}

/// The end of a state that stays open.
///
/// # Errors
///
/// No memory.
pub fn opens<H: Home, K: Index>(
    alloc: Global,
    cause: Cause,
    state: State<H, K>,
) -> Result<Step<H, K>, AllocError>
    requires { StateFits (state_seen state) }
    ensures { IfOk result (λ step. step_seen step ≡ states.opens cause (state_seen state)) }
{
    let told = told(alloc, &state)?;
    Ok(Step::Ends(Leaf::new(LeafKind::Open { told, cause })))
}
