//! What stands at the marks of skipped calls.
ghost use Rattle.std.specs.Prelude.{◌≡◌, ◌++◌, IfOk};
ghost use Rattle.log_laws.specs.Logs as log;

use crate::items::{Fill, Item};
use crate::trail::Trail;
use flat_ir::Location;
use places::Home;
use plain_list::Sequence;
use std::alloc::{AllocError, Global};
use sym_bytes::{CallId, Entry};

/// The log before the call's mark.
#[tactic(auto, using(crate::proofs::Steps::cut_step))]
pub(crate) fn cut_at<H: Home>(
    alloc: Global,
    trail: &Trail<H>,
    call: CallId,
) -> Result<Trail<H>, AllocError>
    ensures { IfOk result (λ t. t ≡ log.cut call trail.now) }
{
    let mut left = trail;
    while let Some((item, older)) = left.newest() {
        if item.is_mark_of(call) {
            return older.copy();
        }
        left = older;
    }
    Trail::new(alloc)
}

// Some items upon a log.
#[tactic(auto, using(crate::proofs::Steps::put_assoc))]
fn put_back<H: Home>(
    alloc: Global,
    above: Sequence<Item<H>>,
    below: Trail<H>,
) -> Result<Trail<H>, AllocError>
    ensures { IfOk result (λ t. t ≡ above ++ below) }
{
    let mut items = above;
    let mut trail = below;
    while let Some(item) = items.pop() {
        let next = trail.with(alloc, item)?;
        trail = next;
    }
    Ok(trail)
}

/// The entries stand at the call's mark for the location.
#[tactic(auto, using(crate::proofs::Steps::fill_step, crate::proofs::Steps::put_assoc))]
pub(crate) fn filled_at<H: Home>(
    alloc: Global,
    trail: &Trail<H>,
    call: CallId,
    at: Location,
    entries: Sequence<Entry<H>>,
) -> Result<Trail<H>, AllocError>
    ensures { IfOk result (λ t. t ≡ log.fill call at entries trail.now) }
{
    let mut above = Sequence::new(alloc);
    let mut left = trail;
    while let Some((item, older)) = left.newest() {
        if item.is_mark_of(call) {
            let marked = item.with_fill(alloc, Fill::new(at, entries))?;
            let below = older.with(alloc, marked)?;
            return put_back(alloc, above, below);
        }
        above.push(item.copy(alloc)?)?;
        left = older;
    }
    trail.copy()
}
