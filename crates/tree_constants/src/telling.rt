//! What is told of one more place.
ghost use Rattle.std.specs.Prelude.{◌≡◌};
ghost use Rattle.ir_programs.specs.Constants.{unless_fits};
ghost use Rattle.ir_programs.specs.Refusals as spec;
ghost use Rattle.tree_constants.specs.Telling.{told_at};

use ir_programs::{Cause, Refusal, earlier, noted};

/// What is told once a cause is found at a place, unless it is all right there.
pub fn noted_unless(told: Option<Refusal>, fits: bool, cause: Cause, at: u32) -> Option<Refusal>
    ensures { result ≡ told_at cause told (unless_fits fits at) }
{
    if fits { told } else { noted(told, cause, at) }
}

/// What is told of two lists, from what is told of each.
pub fn merged(told: Option<Refusal>, more: Option<Refusal>) -> Option<Refusal>
    ensures { result ≡ spec.merged told more }
{
    match (told, more) {
        (Some(a), Some(b)) => Some(earlier(a, b)),
        (Some(a), None) => Some(a),
        (None, more) => more,
    }
}
