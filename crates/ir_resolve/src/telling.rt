//! What is told where a condition may fail.
ghost use Rattle.std.specs.Prelude.{◌≡◌, Some, if◌then◌else◌};
ghost use Rattle.ir_programs.specs.Refusals.{merged};

use ir_programs::{Cause, Refusal, noted};

/// What is told once it is known whether a condition fails there.
pub fn noted_if(told: Option<Refusal>, cause: Cause, at: u32, fails: bool) -> Option<Refusal>
    ensures { result ≡ (if fails then merged told (Some (record { at = at; cause = cause })) else told) }
{
    if fails { noted(told, cause, at) } else { told }
}
