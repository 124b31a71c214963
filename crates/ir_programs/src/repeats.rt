//! Names of a function that stand twice.
ghost use Rattle.std.specs.Prelude.{◌≡◌, ◌∷◌, [], ◌++◌, List, ℕ};
ghost use Rattle.ir_programs.specs.Texts.{among};
ghost use Rattle.ir_programs.specs.Steps.{repeats_left, texts_of};
ghost use Rattle.ir_programs.specs.declared.locals.Local.{Local};

use crate::locals::Local;
use crate::numbers::{is_same, noted};
use crate::refusals::{Cause, Refusal};

fn is_among(text: &[u8], locals: &[Local]) -> bool
    ensures { result ≡ among text.now (texts_of locals.now) }
{
    'each: for local in locals {
        if is_same(local.name.text.as_slice(), text) {
            return true;
        }
    }
    false
}

/// What is told once one more name is looked at, behind those that stand in front of it.
fn repeat_told(told: Option<Refusal>, at: u32, seen: &[Local], local: &Local) -> Option<Refusal>
    ensures { (rest : List Local) → repeats_left at result (texts_of seen.now ++ local.now.name.text ∷ []) rest ≡ repeats_left at told (texts_of seen.now) (local.now ∷ rest) }
{
    if !is_among(local.name.text.as_slice(), seen) {
        return told;
    }
    if local.name.at == at {
        return told;
    }
    noted(told, Cause::DuplicateName, local.name.at)
}

/// What is told once the names of a function are looked at that stand for a second time, where they are written: a name that
/// the text leaves out has the place of the function's name.
pub fn repeats_told(told: Option<Refusal>, at: u32, locals: &[Local]) -> Option<Refusal>
    ensures { result ≡ repeats_left at told [] locals.now }
{
    let mut now = told;
    'places: for place in 0..locals.len() {
        now = repeat_told(now, at, &locals[..place], &locals[place]);
    }
    now
}
