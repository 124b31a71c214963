//! Names that aren't among those that are known.
ghost use Rattle.std.specs.Prelude.{◌≡◌, ◌∷◌, List, IfOk};
ghost use Rattle.ir_tree.specs.declared.types.Name.{Name};
ghost use Rattle.ir_programs.specs.Causes.{unknown_labels};
ghost use Rattle.ir_programs.specs.Refusals.{merged, first, refused};
ghost use Rattle.ir_programs.specs.Steps.{absences_left};
ghost use Rattle.ir_programs.specs.Texts.{among};
ghost use Rattle.ir_programs.specs.declared.refusals.Cause.TheVariants.{UnknownName};

use crate::numbers::{is_same, noted};
use crate::parts::{function_labels, labels_of};
use crate::refusals::{Cause, Refusal};
use ir_tree::module::FunctionDefinition;
use ir_tree::types::Name;
use plain_list::Sequence;
use std::alloc::{AllocError, Global};

/// Whether the text is one of those that are known.
pub fn is_known(text: &[u8], texts: &[Sequence<u8>]) -> bool
    ensures { result ≡ among text.now texts.now }
{
    'each: for known in texts {
        if is_same(known.as_slice(), text) {
            return true;
        }
    }
    false
}

/// What is told once one more name is looked at.
fn absence_told(
    told: Option<Refusal>,
    cause: Cause,
    name: &Name,
    texts: &[Sequence<u8>],
) -> Option<Refusal>
    ensures { (rest : List Name) → absences_left cause result texts.now rest ≡ absences_left cause told texts.now (name.now ∷ rest) }
{
    if is_known(name.text.as_slice(), texts) {
        return told;
    }
    noted(told, cause, name.at)
}

/// What is told once names are looked at that are to be among texts.
pub fn absences_told(
    told: Option<Refusal>,
    cause: Cause,
    names: &[Name],
    texts: &[Sequence<u8>],
) -> Option<Refusal>
    ensures { result ≡ absences_left cause told texts.now names.now }
{
    let mut now = told;
    'each: for name in names {
        now = absence_told(now, cause, name, texts);
    }
    now
}

/// What is told once the labels of a function are looked at: each is to be that of a block.
pub fn labels_told(
    alloc: Global,
    told: Option<Refusal>,
    function: &FunctionDefinition,
) -> Result<Option<Refusal>, AllocError>
    ensures { IfOk result (λ now. now ≡ merged told (first (refused UnknownName (unknown_labels function.now)))) }
{
    let names = function_labels(alloc, function)?;
    let texts = labels_of(alloc, function)?;
    Ok(absences_told(told, Cause::UnknownName, names.as_slice(), texts.as_slice()))
}
