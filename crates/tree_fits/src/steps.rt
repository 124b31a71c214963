//! Steps of pointers.
ghost use Rattle.std.specs.Prelude.{◌≡◌, map};
ghost use Rattle.std.specs.Option.{option_copied};
ghost use Rattle.ir_tree.specs.declared.types.IrType.{out-IrType};
ghost use Rattle.ir_programs.specs.Addresses as spec;
ghost use Rattle.ir_programs.specs.Operands.{step_of};
ghost use Rattle.tree_fits.specs.Steps.{field_in, inner_of as inner_in};

use crate::values::Place;
use ir_tree::constants::{Integer, ValueForm};
use ir_tree::instructions::Index;
use ir_tree::types::IrType;
use tree_types::head_of;

fn none_if_negative(number: Integer) -> Option<u64>
    ensures { result ≡ spec.none_if_negative number }
{
    if number.negative {
        None
    } else {
        Some(number.magnitude)
    }
}

/// The number that a constant index is.
fn constant_of(form: &ValueForm) -> Option<u64>
    ensures { result ≡ spec.constant_of form.now }
{
    match form {
        ValueForm::Int(number) => none_if_negative(*number),
        ValueForm::True => Some(1),
        ValueForm::False | ValueForm::Undef | ValueForm::Poison | ValueForm::ZeroInitializer =>
            Some(0),
        ValueForm::Local(_) | ValueForm::Global(_) | ValueForm::Null | ValueForm::Gep(_) => None,
    }
}

fn field_at<'a>(fields: &'a [IrType], at: Option<u64>) -> Option<&'a IrType>
    ensures { option_copied result ≡ field_in fields.now at }
{
    match at {
        Some(k) => fields.get(k as usize),
        None => None,
    }
}

/// What an index steps into: an element of an array, or the field of a struct that a constant names.
fn inner_of<'a>(head: &'a IrType, form: &ValueForm) -> Option<&'a IrType>
    ensures { option_copied result ≡ inner_in (out-IrType head.now) form.now }
{
    match head {
        IrType::Array { element, .. } => Some(element.get()),
        IrType::Struct { fields, .. } => field_at(fields.as_slice(), constant_of(form)),
        _ => None,
    }
}

/// Whether each index steps into a part.
fn steps_fit(place: &Place, source: &IrType, indices: &[Index]) -> bool
    ensures { result ≡ spec.steps_fit place.now.tree.now.types source.now (map (step_of place.now.tree.now place.now.function.now) indices.now) }
{
    let types = place.tree.types.as_slice();
    let mut kind = source;
    'each: for index in indices {
        match inner_of(head_of(types, kind), &index.value.form) {
            Some(inner) => {
                kind = inner;
            }
            None => {
                return false;
            }
        }
    }
    true
}

/// Whether each index behind the first steps into a part.
pub fn all_steps_fit(place: &Place, source: &IrType, indices: &[Index]) -> bool
    ensures { result ≡ spec.all_steps_fit place.now.tree.now.types source.now (map (step_of place.now.tree.now place.now.function.now) indices.now) }
{
    match indices {
        [] => true,
        [_, rest @ ..] => steps_fit(place, source, rest),
    }
}
