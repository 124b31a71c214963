//! The values of operations and terminators.
ghost use Rattle.std.specs.Prelude.{◌≡◌, ◌∷◌, [], map};
ghost use Rattle.ir_tree.specs.declared.instructions.TerminatorForm.TheVariants as terminators;
ghost use Rattle.std.specs.List.{list_all};
ghost use Rattle.flat_ir.specs.declared.nodes.RegType.TheVariants as type;
ghost use Rattle.ir_programs.specs.Fits as spec;
ghost use Rattle.ir_programs.specs.Parts as parts;

use crate::values::{Place, one_fits, two_fit, value_fits};
use flat_ir::RegType;
use ir_programs::register_type;
use ir_tree::constants::Value;
use ir_tree::instructions::{Index, Operation, TerminatorForm, Typed};

fn typed_fits(place: &Place, typed: &Typed) -> bool
    ensures { result ≡ spec.value_fits place.now.tree.now place.now.function.now (parts.typed typed.now) }
{
    value_fits(place, register_type(&typed.kind), &typed.value)
}

fn indices_fit(place: &Place, indices: &[Index]) -> bool
    ensures { result ≡ list_all (spec.value_fits place.now.tree.now place.now.function.now) (map (λ i. parts.written (type.Int i.width) i.value) indices.now) }
{
    'each: for index in indices {
        if !value_fits(place, RegType::Int(index.width), &index.value) {
            return false;
        }
    }
    true
}

fn arguments_fit(place: &Place, arguments: &[Typed]) -> bool
    ensures { result ≡ list_all (spec.value_fits place.now.tree.now place.now.function.now) (map parts.typed arguments.now) }
{
    'each: for argument in arguments {
        if !typed_fits(place, argument) {
            return false;
        }
    }
    true
}

fn address_fits(place: &Place, pointer: &Value, indices: &[Index]) -> bool
    ensures { result ≡ list_all (spec.value_fits place.now.tree.now place.now.function.now) (parts.written type.Ptr pointer.now ∷ map (λ i. parts.written (type.Int i.width) i.value) indices.now) }
{
    if !value_fits(place, RegType::Ptr, pointer) {
        return false;
    }
    indices_fit(place, indices)
}

fn choice_fits(place: &Place, condition: &Value, a: &Typed, b: &Typed) -> bool
    ensures { result ≡ list_all (spec.value_fits place.now.tree.now place.now.function.now) (parts.written (type.Int 1) condition.now ∷ parts.typed a.now ∷ parts.typed b.now ∷ []) }
{
    if !value_fits(place, RegType::Int(1), condition) {
        return false;
    }
    let kind = register_type(&a.kind);
    two_fit(place, kind, &a.value, register_type(&b.kind), &b.value)
}

/// Whether each value of an operation has the type that is written for it.
pub fn operation_values_fit(place: &Place, operation: &Operation) -> bool
    ensures { result ≡ list_all (spec.value_fits place.now.tree.now place.now.function.now) (parts.operation_values operation.now) }
{
    match operation {
        Operation::Binary { width, a, b, .. } => {
            let kind = RegType::Int(*width);
            two_fit(place, kind, a, kind, b)
        }
        Operation::Compare { kind, a, b, .. } => {
            let kind = register_type(kind);
            two_fit(place, kind, a, kind, b)
        }
        Operation::Cast { from, value, .. } => one_fits(place, RegType::Int(*from), value),
        Operation::Select { condition, a, b } => choice_fits(place, condition, a, b),
        Operation::Alloca { .. } => true,
        Operation::Load { pointer, .. } => one_fits(place, RegType::Ptr, pointer),
        Operation::Store {
            kind,
            value,
            pointer,
        } => two_fit(place, register_type(kind), value, RegType::Ptr, pointer),
        Operation::GetElementPtr {
            pointer,
            indices,
            ..
        } => address_fits(place, pointer, indices.as_slice()),
        Operation::Call { arguments, .. } => arguments_fit(place, arguments.as_slice()),
    }
}

fn returned_fits(place: &Place, value: &Option<Typed>) -> bool
    ensures { result ≡ list_all (spec.value_fits place.now.tree.now place.now.function.now) (parts.terminator_values (terminators.Return value.now)) }
{
    match value {
        Some(typed) => one_fits(place, register_type(&typed.kind), &typed.value),
        None => true,
    }
}

/// Whether each value of a terminator has the type that is written for it.
pub fn terminator_values_fit(place: &Place, form: &TerminatorForm) -> bool
    ensures { result ≡ list_all (spec.value_fits place.now.tree.now place.now.function.now) (parts.terminator_values form.now) }
{
    match form {
        TerminatorForm::Return(value) => returned_fits(place, value),
        TerminatorForm::Branch { condition, .. } => one_fits(place, RegType::Int(1), condition),
        TerminatorForm::Switch { width, value, .. } => {
            one_fits(place, RegType::Int(*width), value)
        }
        TerminatorForm::Jump(_) | TerminatorForm::Unreachable => true,
    }
}
