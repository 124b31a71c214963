//! Whether values and strings are of a type.
ghost use Rattle.std.specs.Prelude.{◌≡◌};
ghost use Rattle.ir_tree.specs.declared.types.IrType.{out-IrType};
ghost use Rattle.ir_tree.specs.declared.constants.ValueForm.TheVariants.{Int, Null};
ghost use Rattle.ir_programs.specs.Constants as spec;

use crate::numbers::is_of_width;
use ir_tree::constants::{Integer, ValueForm};
use ir_tree::module::TypeDefinition;
use ir_tree::types::IrType;
use tree_types::head_of;

/// Whether a value is one of a type, whose head is told.
pub fn is_value_of(head: &IrType, form: &ValueForm) -> bool
    ensures { result ≡ spec.is_value_of (out-IrType head.now) form.now }
{
    match form {
        ValueForm::Undef | ValueForm::Poison | ValueForm::ZeroInitializer => true,
        ValueForm::Int(number) => is_integer_of(head, *number),
        ValueForm::Null | ValueForm::Global(_) | ValueForm::Gep(_) => is_pointer(head),
        ValueForm::Local(_) | ValueForm::True | ValueForm::False => false,
    }
}

fn is_integer_of(head: &IrType, number: Integer) -> bool
    ensures { result ≡ spec.is_value_of (out-IrType head.now) (Int number) }
{
    match head {
        IrType::Int(width) => is_of_width(*width, number),
        _ => false,
    }
}

fn is_pointer(head: &IrType) -> bool
    ensures { result ≡ spec.is_value_of (out-IrType head.now) Null }
{
    match head {
        IrType::Ptr => true,
        _ => false,
    }
}

fn is_byte(head: &IrType) -> bool
    ensures { result ≡ spec.is_byte (out-IrType head.now) }
{
    match head {
        IrType::Int(width) => *width == 8,
        _ => false,
    }
}

/// Whether bytes are an array of the type, whose head is told.
pub fn is_string_of(types: &[TypeDefinition], head: &IrType, bytes: &[u8]) -> bool
    ensures { result ≡ spec.is_string_of types.now (out-IrType head.now) bytes.now }
{
    match head {
        IrType::Array { len, element, .. } => {
            is_byte(head_of(types, element.get())) && *len == bytes.len() as u64
        }
        _ => false,
    }
}
