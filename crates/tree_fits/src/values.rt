//! Values and the types that are written for them.
ghost use Rattle.std.specs.Prelude.{◌≡◌, ◌∷◌, []};
ghost use Rattle.std.specs.List.{list_all};
ghost use Rattle.ir_programs.specs.Calls as calls;
ghost use Rattle.ir_programs.specs.Fits as spec;
ghost use Rattle.ir_programs.specs.Locals as locals;
ghost use Rattle.ir_programs.specs.Parts.{written};

use flat_ir::RegType;
use ir_tree::constants::{Value, ValueForm};
use ir_tree::module::{FunctionDefinition, IrTree};
use plain_list::Sequence;
use tree_constants::gep_steps_fit;
use tree_nodes::number_of;

/// A function of a module, and the names and the types of its registers by their numbers.
#[derive(Drop)]
pub struct Place<'a> {
    pub tree: &'a IrTree,
    pub function: &'a FunctionDefinition,
    pub names: &'a [Sequence<u8>],
    pub types: &'a [RegType],
    ghost names_are: { names.now ≡ locals.register_names function.now },
    ghost types_are: { types.now ≡ locals.register_types function.now },
}

/// Whether two types are one.
pub fn same_type(a: RegType, b: RegType) -> bool
    ensures { result ≡ calls.same_type a b }
{
    match (a, b) {
        (RegType::Int(m), RegType::Int(n)) => m == n,
        (RegType::Int(_), RegType::Ptr) => false,
        (RegType::Ptr, RegType::Int(_)) => false,
        (RegType::Ptr, RegType::Ptr) => true,
    }
}

fn is_int(kind: RegType) -> bool
    ensures { result ≡ spec.is_int kind }
{
    match kind {
        RegType::Int(_) => true,
        RegType::Ptr => false,
    }
}

/// The type of the register with this name.
fn type_of_register(place: &Place, name: &[u8]) -> RegType
    ensures { result ≡ spec.type_of_register place.now.function.now name.now }
{
    let at = number_of(name, place.names);
    match place.types.get(at) {
        Some(kind) => *kind,
        None => RegType::Ptr,
    }
}

/// Whether a value has the type that is written for it. What has no value of its own has each.
fn form_fits(place: &Place, kind: RegType, form: &ValueForm) -> bool
    ensures { result ≡ spec.form_fits place.now.tree.now place.now.function.now kind form.now }
{
    match form {
        ValueForm::Local(name) => same_type(type_of_register(place, name.as_slice()), kind),
        ValueForm::Global(_) | ValueForm::Null => same_type(RegType::Ptr, kind),
        ValueForm::Int(_) => is_int(kind),
        ValueForm::True | ValueForm::False => same_type(RegType::Int(1), kind),
        ValueForm::Undef | ValueForm::Poison | ValueForm::ZeroInitializer => true,
        ValueForm::Gep(gep) => {
            same_type(RegType::Ptr, kind) && gep_steps_fit(place.tree.types.as_slice(), gep)
        }
    }
}

/// Whether a value has the type that is written for it.
pub fn value_fits(place: &Place, kind: RegType, value: &Value) -> bool
    ensures { result ≡ spec.value_fits place.now.tree.now place.now.function.now (written kind value.now) }
{
    form_fits(place, kind, &value.form)
}

/// The same of a list of one value.
pub fn one_fits(place: &Place, kind: RegType, value: &Value) -> bool
    ensures { result ≡ list_all (spec.value_fits place.now.tree.now place.now.function.now) (written kind value.now ∷ []) }
{
    value_fits(place, kind, value)
}

/// The same of a list of two values.
pub fn two_fit(place: &Place, kind: RegType, a: &Value, other: RegType, b: &Value) -> bool
    ensures { result ≡ list_all (spec.value_fits place.now.tree.now place.now.function.now) (written kind a.now ∷ written other b.now ∷ []) }
{
    if !value_fits(place, kind, a) {
        return false;
    }
    one_fits(place, other, b)
}
