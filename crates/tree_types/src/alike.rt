//! Types that are one.
ghost use Rattle.std.specs.Prelude.{◌≡◌, map, None, true};
ghost use Rattle.std.specs.Bool.{Decides};
ghost use Rattle.std.specs.Option.{option_copied};
ghost use Rattle.std.specs.Fmt.{decimal};
ghost use Rattle.ir_programs.specs.Types as spec;
ghost use Rattle.ir_tree.specs.Texts.{local_text, width_text};
ghost use Rattle.tree_types.specs.Alike.{spelled, replaced};

use crate::names::kind_of;
use ir_programs::is_same;
use ir_tree::module::TypeDefinition;
use ir_tree::types::IrType;

/// What a name stands for, where so many names are still replaced.
fn behind_name<'a>(
    types: &'a [TypeDefinition],
    kind: &'a IrType,
    names: usize,
) -> Option<&'a IrType>
    ensures { option_copied result ≡ replaced names types.now kind.now }
{
    if names == 0 {
        return None;
    }
    match kind {
        IrType::Named { name, at: _ } => kind_of(types, name.as_slice()),
        _ => None,
    }
}

/// Whether both types are one name, and no name is replaced or as many as in the other.
fn is_one_name(
    types: &[TypeDefinition],
    a: &IrType,
    a_names: usize,
    b: &IrType,
    b_names: usize,
) -> bool
    ensures { result ≡ true → spelled a_names types.now a.now ≡ spelled b_names types.now b.now }
{
    match a {
        IrType::Named { name, at: _ } => match b {
            IrType::Named { name: other, at: _ } => a_names == b_names
                && is_same(name.as_slice(), other.as_slice()),
            _ => false,
        },
        _ => false,
    }
}

fn is_same_width(a: u8, b: u8) -> bool
    ensures { Decides result (width_text a ≡ width_text b) }
{
    a == b
}

fn is_same_length(a: u64, b: u64) -> bool
    ensures { Decides result (decimal a ≡ decimal b) }
{
    a == b
}

fn is_same_packed(a: bool, b: bool) -> bool
    ensures { Decides result (a ≡ b) }
{
    if a { b } else { !b }
}

fn is_same_name(a: &[u8], b: &[u8]) -> bool
    ensures { Decides result (local_text a.now ≡ local_text b.now) }
{
    is_same(a, b)
}

/// Whether two types are spelled alike, with so many names within one another replaced in each.
#[cycle(alike)]
fn are_alike(
    types: &[TypeDefinition],
    a: &IrType,
    a_names: usize,
    b: &IrType,
    b_names: usize,
) -> bool
    ensures { Decides result (spelled a_names types.now a.now ≡ spelled b_names types.now b.now) }
{
    if is_one_name(types, a, a_names, b, b_names) {
        return true;
    }
    match behind_name(types, a, a_names) {
        Some(inner) => are_alike(types, inner, a_names - 1, b, b_names),
        None => match behind_name(types, b, b_names) {
            Some(inner) => are_alike(types, a, a_names, inner, b_names - 1),
            None => are_levels_alike(types, a, a_names, b, b_names),
        },
    }
}

/// The same of two types that aren't names which are replaced.
#[cycle(alike)]
fn are_levels_alike(
    types: &[TypeDefinition],
    a: &IrType,
    a_names: usize,
    b: &IrType,
    b_names: usize,
) -> bool
    requires a { replaced a_names types.now a.now ≡ None }
    requires b { replaced b_names types.now b.now ≡ None }
    ensures { Decides result (spelled a_names types.now a.now ≡ spelled b_names types.now b.now) }
{
    match a {
        IrType::Int(width) => match b {
            IrType::Int(other) => is_same_width(*width, *other),
            _ => false,
        },
        IrType::Ptr => match b {
            IrType::Ptr => true,
            _ => false,
        },
        IrType::Array {
            at: _,
            len,
            element,
        } => match b {
            IrType::Array {
                at: _,
                len: other_len,
                element: other,
            } => {
                if !is_same_length(*len, *other_len) {
                    return false;
                }
                are_alike(types, element.get(), a_names, other.get(), b_names)
            }
            _ => false,
        },
        IrType::Struct {
            at: _,
            fields,
            packed,
        } => match b {
            IrType::Struct {
                at: _,
                fields: others,
                packed: other_packed,
            } => {
                if !is_same_packed(*packed, *other_packed) {
                    return false;
                }
                are_each_alike(
                    types,
                    fields.as_slice(),
                    a_names,
                    others.as_slice(),
                    b_names,
                )
            }
            _ => false,
        },
        IrType::Named { name, at: _ } => match b {
            IrType::Named { name: other, at: _ } => is_same_name(name.as_slice(), other.as_slice()),
            _ => false,
        },
    }
}

/// The same of types one by one.
#[cycle(alike)]
fn are_each_alike(
    types: &[TypeDefinition],
    a: &[IrType],
    a_names: usize,
    b: &[IrType],
    b_names: usize,
) -> bool
    ensures { Decides result (map (spelled a_names types.now) a.now ≡ map (spelled b_names types.now) b.now) }
{
    if a.len() != b.len() {
        return false;
    }
    'fields: for place in 0..a.len() {
        if !are_alike(types, &a[place], a_names, &b[place], b_names) {
            return false;
        }
    }
    true
}

/// Whether two types are one: they are spelled alike with each name replaced by what it stands for.
pub fn is_one_type(types: &[TypeDefinition], a: &IrType, b: &IrType) -> bool
    ensures { result ≡ spec.is_one_type types.now a.now b.now }
{
    are_alike(types, a, types.len(), b, types.len())
}
