//! The parts of pointers at run time.
ghost use Rattle.std.specs.Prelude.{◌≡◌, ◌++◌, ◌∷◌, IfOk, IsTrue, Some, map};
ghost use Rattle.std.specs.List.{list_all};
ghost use Rattle.std.specs.Option.{option_map};
ghost use Rattle.ir_tree.specs.declared.types.IrType.{out-IrType};
ghost use Rattle.ir_programs.specs.Addresses as spec;
ghost use Rattle.ir_programs.specs.Operands.{step_of};
ghost use Rattle.ir_programs.specs.Readable.{is_readable_index};
ghost use Rattle.tree_nodes.specs.Seen.{part_seen};
ghost use Rattle.tree_types.specs.Rooms.{AreRooms};

use crate::operands::operand_of;
use crate::scope::Scope;
use flat_ir::{GepPart, Operand, RegType};
use ir_tree::constants::ValueForm;
use ir_tree::instructions::Index;
use ir_tree::layouts::Room;
use ir_tree::module::TypeDefinition;
use ir_tree::types::IrType;
use plain_list::Sequence;
use std::alloc::{AllocError, Global};
use tree_types::{field_offset, head_of, size_of};

/// A part of a pointer, and the type that it leads into.
#[derive(Drop)]
pub(crate) struct Part<'a> {
    pub part: GepPart,
    pub inner: &'a IrType,
}

/// The number that a constant index is.
fn constant_of(form: &ValueForm) -> Option<u64>
    ensures { result ≡ spec.constant_of form.now }
{
    match form {
        ValueForm::Int(number) => {
            if number.negative {
                None
            } else {
                Some(number.magnitude)
            }
        }
        ValueForm::True => Some(1),
        ValueForm::False | ValueForm::Undef | ValueForm::Poison | ValueForm::ZeroInitializer => {
            Some(0)
        }
        _ => None,
    }
}

/// A field of a struct.
fn field_part<'a>(
    types: &[TypeDefinition],
    rooms: &[Option<Room>],
    fields: &'a [IrType],
    packed: bool,
    field: u64,
) -> Option<Part<'a>>
    requires { AreRooms types.now rooms.now }
    ensures { option_map part_seen result ≡ spec.constant_field types.now fields.now packed (Some field) }
{
    let field = field as usize;
    match fields.get(field) {
        Some(inner) => {
            let offset = field_offset(types, rooms, fields, packed, field);
            let part = GepPart::Field { offset };
            Some(Part { part, inner })
        }
        None => None,
    }
}

fn constant_field<'a>(
    types: &[TypeDefinition],
    rooms: &[Option<Room>],
    fields: &'a [IrType],
    packed: bool,
    form: &ValueForm,
) -> Option<Part<'a>>
    requires { AreRooms types.now rooms.now }
    ensures { option_map part_seen result ≡ spec.constant_field types.now fields.now packed (spec.constant_of form.now) }
{
    match constant_of(form) {
        Some(field) => field_part(types, rooms, fields, packed, field),
        None => None,
    }
}

/// An element of an array by any index, or a field of a struct by a constant one.
fn part_of<'a>(
    types: &[TypeDefinition],
    rooms: &[Option<Room>],
    head: &'a IrType,
    form: &ValueForm,
    index: Operand,
) -> Option<Part<'a>>
    requires { AreRooms types.now rooms.now }
    ensures { option_map part_seen result ≡ spec.part_of types.now (out-IrType head.now) (record { form = form.now; operand = index }) }
{
    match head {
        IrType::Array { element, .. } => {
            let inner = element.get();
            let scale = size_of(types, rooms, inner);
            let part = GepPart::Index { scale, index };
            Some(Part { part, inner })
        }
        IrType::Struct { fields, packed, .. } => {
            constant_field(types, rooms, fields.as_slice(), *packed, form)
        }
        _ => None,
    }
}

/// The operand of an index.
fn index_operand(scope: &Scope, index: &Index) -> Result<Operand, AllocError>
    requires { IsTrue (is_readable_index index.now) }
    ensures { IfOk result (λ o. (record { form = index.now.value.form; operand = o }) ≡ step_of scope.now.whole.now.tree.now scope.now.function.now index.now) }
{
    operand_of(scope, RegType::Int(index.width), &index.value)
}

/// The parts of a pointer, as far as its indices step into parts of the type.
fn push_parts<'a>(
    scope: &Scope<'a>,
    parts: &mut Vec<GepPart>,
    source: &'a IrType,
    indices: &[Index],
) -> Result<(), AllocError>
    requires { IsTrue (list_all is_readable_index indices.now) }
    ensures { IfOk result (λ u. parts.new.items ≡ parts.old.items ++ spec.parts_within scope.now.whole.now.tree.now.types source.now (map (step_of scope.now.whole.now.tree.now scope.now.function.now) indices.now)) }
{
    let types = scope.whole.tree.types.as_slice();
    let rooms = scope.whole.rooms;
    let mut kind = source;
    'steps: for index in indices {
        let operand = index_operand(scope, index)?;
        let head = head_of(types, kind);
        match part_of(types, rooms, head, &index.value.form, operand) {
            Some(Part { part, inner }) => {
                parts.push(part)?;
                kind = inner;
            }
            None => return Ok(()),
        }
    }
    Ok(())
}

fn first_and_rest<'a>(
    alloc: Global,
    scope: &Scope<'a>,
    source: &'a IrType,
    first: &Index,
    rest: &[Index],
) -> Result<Sequence<GepPart>, AllocError>
    requires first { IsTrue (is_readable_index first.now) }
    requires rest { IsTrue (list_all is_readable_index rest.now) }
    ensures { IfOk result (λ parts. parts ≡ spec.parts_of scope.now.whole.now.tree.now.types source.now (map (step_of scope.now.whole.now.tree.now scope.now.function.now) (first.now ∷ rest.now))) }
{
    let types = scope.whole.tree.types.as_slice();
    let scale = size_of(types, scope.whole.rooms, source);
    let index = index_operand(scope, first)?;
    let mut parts = Vec::new(alloc);
    parts.push(GepPart::Index { scale, index })?;
    push_parts(scope, &mut parts, source, rest)?;
    Ok(Sequence::from_vec(parts))
}

/// The parts of a pointer: its first index steps over whole values of the source's type, and each other one into a part.
pub(crate) fn parts_of<'a>(
    alloc: Global,
    scope: &Scope<'a>,
    source: &'a IrType,
    indices: &[Index],
) -> Result<Sequence<GepPart>, AllocError>
    requires { IsTrue (list_all is_readable_index indices.now) }
    ensures { IfOk result (λ parts. parts ≡ spec.parts_of scope.now.whole.now.tree.now.types source.now (map (step_of scope.now.whole.now.tree.now scope.now.function.now) indices.now)) }
{
    match indices {
        [] => Ok(Sequence::new(alloc)),
        [first, rest @ ..] => first_and_rest(alloc, scope, source, first, rest),
    }
}
