//! Where constant pointers lead.
ghost use Rattle.std.specs.Prelude.{◌≡◌, ◌≤◌, ◌%◌, ◌^◌, ℕ, length, IsTrue};
ghost use Rattle.std.specs.List.{list_all};
ghost use Rattle.ir_tree.specs.declared.types.IrType.{out-IrType};
ghost use Rattle.ir_programs.specs.Addresses as spec;
ghost use Rattle.ir_programs.specs.Readable.{is_width, is_readable_level};
ghost use Rattle.tree_types.specs.Rooms.{AreRooms};

use crate::numbers::index_bits;
use ir_tree::constants::{ConstGep, ConstIndex, GepLevel};
use ir_tree::layouts::Room;
use ir_tree::module::TypeDefinition;
use ir_tree::types::IrType;
use tree_types::{end_of_fields, field_offset, head_of, size_of, step_into};

/// Where a constant pointer leads: how many bytes behind its global, modulo 2 to 64.
pub fn gep_offset(types: &[TypeDefinition], rooms: &[Option<Room>], gep: &ConstGep) -> u64
    requires rooms { AreRooms types.now rooms.now }
    requires readable { IsTrue (list_all is_readable_level gep.now.levels) }
    ensures { result ≡ spec.gep_offset types.now gep.now }
{
    let mut offset = 0u64;
    let levels = gep.levels.as_slice();
    for level in levels {
        offset = offset.wrapping_add(level_offset(types, rooms, level));
    }
    offset
}

/// How far one level goes.
fn level_offset(types: &[TypeDefinition], rooms: &[Option<Room>], level: &GepLevel) -> u64
    requires rooms { AreRooms types.now rooms.now }
    requires readable { IsTrue (is_readable_level level.now) }
    ensures { result ≡ spec.level_offset types.now level.now % 2 ^ 64 }
{
    match level.indices.as_slice().split_first() {
        Some((first, rest)) => {
            let whole = size_of(types, rooms, &level.source).wrapping_mul(index_bits(first));
            whole.wrapping_add(steps_offset(types, rooms, &level.source, rest))
        }
        None => 0,
    }
}

/// How far indices go within a value of the type.
fn steps_offset<'a>(
    types: &'a [TypeDefinition],
    rooms: &[Option<Room>],
    kind: &'a IrType,
    indices: &[ConstIndex],
) -> u64
    requires rooms { AreRooms types.now rooms.now }
    requires readable { IsTrue (list_all (λ i. is_width i.width) indices.now) }
    ensures { result ≡ spec.steps_offset types.now kind.now indices.now % 2 ^ 64 }
{
    let mut offset = 0u64;
    let mut part = kind;
    'steps: for index in indices {
        let head = head_of(types, part);
        offset = offset.wrapping_add(step_offset(types, rooms, head, index));
        match step_into(head, &index.value) {
            Some(inner) => {
                part = inner;
            }
            None => {
                return offset;
            }
        }
    }
    offset
}

/// How far one index goes: over whole elements of an array, or to a field of a struct.
fn step_offset(
    types: &[TypeDefinition],
    rooms: &[Option<Room>],
    head: &IrType,
    index: &ConstIndex,
) -> u64
    requires rooms { AreRooms types.now rooms.now }
    requires readable { IsTrue (is_width index.now.width) }
    ensures { result ≡ spec.step_offset types.now (out-IrType head.now) index.now % 2 ^ 64 }
{
    match head {
        IrType::Array { element, .. } => {
            size_of(types, rooms, element.get()).wrapping_mul(index_bits(index))
        }
        IrType::Struct { fields, packed, .. } => {
            place_of(
                types,
                rooms,
                fields.as_slice(),
                *packed,
                index.value.magnitude,
            )
        }
        _ => 0,
    }
}

/// Where a field of a struct stands, or where the fields end if there are no more than that.
pub fn place_of(
    types: &[TypeDefinition],
    rooms: &[Option<Room>],
    fields: &[IrType],
    packed: bool,
    field: u64,
) -> u64
    requires { AreRooms types.now rooms.now }
    ensures { result ≡ spec.field_offset types.now fields.now packed field }
{
    if field < fields.len() as u64 {
        field_offset(types, rooms, fields, packed, field as usize)
    } else {
        fields_end(types, rooms, fields, packed)
    }
}

/// Where the fields of a struct end, told as far as sizes are.
fn fields_end(
    types: &[TypeDefinition],
    rooms: &[Option<Room>],
    fields: &[IrType],
    packed: bool,
) -> u64
    requires { AreRooms types.now rooms.now }
    ensures { (k : ℕ) → length fields.now ≤ k → result ≡ spec.field_offset types.now fields.now packed k }
{
    match end_of_fields(types, rooms, fields, packed) {
        Some(end) => end.size,
        None => 0,
    }
}
