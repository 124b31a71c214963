//! What types take in memory, and where the fields of structs stand. The room of each definition is told once.
ghost use Rattle.std.specs.Prelude.{◌≡◌, ◌<◌, ◌≤◌, ◌+◌, ◌*◌, suc, min, max, map, length, get_or, if◌then◌else◌, ℕ, List, Option, Some, None, IfOk, IfSome, true};
ghost use Rattle.layout.specs.Layout as rules;
ghost use Rattle.layout.specs.Layout.{Extent};
ghost use Rattle.ir_programs.specs.Addresses as addresses;
ghost use Rattle.ir_programs.specs.Types as spec;
ghost use Rattle.ir_tree.specs.Extents.{Agrees, EndsAs};
ghost use Rattle.ir_tree.specs.Layout as within;
ghost use Rattle.tree_types.specs.Rooms.{AreRooms, AreRoomsWithin, AreSomeRooms, IsSmall};

use crate::names::kind_of;
use ir_programs::is_same;
use ir_tree::layouts::Room;
use ir_tree::module::TypeDefinition;
use ir_tree::types::IrType;
use layout::aligned;
use plain_list::Sequence;
use std::alloc::{AllocError, Global};

/// One more byte than an object may have: sizes are told up to this one.
const MOST: u64 = 65537;

fn capped(size: u64) -> u64
    ensures { result ≡ min within.most size }
{
    size.min(MOST)
}

/// So many times a size.
fn times(count: u64, size: u64) -> u64
    requires { size ≤ within.most }
    ensures { result ≡ min within.most (count * size) }
{
    if size == 0 {
        0
    } else if count >= MOST {
        MOST
    } else {
        capped(count * size)
    }
}

/// A number of bits.
fn of_integer(width: u8) -> Option<Room>
    ensures { Agrees result (within.of_integer width) }
{
    if width == 8 || width == 16 || width == 32 || width == 64 {
        let bytes = (width / 8) as u64;
        Some(Room {
            size: bytes,
            align: bytes,
        })
    } else {
        None
    }
}

/// An array of so many elements.
fn array_of(len: u64, element: Option<Room>) -> Option<Room>
    requires { IfSome element (λ e. e.size ≤ within.most) }
    ensures { (e : Option Extent) → Agrees element e → Agrees result (within.of_array len e) }
{
    match element {
        Some(e) => Some(Room {
            size: times(len, e.size),
            align: e.align,
        }),
        None => None,
    }
}

fn room_at(rooms: &[Option<Room>], place: usize) -> Option<Room>
    ensures { result ≡ get_or rooms.now place None }
{
    match rooms.get(place) {
        Some(room) => *room,
        None => None,
    }
}

/// What a name stands for takes.
fn room_of_name(types: &[TypeDefinition], rooms: &[Option<Room>], name: &[u8]) -> Option<Room>
    ensures { (n : ℕ) → AreRoomsWithin n types.now rooms.now → Agrees result (within.name_within n types.now name.now) }
{
    'places: for place in 0..types.len() {
        let definition = &types[place];
        if is_same(definition.name.text.as_slice(), name) {
            return room_at(rooms, place);
        }
    }
    None
}

/// What a type takes.
#[cycle(rooms)]
fn room_of_type(types: &[TypeDefinition], rooms: &[Option<Room>], kind: &IrType) -> Option<Room>
    requires { AreSomeRooms types.now rooms.now }
    ensures { (n : ℕ) → AreRoomsWithin n types.now rooms.now → Agrees result (within.extent_within n types.now kind.now) }
{
    match kind {
        IrType::Int(width) => of_integer(*width),
        IrType::Ptr => Some(Room { size: 8, align: 8 }),
        IrType::Array {
            at: _,
            len,
            element,
        } => {
            let inner = room_of_type(types, rooms, element.get());
            array_of(*len, inner)
        }
        IrType::Struct {
            at: _,
            fields,
            packed,
        } => room_of_struct(types, rooms, fields.as_slice(), *packed),
        IrType::Named { name, at: _ } => room_of_name(types, rooms, name.as_slice()),
    }
}

/// What a struct of these fields takes.
#[cycle(rooms)]
fn room_of_struct(
    types: &[TypeDefinition],
    rooms: &[Option<Room>],
    fields: &[IrType],
    packed: bool,
) -> Option<Room>
    requires { AreSomeRooms types.now rooms.now }
    ensures { (n : ℕ) → AreRoomsWithin n types.now rooms.now → Agrees result (within.of_struct packed (within.each (map (within.extent_within n types.now) fields.now))) }
{
    match end_of_fields(types, rooms, fields, packed) {
        Some(end) => Some(Room {
            size: capped(aligned(end.size, end.align)),
            align: end.align,
        }),
        None => None,
    }
}

/// Where these fields of a struct end, and the greatest of their alignments.
#[cycle(rooms)]
pub fn end_of_fields(
    types: &[TypeDefinition],
    rooms: &[Option<Room>],
    fields: &[IrType],
    packed: bool,
) -> Option<Room>
    requires { AreSomeRooms types.now rooms.now }
    ensures { (n : ℕ) → AreRoomsWithin n types.now rooms.now → EndsAs packed result (within.each (map (within.extent_within n types.now) fields.now)) }
{
    let mut end = Room { size: 0, align: 1 };
    'fields: for field in fields {
        match room_of_type(types, rooms, field) {
            Some(own) => {
                end = behind_field(end, own, packed);
            }
            None => {
                return None;
            }
        }
    }
    Some(end)
}

/// The alignment of a field, which a packed struct doesn't look at.
fn own_align(packed: bool, align: u64) -> u64
    ensures { result ≡ (if packed then 1 else align) }
{
    if packed { 1 } else { align }
}

/// Where fields end once one more stands behind them.
fn behind_field(end: Room, own: Room, packed: bool) -> Room
    requires end { IsSmall end }
    requires own { IsSmall own }
    ensures size { result.size ≡ min within.most (rules.aligned end.size (if packed then 1 else own.align) + own.size) }
    ensures align { result.align ≡ max end.align (if packed then 1 else own.align) }
    ensures small { IsSmall result }
{
    let align = own_align(packed, own.align);
    Room {
        size: capped(aligned(end.size, align) + own.size),
        align: end.align.max(align),
    }
}

/// What a definition's name stands for takes, through one more name.
fn room_of_definition(
    types: &[TypeDefinition],
    rooms: &[Option<Room>],
    definition: &TypeDefinition,
) -> Option<Room>
    requires { AreSomeRooms types.now rooms.now }
    ensures { (n : ℕ) → AreRoomsWithin n types.now rooms.now → Agrees result (within.name_within (suc n) types.now definition.now.name.text) }
{
    match kind_of(types, definition.name.text.as_slice()) {
        Some(kind) => room_of_type(types, rooms, kind),
        None => None,
    }
}

/// Where no name is replaced, none takes anything.
fn no_rooms(alloc: Global, types: &[TypeDefinition]) -> Result<Vec<Option<Room>>, AllocError>
    ensures { IfOk result (λ rooms. AreRoomsWithin 0 types.now rooms.items) }
{
    let mut rooms = Vec::new(alloc);
    'each: for definition in types {
        rooms.push(None)?;
    }
    Ok(rooms)
}

/// What each definition's name stands for takes, through one more name.
fn next_rooms(
    alloc: Global,
    types: &[TypeDefinition],
    rooms: &[Option<Room>],
) -> Result<Vec<Option<Room>>, AllocError>
    requires { AreSomeRooms types.now rooms.now }
    ensures { IfOk result (λ next. (n : ℕ) → AreRoomsWithin n types.now rooms.now → AreRoomsWithin (suc n) types.now next.items) }
{
    let mut next = Vec::new(alloc);
    'each: for definition in types {
        next.push(room_of_definition(types, rooms, definition))?;
    }
    Ok(next)
}

fn is_same_room(a: Option<Room>, b: Option<Room>) -> bool
    ensures { result ≡ true → a ≡ b }
{
    match a {
        Some(x) => match b {
            Some(y) => x.size == y.size && x.align == y.align,
            None => false,
        },
        None => b.is_none(),
    }
}

fn are_same(a: &[Option<Room>], b: &[Option<Room>]) -> bool
    ensures { result ≡ true → a.now ≡ b.now }
{
    if a.len() != b.len() {
        return false;
    }
    'places: for place in 0..a.len() {
        if !is_same_room(a[place], b[place]) {
            return false;
        }
    }
    true
}

/// What each definition's name stands for takes.
///
/// It goes by rounds, each through one more name, and ends where a round changes nothing.
pub fn rooms_of(
    alloc: Global,
    types: &[TypeDefinition],
) -> Result<Sequence<Option<Room>>, AllocError>
    ensures { IfOk result (λ rooms. AreRooms types.now rooms) }
{
    let mut rooms = no_rooms(alloc, types)?;
    'rounds: for place in 0..types.len() {
        let next = next_rooms(alloc, types, rooms.as_slice())?;
        if are_same(next.as_slice(), rooms.as_slice()) {
            return Ok(Sequence::from_vec(rooms));
        }
        rooms = next;
    }
    Ok(Sequence::from_vec(rooms))
}

/// How many bytes a type takes, told up to 65,537; a type that holds itself or an unknown one takes none.
pub fn size_of(types: &[TypeDefinition], rooms: &[Option<Room>], kind: &IrType) -> u64
    requires { AreRooms types.now rooms.now }
    ensures { result ≡ spec.size_of types.now kind.now }
{
    match room_of_type(types, rooms, kind) {
        Some(room) => room.size,
        None => 0,
    }
}

/// Where a field stands behind those before it.
fn place_of(end: Option<Room>, own: Option<Room>, packed: bool) -> u64
    requires end { IfSome end (λ r. IsSmall r) }
    requires own { IfSome own (λ r. IsSmall r) }
    ensures { IfSome end (λ e. IfSome own (λ o. result ≡ min within.most (rules.aligned e.size (if packed then 1 else o.align)))) }
{
    match end {
        Some(end) => match own {
            Some(own) => capped(aligned(end.size, own_align(packed, own.align))),
            None => 0,
        },
        None => 0,
    }
}

/// Where a field of a struct stands, told as far as sizes are.
pub fn field_offset(
    types: &[TypeDefinition],
    rooms: &[Option<Room>],
    fields: &[IrType],
    packed: bool,
    field: usize,
) -> u64
    requires rooms { AreRooms types.now rooms.now }
    requires field { field < length fields.now }
    ensures { result ≡ addresses.field_offset types.now fields.now packed field }
{
    match end_of_fields(types, rooms, fields, packed) {
        Some(_) => {
            let end = end_of_fields(types, rooms, &fields[..field], packed);
            let own = room_of_type(types, rooms, &fields[field]);
            place_of(end, own, packed)
        }
        None => 0,
    }
}
