//! The bytes that globals begin with.
ghost use Rattle.std.specs.Prelude.{◌≡◌, ◌++◌, ◌+◌, ◌-◌, [], ℕ, List, length, map, replicate, IfOk, IsTrue, if◌then◌else◌};
ghost use Rattle.std.specs.List.{flat_map, list_all};
ghost use Rattle.flat_ir.specs.declared.program.InitByte.TheVariants as init;
ghost use Rattle.ir_tree.specs.declared.types.IrType.{out-IrType};
ghost use Rattle.ir_tree.specs.declared.constants.ValueForm.TheVariants.{Int};
ghost use Rattle.flat_ir.specs.declared.program.InitByte.{InitByte};
ghost use Rattle.ir_tree.specs.declared.module.IrTree.{IrTree};
ghost use Rattle.ir_programs.specs.Addresses.{field_offset};
ghost use Rattle.ir_programs.specs.Constants.{head_of as head_in};
ghost use Rattle.ir_programs.specs.Programs as spec;
ghost use Rattle.ir_programs.specs.Readable as readable;
ghost use Rattle.tree_constants.specs.Heads.{has_width, have_widths};
ghost use Rattle.tree_types.specs.Rooms.{AreRooms};

use crate::addresses::{gep_offset, place_of};
use crate::constants::kind_of;
use crate::numbers::bits_of;
use crate::places::global_number;
use flat_ir::{GlobalVar, InitByte};
use ir_tree::constants::{Constant, Integer, ValueForm};
use ir_tree::layouts::Room;
use ir_tree::module::{GlobalDefinition, IrTree, TypeDefinition};
use ir_tree::types::IrType;
use plain_list::Sequence;
use std::alloc::{AllocError, Global};
use tree_types::{head_of, size_of};

/// The globals of a tree with the bytes that they begin with.
pub fn global_vars(
    alloc: Global,
    tree: &IrTree,
    rooms: &[Option<Room>],
) -> Result<Sequence<GlobalVar>, AllocError>
    requires rooms { AreRooms tree.now.types rooms.now }
    requires readable { IsTrue (readable.is_readable tree.now) }
    ensures { IfOk result (λ gs. gs ≡ map (spec.global_var tree.now) tree.now.globals) }
{
    let mut vars = Sequence::new(alloc);
    let globals = tree.globals.as_slice();
    for global in globals {
        vars.push(global_var(alloc, tree, rooms, global)?)?;
    }
    Ok(vars)
}

fn global_var(
    alloc: Global,
    tree: &IrTree,
    rooms: &[Option<Room>],
    global: &GlobalDefinition,
) -> Result<GlobalVar, AllocError>
    requires rooms { AreRooms tree.now.types rooms.now }
    requires types { IsTrue (have_widths tree.now.types) }
    requires readable { IsTrue (readable.is_readable_constant global.now.value) }
    ensures { IfOk result (λ g. g ≡ spec.global_var tree.now global.now) }
{
    let size = size_of(tree.types.as_slice(), rooms, kind_of(&global.value));
    let mut bytes = Vec::new(alloc);
    push_constant(&mut bytes, tree, rooms, &global.value)?;
    bytes.truncate(size as usize);
    let name = global.name.text.copy(alloc)?;
    let init = Sequence::from_vec(bytes);
    Ok(GlobalVar { name, size, init })
}

/// The bytes of a constant.
#[cycle(constants)]
#[tactic(auto, using(crate::proofs::Levels::readable_elements, crate::proofs::Levels::readable_fields))]
fn push_constant(
    bytes: &mut Vec<InitByte>,
    tree: &IrTree,
    rooms: &[Option<Room>],
    constant: &Constant,
) -> Result<(), AllocError>
    requires rooms { AreRooms tree.now.types rooms.now }
    requires types { IsTrue (have_widths tree.now.types) }
    requires readable { IsTrue (readable.is_readable_constant constant.now) }
    ensures { IfOk result (λ u. bytes.new.items ≡ bytes.old.items ++ spec.constant_bytes tree.now constant.now) }
{
    let types = tree.types.as_slice();
    let start = bytes.len();
    match constant {
        Constant::Value { kind, value } => {
            push_value(bytes, tree, rooms, kind, &value.form)?;
            pad(bytes, start, size_of(types, rooms, kind))
        }
        Constant::Bytes { bytes: text, .. } => push_text(bytes, text.as_slice()),
        Constant::Array { elements, .. } => push_all(bytes, tree, rooms, elements.as_slice()),
        Constant::Struct { kind, fields, .. } => {
            let shape = shape_of(types, kind);
            push_fields(bytes, tree, rooms, &shape, fields.as_slice())?;
            pad(bytes, start, size_of(types, rooms, kind))
        }
    }
}

/// The bytes of constants one behind the other.
#[cycle(constants)]
fn push_all(
    bytes: &mut Vec<InitByte>,
    tree: &IrTree,
    rooms: &[Option<Room>],
    constants: &[Constant],
) -> Result<(), AllocError>
    requires rooms { AreRooms tree.now.types rooms.now }
    requires types { IsTrue (have_widths tree.now.types) }
    requires readable { IsTrue (list_all readable.is_readable_constant constants.now) }
    ensures { IfOk result (λ u. bytes.new.items ≡ bytes.old.items ++ flat_map (spec.constant_bytes tree.now) constants.now) }
{
    for constant in constants {
        push_constant(bytes, tree, rooms, constant)?;
    }
    Ok(())
}

/// A struct's fields, or that a type is none.
#[derive(Clone, Copy)]
struct Shape<'a> {
    is_struct: bool,
    fields: &'a [IrType],
    packed: bool,
}

/// The shape of a type.
fn shape_of<'a>(types: &'a [TypeDefinition], kind: &'a IrType) -> Shape<'a>
    ensures { (t : IrTree) (cs : List (List InitByte)) → spec.struct_bytes t (head_in types.now kind.now) cs ≡ (if result.is_struct then spec.fields_from t result.fields.now result.packed 0 [] cs else []) }
{
    match head_of(types, kind) {
        IrType::Struct { fields, packed, .. } => Shape {
            is_struct: true,
            fields: fields.as_slice(),
            packed: *packed,
        },
        _ => Shape {
            is_struct: false,
            fields: &[],
            packed: false,
        },
    }
}

/// The bytes of a struct's fields, each at its place.
#[cycle(constants)]
#[tactic(auto, using(crate::proofs::Levels::passes_in))]
fn push_fields(
    bytes: &mut Vec<InitByte>,
    tree: &IrTree,
    rooms: &[Option<Room>],
    shape: &Shape,
    constants: &[Constant],
) -> Result<(), AllocError>
    requires rooms { AreRooms tree.now.types rooms.now }
    requires types { IsTrue (have_widths tree.now.types) }
    requires readable { IsTrue (list_all readable.is_readable_constant constants.now) }
    ensures { IfOk result (λ u. bytes.new.items ≡ bytes.old.items ++ (if shape.now.is_struct then spec.fields_from tree.now shape.now.fields.now shape.now.packed 0 [] (map (spec.constant_bytes tree.now) constants.now) else [])) }
{
    if !shape.is_struct {
        return Ok(());
    }
    let start = bytes.len();
    for place in 0..constants.len() {
        let offset = place_in(tree, rooms, shape, place);
        pad(bytes, start, offset)?;
        push_constant(bytes, tree, rooms, &constants[place])?;
    }
    Ok(())
}

/// Where a field of the shape stands.
fn place_in(tree: &IrTree, rooms: &[Option<Room>], shape: &Shape, place: usize) -> u64
    requires { AreRooms tree.now.types rooms.now }
    ensures { result ≡ field_offset tree.now.types shape.now.fields.now shape.now.packed place }
{
    let types = tree.types.as_slice();
    place_of(types, rooms, shape.fields, shape.packed, place as u64)
}

/// Zeros, up to so many bytes behind a start.
fn pad(bytes: &mut Vec<InitByte>, start: usize, size: u64) -> Result<(), AllocError>
    ensures { IfOk result (λ u. bytes.new.items ≡ bytes.old.items ++ replicate (start + size - length bytes.old.items) (init.Int 0)) }
{
    match start.checked_add(size as usize) {
        Some(end) => {
            if end > bytes.len() {
                bytes.resize(end, InitByte::Int(0))
            } else {
                Ok(())
            }
        }
        None => Err(AllocError),
    }
}

fn push_text(bytes: &mut Vec<InitByte>, text: &[u8]) -> Result<(), AllocError>
    ensures { IfOk result (λ u. bytes.new.items ≡ bytes.old.items ++ map init.Int text.now) }
{
    for byte in text {
        bytes.push(InitByte::Int(*byte))?;
    }
    Ok(())
}

/// The bytes of a value of a type.
fn push_value(
    bytes: &mut Vec<InitByte>,
    tree: &IrTree,
    rooms: &[Option<Room>],
    kind: &IrType,
    form: &ValueForm,
) -> Result<(), AllocError>
    requires rooms { AreRooms tree.now.types rooms.now }
    requires types { IsTrue (have_widths tree.now.types) }
    requires kind { IsTrue (readable.has_widths kind.now) }
    requires form { IsTrue (readable.is_readable_form form.now) }
    ensures { IfOk result (λ u. bytes.new.items ≡ bytes.old.items ++ spec.value_bytes tree.now (head_in tree.now.types kind.now) form.now) }
{
    match form {
        ValueForm::Global(name) => { push_pointer(bytes, global_number(tree, name.as_slice())?, 0) }
        ValueForm::Gep(gep) => {
            let global = global_number(tree, gep.base.text.as_slice())?;
            push_pointer(bytes, global, gep_offset(tree.types.as_slice(), rooms, gep))
        }
        ValueForm::Int(number) => { push_typed(bytes, tree, kind, number) }
        _ => Ok(()),
    }
}

/// The bytes of an integer of a type.
fn push_typed(
    bytes: &mut Vec<InitByte>,
    tree: &IrTree,
    kind: &IrType,
    number: &Integer,
) -> Result<(), AllocError>
    requires types { IsTrue (have_widths tree.now.types) }
    requires kind { IsTrue (readable.has_widths kind.now) }
    ensures { IfOk result (λ u. bytes.new.items ≡ bytes.old.items ++ spec.integer_bytes (head_in tree.now.types kind.now) (Int number.now)) }
{
    let types = tree.types.as_slice();
    let head = head_of(types, kind);
    push_integer(bytes, head, number)
}

fn push_integer(
    bytes: &mut Vec<InitByte>,
    head: &IrType,
    number: &Integer,
) -> Result<(), AllocError>
    requires { IsTrue (has_width (out-IrType head.now)) }
    ensures { IfOk result (λ u. bytes.new.items ≡ bytes.old.items ++ spec.integer_bytes (out-IrType head.now) (Int number.now)) }
{
    match head {
        IrType::Int(width) => push_number(bytes, *width / 8, bits_of(*width, number)),
        _ => Ok(()),
    }
}

/// So many bytes of a number, the lowest first.
fn push_number(bytes: &mut Vec<InitByte>, count: u8, bits: u64) -> Result<(), AllocError>
    ensures { IfOk result (λ u. bytes.new.items ≡ bytes.old.items ++ spec.number_bytes count bits) }
{
    let mut rest = bits;
    'bytes: for place in 0..count {
        bytes.push(InitByte::Int((rest % 256) as u8))?;
        rest /= 256;
    }
    Ok(())
}

/// The eight bytes of a pointer.
fn push_pointer(bytes: &mut Vec<InitByte>, global: u32, offset: u64) -> Result<(), AllocError>
    ensures { IfOk result (λ u. bytes.new.items ≡ bytes.old.items ++ spec.pointer_bytes global offset) }
{
    bytes.extend_from_slice(&[
        InitByte::PtrByte {
            global,
            offset,
            j: 0,
        },
        InitByte::PtrByte {
            global,
            offset,
            j: 1,
        },
        InitByte::PtrByte {
            global,
            offset,
            j: 2,
        },
        InitByte::PtrByte {
            global,
            offset,
            j: 3,
        },
        InitByte::PtrByte {
            global,
            offset,
            j: 4,
        },
        InitByte::PtrByte {
            global,
            offset,
            j: 5,
        },
        InitByte::PtrByte {
            global,
            offset,
            j: 6,
        },
        InitByte::PtrByte {
            global,
            offset,
            j: 7,
        },
    ])
}
