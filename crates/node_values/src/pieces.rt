//! Bytes of values, as they are stored and loaded.
ghost use Rattle.std.specs.Prelude.{◌≡◌, ◌≤◌, true, IfOk, length, map};
ghost use Rattle.flat_ir.specs.Registers.{bytes_of_type};
ghost use Rattle.sym_bytes.specs.Building.{number};
ghost use Rattle.sym_bytes.specs.Byte.{Int};
ghost use Rattle.sym_bytes.specs.Cutting as cutting;
ghost use Rattle.sym_bytes.specs.ShownAnswers.{join_of};
ghost use Rattle.sym_states.specs.Terms as spec;
ghost use Rattle.node_values.specs.Pieces.{is_part};

use crate::operands::resolved;
use bitnum::Num;
use flat_ir::RegType;
use places::Home;
use plain_list::Sequence;
use skip_records::Snapshot;
use std::alloc::AllocError;
use sym_bytes::{ByteKind, Joined, SymByte, SymValue, ValueKind, cut_value, join_bytes};
use terms::{Terms, byte, constant};

/// How many bytes a value of a type takes in memory.
pub fn bytes_of_type(of: RegType) -> u8
    ensures { result ≡ bytes_of_type of }
{
    match of {
        RegType::Int(width) => width / 8,
        RegType::Ptr => 8,
    }
}

/// How many bytes a value takes in memory.
pub fn bytes_of_value<H: Home>(value: &SymValue<H>) -> u8
    ensures { result ≡ spec.bytes_of_value value.now }
{
    match value.kind() {
        ValueKind::Int(t) => t.width() / 8,
        ValueKind::Ptr(_) => 8,
        ValueKind::Pending(_, of) => bytes_of_type(*of),
    }
}

/// Whether a value's bits make whole bytes.
pub fn is_of_bytes<H: Home>(value: &SymValue<H>) -> bool
    ensures { result ≡ spec.is_of_bytes value.now }
{
    match value.kind() {
        ValueKind::Int(t) => t.width() == 8 * (t.width() / 8),
        ValueKind::Ptr(_) => true,
        ValueKind::Pending(_, _) => true,
    }
}

// Whether a value has a byte j.
fn is_part<H: Home>(value: &SymValue<H>, j: u8) -> bool
    ensures { result ≡ is_part value.now j }
{
    is_of_bytes(value) && j < bytes_of_value(value)
}

fn byte_of<H: Home>(terms: &Terms<H>, value: &SymValue<H>, j: u8) -> Result<SymByte<H>, AllocError>
    requires { is_part value.now j ≡ true }
    ensures { IfOk result (λ b. b ≡ cutting.byte_of value.now j) }
{
    match value.kind() {
        ValueKind::Int(t) => Ok(SymByte::int(byte(terms, t, j)?)),
        ValueKind::Ptr(p) => Ok(SymByte::of_pointer(p.copy()?, j)),
        ValueKind::Pending(call, of) => Ok(SymByte::pending(*call, *of, j)),
    }
}

fn no_byte<H: Home>(terms: &Terms<H>) -> Result<SymByte<H>, AllocError>
    ensures { IfOk result (λ b. b ≡ Int (number 8 0)) }
{
    Ok(SymByte::int(constant(terms, Num::new(8, 0))?))
}

/// Byte j of a value, the lowest being 0. One that the value doesn't have is 0.
///
/// # Errors
///
/// No memory.
pub fn part_of<H: Home>(
    terms: &Terms<H>,
    value: &SymValue<H>,
    j: u8,
) -> Result<SymByte<H>, AllocError>
    ensures { IfOk result (λ b. b ≡ spec.part_of value.now j) }
{
    if is_part(value, j) {
        byte_of(terms, value, j)
    } else {
        no_byte(terms)
    }
}

/// The byte with its call's recovered result in place of a pending one.
///
/// # Errors
///
/// No memory.
pub fn byte_resolved<H: Home>(
    terms: &Terms<H>,
    snapshots: &[Snapshot<H>],
    byte: &SymByte<H>,
) -> Result<SymByte<H>, AllocError>
    ensures { IfOk result (λ b. b ≡ spec.byte_resolved snapshots.now byte.now) }
{
    match byte.kind() {
        ByteKind::Int(_) => byte.copy(),
        ByteKind::PtrByte(_, _) => byte.copy(),
        ByteKind::PendingByte(call, of, j) => {
            let value = resolved(snapshots, SymValue::pending(*call, *of))?;
            part_of(terms, &value, *j)
        }
    }
}

/// The bytes with recovered results in place of pending ones.
///
/// # Errors
///
/// No memory.
pub fn bytes_resolved<H: Home>(
    terms: &Terms<H>,
    snapshots: &[Snapshot<H>],
    bytes: &[SymByte<H>],
) -> Result<Sequence<SymByte<H>>, AllocError>
    ensures { IfOk result (λ list. list ≡ map (spec.byte_resolved snapshots.now) bytes.now) }
{
    let mut list = Sequence::new(terms.alloc());
    'bytes: for byte in bytes {
        list.push(byte_resolved(terms, snapshots, byte)?)?;
    }
    Ok(list)
}

/// The bytes of a value as it is stored. One whose bits make no whole bytes has none.
///
/// # Errors
///
/// No memory.
pub fn stored_bytes<H: Home>(
    terms: &Terms<H>,
    value: &SymValue<H>,
) -> Result<Sequence<SymByte<H>>, AllocError>
    ensures { IfOk result (λ list. list ≡ spec.stored_bytes value.now) }
{
    if is_of_bytes(value) {
        cut_value(terms, value, bytes_of_value(value))
    } else {
        Ok(Sequence::new(terms.alloc()))
    }
}

/// What bytes make of a type, as many as it has. No bytes make no value.
///
/// # Errors
///
/// No memory.
pub fn joined_as<H: Home>(
    terms: &Terms<H>,
    as_type: RegType,
    bytes: &[SymByte<H>],
) -> Result<Joined<H>, AllocError>
    requires most { length bytes.now ≤ 8 }
    requires size { length bytes.now ≡ bytes_of_type as_type }
    ensures { IfOk result (λ j. join_of j ≡ spec.joined_as as_type bytes.now) }
{
    match bytes.split_first() {
        None => Ok(Joined::Mixed),
        Some(_) => join_bytes(terms, bytes, as_type),
    }
}
