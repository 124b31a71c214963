//! Bytes as values.
ghost use Rattle.std.specs.Prelude.{◌≡◌, ◌↔◌, ℕ, ◌+◌, ◌*◌, ◌^◌, ◌<◌, ◌≤◌, length, IsTrue, IfOk, IfSome};
ghost use Rattle.flat_ir.specs.Registers.{bytes_of_type, joined_number, joined_pointer, joined, are_bytes_of, same_base, same_address};
ghost use Rattle.flat_ir.specs.Whole.{IsWidth};

use bitnum::Num;
use flat_ir::{Address, ConcreteByte, ConcreteValue, ObjectName, RegType, same_objects};
use std::alloc::AllocError;

/// How many bytes a value of a type takes in memory.
pub fn size_of_type(of: RegType) -> u64
    ensures { result ≡ bytes_of_type of }
{
    match of {
        RegType::Int(width) => u64::from(width / 8),
        RegType::Ptr => 8,
    }
}

// A number with a byte below it.
fn above_byte(byte: u8, above: u64) -> u64
    requires { above < 2 ^ 56 }
    ensures number { result ≡ byte + 256 * above }
    ensures below { result < 256 * above + 256 }
{
    u64::from(byte) + 256 * above
}

// The number that some bytes make, the lowest first, if all are integers.
fn join_number(bytes: &[ConcreteByte]) -> Option<u64>
    requires { length bytes.now ≤ 8 }
    ensures number { result ≡ joined_number bytes.now }
    ensures fits { IfSome result (λ n. n < 2 ^ (8 * length bytes.now)) }
{
    let Some((first, rest)) = bytes.split_first() else {
        return Some(0);
    };
    let ConcreteByte::Int(byte) = first else {
        return None;
    };
    let above = join_number(rest)?;
    Some(above_byte(*byte, above))
}

fn is_same_base(a: &Option<ObjectName>, b: &Option<ObjectName>) -> bool
    ensures { result ≡ same_base a.now b.now }
{
    match (a, b) {
        (None, None) => true,
        (Some(x), Some(y)) => x == y,
        _ => false,
    }
}

// Whether the bytes are bytes k and on of one pointer.
fn are_of(first: &Address, k: u64, bytes: &[ConcreteByte]) -> bool
    requires { k + length bytes.now < 2 ^ 64 }
    ensures { result ≡ are_bytes_of first.now k bytes.now }
{
    match bytes {
        [] => true,
        [ConcreteByte::Int(_), ..] => false,
        [ConcreteByte::PtrByte(at, j), rest @ ..] => {
            is_same_base(&first.base, &at.base)
                && first.offset == at.offset
                && u64::from(*j) == k
                && are_of(first, k + 1, rest)
        }
    }
}

// The pointer that eight bytes make: all of one pointer in their order, or all 0.
fn join_pointer(bytes: &[ConcreteByte]) -> Result<Option<ConcreteValue>, AllocError>
    requires { length bytes.now ≤ 8 }
    ensures { IfOk result (λ v. v ≡ joined_pointer bytes.now) }
{
    match bytes {
        [ConcreteByte::PtrByte(at, _), ..] if are_of(at, 0, bytes) => Ok(Some(ConcreteValue::Ptr(
            at.copy()?,
        ))),
        [ConcreteByte::Int(_), ..] if join_number(bytes) == Some(0) => Ok(Some(
            ConcreteValue::Ptr(Address {
                base: None,
                offset: 0,
            }),
        )),
        _ => Ok(None),
    }
}

/// The value of a type that as many bytes make, or `None` if they are mixed.
pub fn join_value(
    bytes: &[ConcreteByte],
    as_type: RegType,
) -> Result<Option<ConcreteValue>, AllocError>
    requires type_is { IsWidth as_type }
    requires size { length bytes.now ≡ bytes_of_type as_type }
    ensures { IfOk result (λ v. v ≡ joined as_type bytes.now) }
{
    match as_type {
        RegType::Ptr => join_pointer(bytes),
        RegType::Int(width) => {
            let Some(number) = join_number(bytes) else {
                return Ok(None);
            };
            Ok(Some(ConcreteValue::Int(Num::new(width, number))))
        }
    }
}
