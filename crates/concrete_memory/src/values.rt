//! Values as bytes.
ghost use Rattle.std.specs.Prelude.{◌≡◌, ℕ, ◌<◌, ◌≤◌, ◌/◌, IfOk};
ghost use Rattle.flat_ir.specs.Registers.{cut, bytes_of_value};
ghost use Rattle.concrete_memory.specs.Cutting.{AreCut};

use flat_ir::{Address, ConcreteByte, ConcreteValue, FaultKind};
use std::alloc::{AllocError, Global};

/// Why an access wasn't made.
#[derive(Drop)]
pub enum AccessError {
    Fault(FaultKind),
    Memory,
}

// Byte j of a value, the lowest first.
fn cut_byte(value: &ConcreteValue, j: u64) -> Result<ConcreteByte, AllocError>
    requires { j < 8 }
    ensures { IfOk result (λ b. b ≡ cut value.now j) }
{
    match value {
        ConcreteValue::Int(number) => Ok(ConcreteByte::Int(
            ((number.bits() >> (8 * j)) % 256) as u8,
        )),
        ConcreteValue::Ptr(at) => Ok(ConcreteByte::PtrByte(at.copy()?, j as u8)),
    }
}

/// How many bytes a value takes in memory.
pub fn size_of_value(value: &ConcreteValue) -> u64
    ensures size { result ≡ bytes_of_value value.now }
    ensures most { result ≤ 8 }
{
    match value {
        ConcreteValue::Int(number) => u64::from(number.width() / 8),
        ConcreteValue::Ptr(_) => 8,
    }
}

/// The first n bytes of a value, the lowest first.
pub fn cut_value(
    alloc: Global,
    value: &ConcreteValue,
    n: u64,
) -> Result<Vec<ConcreteByte>, AllocError>
    requires { n ≤ 8 }
    ensures { IfOk result (λ bytes. AreCut value.now n bytes.items) }
{
    let mut bytes = Vec::new(alloc);
    for j in 0..n {
        bytes.push(cut_byte(value, j)?)?;
    }
    Ok(bytes)
}
