//! Values of a concrete run, and its faults.
ghost use Rattle.std.specs.Prelude.{◌≡◌, IfOk};

use crate::ObjectName;
use bitnum::Num;
use std::alloc::AllocError;

#[derive(Clone, Copy, Debug, PartialEq, Eq)]
pub enum FaultKind {
    DivideByZero,
    DivideOverflow,
    NullAccess,
    UseAfterFree,
    OutOfBounds,
    MixedBytes,
    BadFree,
    Unreachable,
    Assert,
    Abort,
    NoReturn,
}

/// An object or none, and an offset.
#[derive(Drop)]
pub struct Address {
    pub base: Option<ObjectName>,
    pub offset: u64,
}

#[derive(Drop)]
pub enum ConcreteByte {
    Int(u8),
    PtrByte(Address, u8),
}

#[derive(Drop)]
pub enum ConcreteValue {
    Int(Num),
    Ptr(Address),
}

impl Address {
    /// An equal address, which shares the name.
    pub fn copy(&self) -> Result<Address, AllocError>
        ensures { IfOk result (λ a. a ≡ self.now) }
    {
        let base = match &self.base {
            None => None,
            Some(name) => Some(name.copy()?),
        };
        Ok(Address {
            base,
            offset: self.offset,
        })
    }
}

impl ConcreteByte {
    /// An equal byte.
    pub fn copy(&self) -> Result<ConcreteByte, AllocError>
        ensures { IfOk result (λ b. b ≡ self.now) }
    {
        match self {
            ConcreteByte::Int(byte) => Ok(ConcreteByte::Int(*byte)),
            ConcreteByte::PtrByte(address, j) => Ok(ConcreteByte::PtrByte(address.copy()?, *j)),
        }
    }
}

impl ConcreteValue {
    /// An equal value.
    pub fn copy(&self) -> Result<ConcreteValue, AllocError>
        ensures { IfOk result (λ v. v ≡ self.now) }
    {
        match self {
            ConcreteValue::Int(number) => Ok(ConcreteValue::Int(*number)),
            ConcreteValue::Ptr(address) => Ok(ConcreteValue::Ptr(address.copy()?)),
        }
    }
}
