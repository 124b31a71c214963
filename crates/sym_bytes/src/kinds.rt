//! What stands in values and bytes.
use crate::{CallId, Pointer};
use flat_ir::RegType;
use places::Home;
use terms::Term;

/// What a value is.
#[derive(Drop)]
pub enum ValueKind<H: Home> {
    /// A number.
    Int(Term<H>),
    /// A pointer.
    Ptr(Pointer<H>),
    /// What a skipped call will have returned, of that type.
    Pending(CallId, RegType),
}

/// What a byte is.
#[derive(Drop)]
pub enum ByteKind<H: Home> {
    /// A number of 8 bits.
    Int(Term<H>),
    /// The byte of this number of a pointer, the lowest being 0.
    PtrByte(Pointer<H>, u8),
    /// The byte of this number of what a skipped call will have returned, of that type.
    PendingByte(CallId, RegType, u8),
}
