//! Pointers, values and bytes, which contracts see with no table of terms.
ghost use Rattle.std.specs.Prelude.{◌≡◌, ◌<◌, IfOk};
ghost use Rattle.terms.specs.Tree.{IsTree, width_of};
ghost use Rattle.flat_ir.specs.Registers.{bytes_of_type};
ghost use Rattle.sym_bytes.specs.Byte as byte;
ghost use Rattle.sym_bytes.specs.Fitting.{IsWide, IsByte, IsValue};
ghost use Rattle.sym_bytes.specs.Shown.{value_of_kind, byte_of_kind};
ghost use Rattle.sym_bytes.specs.Value as value;

use crate::{Base, ByteKind, CallId, ValueKind};
use flat_ir::RegType;
use places::Home;
use std::alloc::AllocError;
use std::marker::Model;
use terms::Term;

/// An object, or none, and an offset of 64 bits.
pub struct Pointer<H: Home> {
    base: Base,
    offset: Term<H>,
}

// All that lets one go is in this one place, and each end of a scope is a call.
impl<H: Home> Drop for Pointer<H> {
    fn drop(self) {
        let Pointer { base: _, offset: _ } = self;
    }
}

impl<H: Home> Model for Pointer<H> {
    ghost use Rattle.sym_bytes.specs.Pointers.{Pointer};

    ghost Value = { Pointer };

    ghost use Rattle.std.specs.Coded.{codes};
    ghost use Rattle.terms.specs.Codes.{coded_tree};

    ghost coded = { Prim.hlevel (codes, coded_tree) };

    ghost use Rattle.sym_bytes.specs.Fitting.{IsWide};

    ghost view = { λ p. record { base = p.base; offset = p.offset } };

    ghost invariant = { λ p. IsWide p.offset };
}

impl<H: Home> Pointer<H> {
    pub fn new(base: Base, offset: Term<H>) -> Pointer<H>
        requires { width_of offset ≡ 64 }
        ensures { result ≡ record { base = base; offset = offset } }
    {
        let _width = offset.width();
        Pointer { base, offset }
    }

    /// What the pointer points into.
    pub fn base(&self) -> &Base
        ensures { result.now ≡ self.now.base }
    {
        &self.base
    }

    /// Where it points there.
    pub fn offset(&self) -> &Term<H>
        ensures value { result.now ≡ self.now.offset }
        ensures wide { IsWide self.now.offset }
    {
        &self.offset
    }

    /// An equal pointer, which shares its parts.
    pub fn copy(&self) -> Result<Pointer<H>, AllocError>
        ensures { IfOk result (λ p. p ≡ self.now) }
    {
        Ok(Pointer {
            base: self.base.copy()?,
            offset: self.offset.copy()?,
        })
    }
}

/// A value of an exploration.
pub struct SymValue<H: Home> {
    kind: ValueKind<H>,
}

// All that lets one go is in this one place, and each end of a scope is a call.
impl<H: Home> Drop for SymValue<H> {
    fn drop(self) {
        let SymValue { kind: _ } = self;
    }
}

impl<H: Home> Model for SymValue<H> {
    ghost use Rattle.sym_bytes.specs.Value.{SymValue};

    ghost Value = { SymValue };

    ghost use Rattle.std.specs.Coded.{codes};
    ghost use Rattle.terms.specs.Codes.{coded_tree};

    ghost coded = { Prim.hlevel (codes, coded_tree) };

    ghost use Rattle.sym_bytes.specs.Fitting.{IsValue};
    ghost use Rattle.sym_bytes.specs.Shown.{value_of_kind};

    ghost view = { λ v. value_of_kind v.kind };

    ghost invariant = { λ v. IsValue (value_of_kind v.kind) };
}

impl<H: Home> SymValue<H> {
    /// A number.
    pub fn int(t: Term<H>) -> SymValue<H>
        ensures { result ≡ value.Int t }
    {
        let _width = t.width();
        SymValue {
            kind: ValueKind::Int(t),
        }
    }

    /// A pointer.
    pub fn ptr(p: Pointer<H>) -> SymValue<H>
        ensures { result ≡ value.Ptr p }
    {
        let _offset = p.offset();
        SymValue {
            kind: ValueKind::Ptr(p),
        }
    }

    /// What a skipped call will have returned, of a type.
    pub fn pending(call: CallId, of: RegType) -> SymValue<H>
        ensures { result ≡ value.Pending call of }
    {
        SymValue {
            kind: ValueKind::Pending(call, of),
        }
    }

    /// What the value is.
    pub fn kind(&self) -> &ValueKind<H>
        ensures kind { value_of_kind result.now ≡ self.now }
        ensures fits { IsValue self.now }
    {
        &self.kind
    }

    /// An equal value, which shares its parts.
    pub fn copy(&self) -> Result<SymValue<H>, AllocError>
        ensures { IfOk result (λ v. v ≡ self.now) }
    {
        match &self.kind {
            ValueKind::Int(t) => Ok(SymValue::int(t.copy()?)),
            ValueKind::Ptr(p) => Ok(SymValue::ptr(p.copy()?)),
            ValueKind::Pending(call, of) => Ok(SymValue::pending(*call, *of)),
        }
    }
}

/// A byte of an exploration.
pub struct SymByte<H: Home> {
    kind: ByteKind<H>,
}

// All that lets one go is in this one place, and each end of a scope is a call.
impl<H: Home> Drop for SymByte<H> {
    fn drop(self) {
        let SymByte { kind: _ } = self;
    }
}

impl<H: Home> Model for SymByte<H> {
    ghost use Rattle.sym_bytes.specs.Byte.{SymByte};

    ghost Value = { SymByte };

    ghost use Rattle.std.specs.Coded.{codes};
    ghost use Rattle.terms.specs.Codes.{coded_tree};

    ghost coded = { Prim.hlevel (codes, coded_tree) };

    ghost use Rattle.sym_bytes.specs.Fitting.{IsByte};
    ghost use Rattle.sym_bytes.specs.Shown.{byte_of_kind};

    ghost view = { λ b. byte_of_kind b.kind };

    ghost invariant = { λ b. IsByte (byte_of_kind b.kind) };
}

impl<H: Home> SymByte<H> {
    /// A number of 8 bits.
    pub fn int(t: Term<H>) -> SymByte<H>
        requires { width_of t ≡ 8 }
        ensures { result ≡ byte.Int t }
    {
        let _width = t.width();
        SymByte {
            kind: ByteKind::Int(t),
        }
    }

    /// Byte j of a pointer, the lowest being 0.
    pub fn of_pointer(p: Pointer<H>, j: u8) -> SymByte<H>
        ensures { result ≡ byte.PtrByte p j }
    {
        let _offset = p.offset();
        SymByte {
            kind: ByteKind::PtrByte(p, j),
        }
    }

    /// Byte j of what a skipped call will have returned, of a type.
    pub fn pending(call: CallId, of: RegType, j: u8) -> SymByte<H>
        requires { j < bytes_of_type of }
        ensures { result ≡ byte.PendingByte call of j }
    {
        SymByte {
            kind: ByteKind::PendingByte(call, of, j),
        }
    }

    /// What the byte is.
    pub fn kind(&self) -> &ByteKind<H>
        ensures kind { byte_of_kind result.now ≡ self.now }
        ensures fits { IsByte self.now }
    {
        &self.kind
    }

    /// An equal byte, which shares its parts.
    pub fn copy(&self) -> Result<SymByte<H>, AllocError>
        ensures { IfOk result (λ b. b ≡ self.now) }
    {
        match &self.kind {
            ByteKind::Int(t) => Ok(SymByte::int(t.copy()?)),
            ByteKind::PtrByte(p, j) => Ok(SymByte::of_pointer(p.copy()?, *j)),
            ByteKind::PendingByte(call, of, j) => Ok(SymByte::pending(*call, *of, *j)),
        }
    }
}
