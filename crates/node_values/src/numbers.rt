//! Numbers and pointers that stand in a program.
ghost use Rattle.std.specs.Prelude.{◌≡◌, IfOk};
ghost use Rattle.bitnum.specs.Number.{IsWidth};
ghost use Rattle.terms.specs.Tree.{width_of};
ghost use Rattle.sym_bytes.specs.Building as building;

use bitnum::Num;
use flat_ir::ObjectName;
use places::Home;
use std::alloc::AllocError;
use sym_bytes::{Base, Pointer, SymValue};
use terms::{Term, Terms, constant};

// How many bits a term has.
pub(crate) fn width<H: Home>(t: &Term<H>) -> u8
    ensures width { result ≡ width_of t.now }
    ensures is_width { IsWidth result }
{
    t.width()
}

/// An offset, a size or an address: a number of 64 bits.
///
/// # Errors
///
/// No memory.
pub fn wide<H: Home>(terms: &Terms<H>, n: u64) -> Result<Term<H>, AllocError>
    ensures value { IfOk result (λ t. t ≡ building.wide n) }
    ensures width { IfOk result (λ t. width_of t ≡ 64) }
{
    constant(terms, Num::new(64, n))
}

/// The bit 0.
pub(crate) fn no<H: Home>(terms: &Terms<H>) -> Result<Term<H>, AllocError>
    ensures value { IfOk result (λ t. t ≡ building.number 1 0) }
    ensures width { IfOk result (λ t. width_of t ≡ 1) }
{
    constant(terms, Num::new(1, 0))
}

/// The pointer into no object.
///
/// # Errors
///
/// No memory.
pub fn null<H: Home>(terms: &Terms<H>) -> Result<SymValue<H>, AllocError>
    ensures { IfOk result (λ v. v ≡ building.null) }
{
    Ok(SymValue::ptr(Pointer::new(Base::Null, wide(terms, 0)?)))
}

/// The pointer to a byte of an object, so many bytes behind its start.
///
/// # Errors
///
/// No memory.
pub fn pointer_to<H: Home>(
    terms: &Terms<H>,
    object: ObjectName,
    offset: u64,
) -> Result<SymValue<H>, AllocError>
    ensures { IfOk result (λ v. v ≡ building.pointer_to object offset) }
{
    let at = wide(terms, offset)?;
    Ok(SymValue::ptr(Pointer::new(Base::Object(object), at)))
}
