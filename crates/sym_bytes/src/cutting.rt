//! Values as bytes.
ghost use Rattle.std.specs.Prelude.{◌≡◌, ◌<◌, IfOk};
ghost use Rattle.sym_bytes.specs.Cutting as spec;
ghost use Rattle.sym_bytes.specs.Fitting.{HasBytes};

use crate::{SymByte, SymValue, ValueKind};
use places::Home;
use plain_list::Sequence;
use std::alloc::AllocError;
use terms::{Terms, byte};

// Byte j of a value.
fn byte_of<H: Home>(
    terms: &Terms<H>,
    v: &SymValue<H>,
    bytes: u8,
    j: u8,
) -> Result<SymByte<H>, AllocError>
    requires size { HasBytes v.now bytes }
    requires within { j < bytes }
    ensures { IfOk result (λ b. b ≡ spec.byte_of v.now j) }
{
    match v.kind() {
        ValueKind::Int(t) => Ok(SymByte::int(byte(terms, t, j)?)),
        ValueKind::Ptr(p) => Ok(SymByte::of_pointer(p.copy()?, j)),
        ValueKind::Pending(call, of) => Ok(SymByte::pending(*call, *of, j)),
    }
}

/// The bytes of a value, the lowest first. The value has so many.
pub fn cut_value<H: Home>(
    terms: &Terms<H>,
    v: &SymValue<H>,
    bytes: u8,
) -> Result<Sequence<SymByte<H>>, AllocError>
    requires { HasBytes v.now bytes }
    ensures { IfOk result (λ list. list ≡ spec.cut_value v.now bytes) }
{
    let mut list = Sequence::new(terms.alloc());
    for j in 0..bytes {
        list.push(byte_of(terms, v, bytes, j)?)?;
    }
    Ok(list)
}
