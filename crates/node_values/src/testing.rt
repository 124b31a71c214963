//! Tests of divisions, sizes and accesses, each of one bit.
ghost use Rattle.std.specs.Prelude.{◌≡◌, ◌-◌, ◌^◌, ◌<◌, IfOk};
ghost use Rattle.bitnum.specs.Number.{IsWidth};
ghost use Rattle.terms.specs.Tree.{width_of};
ghost use Rattle.sym_states.specs.Terms as spec;

use crate::comparing::{not_ult, unequal};
use crate::numbers::{wide, width};
use bitnum::{BinOp, Num};
use places::Home;
use std::alloc::AllocError;
use terms::{Term, Terms, bin, constant, eq, not};

fn all_ones(width: u8) -> u64
    requires { IsWidth width }
    ensures value { result ≡ 2 ^ width - 1 }
    ensures fits { result < 2 ^ width }
{
    u64::MAX >> (64 - width)
}

// The least signed number, without its sign.
fn half(width: u8) -> u64
    requires { IsWidth width }
    ensures value { result ≡ 2 ^ (width - 1) }
    ensures fits { result < 2 ^ width }
{
    1 << (width - 1)
}

/// A divisor isn't 0.
///
/// # Errors
///
/// No memory.
pub fn is_nonzero<H: Home>(terms: &Terms<H>, b: &Term<H>) -> Result<Term<H>, AllocError>
    ensures value { IfOk result (λ t. t ≡ spec.is_nonzero b.now) }
    ensures width { IfOk result (λ t. width_of t ≡ 1) }
{
    let zero = constant(terms, Num::new(width(b), 0))?;
    unequal(terms, b, &zero)
}

/// A signed number is the least of its width.
///
/// # Errors
///
/// No memory.
pub fn is_least<H: Home>(terms: &Terms<H>, a: &Term<H>) -> Result<Term<H>, AllocError>
    ensures value { IfOk result (λ t. t ≡ spec.is_least a.now) }
    ensures width { IfOk result (λ t. width_of t ≡ 1) }
{
    let bits = width(a);
    let least = constant(terms, Num::new(bits, half(bits)))?;
    eq(terms, a, &least)
}

/// A signed number is -1.
///
/// # Errors
///
/// No memory.
pub fn is_ones<H: Home>(terms: &Terms<H>, b: &Term<H>) -> Result<Term<H>, AllocError>
    ensures value { IfOk result (λ t. t ≡ spec.is_ones b.now) }
    ensures width { IfOk result (λ t. width_of t ≡ 1) }
{
    let bits = width(b);
    let ones = constant(terms, Num::new(bits, all_ones(bits)))?;
    eq(terms, b, &ones)
}

/// A division isn't that of the least number by -1.
///
/// # Errors
///
/// No memory.
pub fn has_quotient<H: Home>(
    terms: &Terms<H>,
    a: &Term<H>,
    b: &Term<H>,
) -> Result<Term<H>, AllocError>
    ensures value { IfOk result (λ t. t ≡ spec.has_quotient a.now b.now) }
    ensures width { IfOk result (λ t. width_of t ≡ 1) }
{
    let least = is_least(terms, a)?;
    let ones = is_ones(terms, b)?;
    let both = bin(terms, BinOp::And, &least, &ones)?;
    not(terms, &both)
}

/// A size of 64 bits is at most 65536 bytes.
///
/// # Errors
///
/// No memory.
pub fn is_small<H: Home>(terms: &Terms<H>, size: &Term<H>) -> Result<Term<H>, AllocError>
    requires { width_of size.now ≡ 64 }
    ensures value { IfOk result (λ t. t ≡ spec.is_small size.now) }
    ensures width { IfOk result (λ t. width_of t ≡ 1) }
{
    let most = wide(terms, 65536)?;
    not_ult(terms, &most, size)
}

/// So many bytes from an offset on lie in an object of the size.
///
/// # Errors
///
/// No memory.
pub fn is_within<H: Home>(
    terms: &Terms<H>,
    size: &Term<H>,
    count: u8,
    offset: &Term<H>,
) -> Result<Term<H>, AllocError>
    requires size { width_of size.now ≡ 64 }
    requires offset { width_of offset.now ≡ 64 }
    ensures value { IfOk result (λ t. t ≡ spec.is_within size.now count offset.now) }
    ensures width { IfOk result (λ t. width_of t ≡ 1) }
{
    let bytes = wide(terms, u64::from(count))?;
    let fits = not_ult(terms, size, &bytes)?;
    let most = bin(terms, BinOp::Sub, size, &bytes)?;
    let reached = not_ult(terms, &most, offset)?;
    bin(terms, BinOp::And, &fits, &reached)
}

/// An offset is its object's start.
///
/// # Errors
///
/// No memory.
pub fn is_start<H: Home>(terms: &Terms<H>, offset: &Term<H>) -> Result<Term<H>, AllocError>
    requires { width_of offset.now ≡ 64 }
    ensures value { IfOk result (λ t. t ≡ spec.is_start offset.now) }
    ensures width { IfOk result (λ t. width_of t ≡ 1) }
{
    let start = wide(terms, 0)?;
    eq(terms, offset, &start)
}
