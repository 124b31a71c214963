//! The terms that nodes make.
ghost use Rattle.std.specs.Prelude.{◌≡◌, ◌≤◌, IfOk};
ghost use Rattle.terms.specs.Tree.{width_of};
ghost use Rattle.sym_bytes.specs.Building as building;
ghost use Rattle.sym_states.specs.Terms as spec;

use crate::numbers::{no, wide, width};
use crate::operands::term_in;
use bitnum::{BinOp, Num};
use flat_ir::CastOp;
use places::Home;
use std::alloc::AllocError;
use sym_bytes::SymValue;
use terms::{Term, Terms, bin, constant, input_byte, ite, sext_term, trunc_term, zext_term};

/// An operation on two terms of one width. Where they have two, the first term.
///
/// # Errors
///
/// No memory.
pub fn calculated<H: Home>(
    terms: &Terms<H>,
    op: BinOp,
    a: &Term<H>,
    b: &Term<H>,
) -> Result<Term<H>, AllocError>
    ensures { IfOk result (λ t. t ≡ spec.calculated op a.now b.now) }
{
    if a.width() == b.width() {
        bin(terms, op, a, b)
    } else {
        a.copy()
    }
}

fn narrower<H: Home>(terms: &Terms<H>, a: &Term<H>, width: u8) -> Result<Term<H>, AllocError>
    ensures { IfOk result (λ t. t ≡ spec.cast_to CastOp.Trunc width a.now) }
{
    let most = crate::numbers::width(a);
    if 1 <= width && width < most {
        trunc_term(terms, a, width)
    } else {
        a.copy()
    }
}

fn wider<H: Home>(terms: &Terms<H>, a: &Term<H>, width: u8) -> Result<Term<H>, AllocError>
    ensures { IfOk result (λ t. t ≡ spec.cast_to CastOp.Zext width a.now) }
{
    if a.width() < width && width <= 64 {
        zext_term(terms, a, width)
    } else {
        a.copy()
    }
}

fn sign_wider<H: Home>(terms: &Terms<H>, a: &Term<H>, width: u8) -> Result<Term<H>, AllocError>
    ensures { IfOk result (λ t. t ≡ spec.cast_to CastOp.Sext width a.now) }
{
    if a.width() < width && width <= 64 {
        sext_term(terms, a, width)
    } else {
        a.copy()
    }
}

/// A term in another width, of so many bits. Where the cast leads to no such width, the term itself.
///
/// # Errors
///
/// No memory.
pub fn cast_to<H: Home>(
    terms: &Terms<H>,
    op: CastOp,
    width: u8,
    a: &Term<H>,
) -> Result<Term<H>, AllocError>
    ensures { IfOk result (λ t. t ≡ spec.cast_to op width a.now) }
{
    match op {
        CastOp::Trunc => narrower(terms, a, width),
        CastOp::Zext => wider(terms, a, width),
        CastOp::Sext => sign_wider(terms, a, width),
    }
}

/// The first term where a condition of one bit is 1, and else the second, of the same width. Where the widths are others, the
/// first term.
///
/// # Errors
///
/// No memory.
pub fn chosen<H: Home>(
    terms: &Terms<H>,
    condition: &Term<H>,
    a: &Term<H>,
    b: &Term<H>,
) -> Result<Term<H>, AllocError>
    ensures { IfOk result (λ t. t ≡ spec.chosen condition.now a.now b.now) }
{
    if condition.width() == 1 && a.width() == b.width() {
        ite(terms, condition, a, b)
    } else {
        a.copy()
    }
}

/// The lowest 8 bits.
///
/// # Errors
///
/// No memory.
pub fn low_byte<H: Home>(terms: &Terms<H>, t: &Term<H>) -> Result<Term<H>, AllocError>
    ensures value { IfOk result (λ u. u ≡ spec.low_byte t.now) }
    ensures width { IfOk result (λ u. width_of u ≡ 8) }
{
    let width = t.width();
    if width == 8 {
        t.copy()
    } else if 8 < width {
        trunc_term(terms, t, 8)
    } else {
        zext_term(terms, t, 8)
    }
}

fn status_of_value<H: Home>(terms: &Terms<H>, value: &SymValue<H>) -> Result<Term<H>, AllocError>
    ensures value { IfOk result (λ t. t ≡ spec.low_byte (spec.term_in value.now)) }
    ensures width { IfOk result (λ t. width_of t ≡ 8) }
{
    let t = term_in(terms, value)?;
    low_byte(terms, &t)
}

/// The status of a program that returns the value: its low byte, or 0.
///
/// # Errors
///
/// No memory.
pub fn status_of<H: Home>(
    terms: &Terms<H>,
    value: &Option<SymValue<H>>,
) -> Result<Term<H>, AllocError>
    ensures value { IfOk result (λ t. t ≡ spec.status_of value.now) }
    ensures width { IfOk result (λ t. width_of t ≡ 8) }
{
    match value {
        Some(v) => status_of_value(terms, v),
        None => constant(terms, Num::new(8, 0)),
    }
}

/// A condition: the term, if it has one bit, and else 0.
///
/// # Errors
///
/// No memory.
pub fn truth_of<H: Home>(terms: &Terms<H>, t: &Term<H>) -> Result<Term<H>, AllocError>
    ensures value { IfOk result (λ u. u ≡ spec.truth_of t.now) }
    ensures width { IfOk result (λ u. width_of u ≡ 1) }
{
    if t.width() == 1 { t.copy() } else { no(terms) }
}

/// A size: the term, if it has 64 bits, and else 0.
///
/// # Errors
///
/// No memory.
pub fn size_in<H: Home>(terms: &Terms<H>, t: &Term<H>) -> Result<Term<H>, AllocError>
    ensures value { IfOk result (λ u. u ≡ spec.size_in t.now) }
    ensures width { IfOk result (λ u. width_of u ≡ 64) }
{
    if t.width() == 64 {
        t.copy()
    } else {
        wide(terms, 0)
    }
}

/// An index, which is signed, in 64 bits.
///
/// # Errors
///
/// No memory.
pub fn in_64_bits<H: Home>(terms: &Terms<H>, t: &Term<H>) -> Result<Term<H>, AllocError>
    ensures value { IfOk result (λ u. u ≡ spec.in_64_bits t.now) }
    ensures width { IfOk result (λ u. width_of u ≡ 64) }
{
    if width(t) == 64 {
        t.copy()
    } else {
        sext_term(terms, t, 64)
    }
}

/// The offset that lies so many bytes behind an offset.
///
/// # Errors
///
/// No memory.
pub fn behind<H: Home>(terms: &Terms<H>, offset: &Term<H>, by: u64) -> Result<Term<H>, AllocError>
    requires { width_of offset.now ≡ 64 }
    ensures value { IfOk result (λ t. t ≡ building.behind offset.now by) }
    ensures width { IfOk result (λ t. width_of t ≡ 64) }
{
    let more = wide(terms, by)?;
    bin(terms, BinOp::Add, offset, &more)
}

/// The offset moved by an index times so many bytes.
///
/// # Errors
///
/// No memory.
pub fn moved_by_index<H: Home>(
    terms: &Terms<H>,
    offset: &Term<H>,
    scale: u64,
    index: &Term<H>,
) -> Result<Term<H>, AllocError>
    requires { width_of offset.now ≡ 64 }
    ensures value { IfOk result (λ t. t ≡ spec.moved_by_index offset.now scale index.now) }
    ensures width { IfOk result (λ t. width_of t ≡ 64) }
{
    let factor = wide(terms, scale)?;
    let times = in_64_bits(terms, index)?;
    let more = bin(terms, BinOp::Mul, &factor, &times)?;
    bin(terms, BinOp::Add, offset, &more)
}

/// Byte `position` of an input of so many bytes, in 32 bits, or -1 at its end.
///
/// # Errors
///
/// No memory.
pub fn input_at<H: Home>(
    terms: &Terms<H>,
    inputs: usize,
    position: u64,
) -> Result<Term<H>, AllocError>
    requires { inputs ≤ 64 }
    ensures { IfOk result (λ t. t ≡ spec.input_at inputs position) }
{
    if position < inputs as u64 {
        let byte = input_byte(terms, position as u8)?;
        zext_term(terms, &byte, 32)
    } else {
        constant(terms, Num::new(32, 4_294_967_295))
    }
}
