//! Bytes as values.
ghost use Rattle.std.specs.Prelude.{◌≡◌, ◌<◌, ◌≤◌, ◌+◌, ◌++◌, IfOk, IfSome, length};
ghost use Rattle.std.specs.List.{All};
ghost use Rattle.std.specs.Option.{option_copied};
ghost use Rattle.terms.specs.Tree.{width_of};
ghost use Rattle.terms.specs.Joining.{AreBytes, folded_join};
ghost use Rattle.flat_ir.specs.Registers.{bytes_of_type};
ghost use Rattle.sym_bytes.specs.Building as building;
ghost use Rattle.sym_bytes.specs.Joining as spec;
ghost use Rattle.sym_bytes.specs.ShownAnswers.{join_of};

use crate::{Base, ByteKind, CallId, Joined, Pointer, SymByte, SymValue};
use bitnum::{BinOp, Num};
use flat_ir::RegType;
use places::Home;
use plain_list::Sequence;
use std::alloc::{AllocError, Global};
use terms::{Term, Terms, bin, constant, eq, join};

// The terms of bytes that all are integers.
fn ints_of<H: Home>(
    alloc: Global,
    bytes: &[SymByte<H>],
) -> Result<Option<Sequence<Term<H>>>, AllocError>
    ensures terms { IfOk result (λ o. o ≡ spec.ints_of bytes.now) }
    ensures widths { IfOk result (λ o. IfSome o (λ ts. AreBytes ts × (length ts ≡ length bytes.now))) }
{
    let mut list = Sequence::new(alloc);
    for byte in bytes {
        let ByteKind::Int(t) = byte.kind() else {
            return Ok(None);
        };
        list.push(t.copy()?)?;
    }
    Ok(Some(list))
}

// A byte's offset, if it is byte j of a pointer of the base.
fn offset_of<'a, H: Home>(base: &Base, j: u8, byte: &'a SymByte<H>) -> Option<&'a Term<H>>
    ensures offset { option_copied result ≡ spec.offset_of base.now j byte.now }
    ensures wide { IfSome result (λ t. width_of t.now ≡ 64) }
{
    match byte.kind() {
        ByteKind::PtrByte(p, k) if base.is_same(p.base()) && *k == j => Some(p.offset()),
        _ => None,
    }
}

// The offsets of bytes that are bytes 0, 1 and so on of pointers of one base.
fn offsets_of<H: Home>(
    alloc: Global,
    base: &Base,
    bytes: &[SymByte<H>],
) -> Result<Option<Sequence<Term<H>>>, AllocError>
    requires { length bytes.now ≤ 8 }
    ensures offsets { IfOk result (λ o. o ≡ spec.offsets_of base.now 0 bytes.now) }
    ensures wide { IfOk result (λ o. IfSome o (λ ts. All (λ t. width_of t ≡ 64) ts)) }
{
    let mut list = Sequence::new(alloc);
    let mut j = 0u8;
    for byte in bytes {
        let Some(t) = offset_of(base, j, byte) else {
            return Ok(None);
        };
        list.push(t.copy()?)?;
        j += 1;
    }
    Ok(Some(list))
}

// One bit: the first is so far, and each of the others equals it too.
fn all_equal<H: Home>(
    terms: &Terms<H>,
    first: &Term<H>,
    so_far: Term<H>,
    others: &[Term<H>],
) -> Result<Term<H>, AllocError>
    requires bit { width_of so_far ≡ 1 }
    requires wide { width_of first.now ≡ 64 }
    requires others { All (λ t. width_of t ≡ 64) others.now }
    ensures { IfOk result (λ t. t ≡ spec.all_equal first.now so_far others.now) }
{
    let mut test = so_far;
    for other in others {
        let alike = eq(terms, other, first)?;
        test = bin(terms, BinOp::And, &test, &alike)?;
    }
    Ok(test)
}

// One bit, whether all offsets equal the first.
fn alike<H: Home>(terms: &Terms<H>, offsets: &[Term<H>]) -> Result<Term<H>, AllocError>
    requires { All (λ t. width_of t ≡ 64) offsets.now }
    ensures { IfOk result (λ t. t ≡ spec.alike offsets.now) }
{
    match offsets {
        [] | [_] => constant(terms, Num::new(1, 1)),
        [first, second, others @ ..] => {
            let so_far = eq(terms, second, first)?;
            all_equal(terms, first, so_far, others)
        }
    }
}

fn same_type(a: RegType, b: RegType) -> bool
    ensures { result ≡ building.same_type a b }
{
    match (a, b) {
        (RegType::Int(v), RegType::Int(w)) => v == w,
        (RegType::Ptr, RegType::Ptr) => true,
        _ => false,
    }
}

// Whether a byte is byte j of a call's result of the type.
fn is_pending<H: Home>(call: CallId, of: RegType, j: u8, byte: &SymByte<H>) -> bool
    ensures { result ≡ spec.is_pending call of j byte.now }
{
    match byte.kind() {
        ByteKind::PendingByte(c, u, k) => call.0 == c.0 && same_type(of, *u) && *k == j,
        _ => false,
    }
}

fn are_pending<H: Home>(call: CallId, of: RegType, j: u8, bytes: &[SymByte<H>]) -> bool
    requires { j + length bytes.now ≤ 8 }
    ensures { result ≡ spec.are_pending call of j bytes.now }
{
    match bytes.split_first() {
        None => true,
        Some((byte, rest)) => {
            is_pending(call, of, j, byte) && are_pending(call, of, j + 1, rest)
        }
    }
}

/// The calls with one more, in ascending order, none of them twice.
///
/// # Errors
///
/// No memory.
pub fn put_call(
    alloc: Global,
    call: CallId,
    calls: &[CallId],
) -> Result<Sequence<CallId>, AllocError>
    ensures { IfOk result (λ list. list ≡ spec.put_call call calls.now) }
{
    let mut list = Sequence::new(alloc);
    let mut left = calls;
    while let Some((first, more)) = left.split_first() {
        if call.0 <= first.0 {
            break;
        }
        list.push(*first)?;
        left = more;
    }
    list.append(put_first(alloc, call, left)?)?;
    Ok(list)
}

// The calls with one more in front, unless it stands there.
fn put_first(alloc: Global, call: CallId, calls: &[CallId]) -> Result<Sequence<CallId>, AllocError>
    ensures { IfOk result (λ list. list ≡ spec.put_first call calls.now) }
{
    let mut list = Sequence::new(alloc);
    if !starts_with(calls, call) {
        list.push(call)?;
    }
    list.append(Sequence::from_slice(alloc, calls)?)?;
    Ok(list)
}

fn starts_with(calls: &[CallId], call: CallId) -> bool
    ensures { result ≡ spec.starts_with call calls.now }
{
    match calls.first() {
        None => false,
        Some(first) => call.0 == first.0,
    }
}

// The calls of whose results there are bytes, in ascending order.
fn calls_in<H: Home>(alloc: Global, bytes: &[SymByte<H>]) -> Result<Sequence<CallId>, AllocError>
    ensures { IfOk result (λ list. list ≡ spec.calls_in bytes.now) }
{
    let Some((byte, rest)) = bytes.split_first() else {
        return Ok(Sequence::new(alloc));
    };
    let calls = calls_in(alloc, rest)?;
    match byte.kind() {
        ByteKind::PendingByte(call, _, _) => put_call(alloc, *call, calls.as_slice()),
        _ => Ok(calls),
    }
}

fn mixed_or<H: Home>(calls: Sequence<CallId>) -> Joined<H>
    ensures { join_of result ≡ spec.mixed_or calls }
{
    if calls.is_empty() {
        Joined::Mixed
    } else {
        Joined::Needs(calls)
    }
}

// The call of whose result all bytes are, if there is one.
fn pending_call<H: Home>(of: RegType, bytes: &[SymByte<H>]) -> Option<CallId>
    requires { length bytes.now ≤ 8 }
    ensures { result ≡ spec.pending_call of bytes.now }
{
    let (first, _) = bytes.split_first()?;
    match first.kind() {
        ByteKind::PendingByte(call, _, _) if are_pending(*call, of, 0, bytes) => Some(*call),
        _ => None,
    }
}

fn join_pending<H: Home>(
    alloc: Global,
    of: RegType,
    bytes: &[SymByte<H>],
) -> Result<Joined<H>, AllocError>
    requires { length bytes.now ≤ 8 }
    ensures { IfOk result (λ j. join_of j ≡ spec.join_pending of bytes.now) }
{
    match pending_call(of, bytes) {
        Some(call) => Ok(Joined::Value(SymValue::pending(call, of))),
        None => Ok(mixed_or(calls_in(alloc, bytes)?)),
    }
}

fn join_integer<H: Home>(
    terms: &Terms<H>,
    of: RegType,
    bytes: &[SymByte<H>],
) -> Result<Joined<H>, AllocError>
    requires some { 0 < length bytes.now }
    requires most { length bytes.now ≤ 8 }
    ensures { IfOk result (λ j. join_of j ≡ spec.join_integer of bytes.now) }
{
    match ints_of(terms.alloc(), bytes)? {
        Some(list) => Ok(Joined::Value(SymValue::int(join(terms, list.as_slice())?))),
        None => join_pending(terms.alloc(), of, bytes),
    }
}

// One bit, whether a number of 64 bits is 0.
fn is_zero<H: Home>(terms: &Terms<H>, t: &Term<H>) -> Result<Term<H>, AllocError>
    requires { width_of t.now ≡ 64 }
    ensures { IfOk result (λ u. u ≡ building.equal t.now (building.wide 0)) }
{
    let zero = constant(terms, Num::new(64, 0))?;
    eq(terms, t, &zero)
}

fn null<H: Home>(terms: &Terms<H>) -> Result<SymValue<H>, AllocError>
    ensures { IfOk result (λ v. v ≡ building.null) }
{
    let zero = constant(terms, Num::new(64, 0))?;
    Ok(SymValue::ptr(Pointer::new(Base::Null, zero)))
}

// The pointer null where eight bytes join to 0.
fn null_if_zero<H: Home>(terms: &Terms<H>, list: &[Term<H>]) -> Result<Joined<H>, AllocError>
    requires bytes { AreBytes list.now }
    requires eight { length list.now ≡ 8 }
    ensures { IfOk result (λ j. join_of j ≡ spec.null_if_zero list.now) }
{
    let joined = join(terms, list)?;
    let test = is_zero(terms, &joined)?;
    Ok(Joined::Test(test, null(terms)?))
}

fn join_null<H: Home>(terms: &Terms<H>, bytes: &[SymByte<H>]) -> Result<Joined<H>, AllocError>
    requires { length bytes.now ≡ 8 }
    ensures { IfOk result (λ j. join_of j ≡ spec.join_null bytes.now) }
{
    match ints_of(terms.alloc(), bytes)? {
        Some(list) => null_if_zero(terms, list.as_slice()),
        None => join_pending(terms.alloc(), RegType::Ptr, bytes),
    }
}

fn join_offsets<H: Home>(
    terms: &Terms<H>,
    p: &Pointer<H>,
    bytes: &[SymByte<H>],
) -> Result<Joined<H>, AllocError>
    requires { length bytes.now ≡ 8 }
    ensures { IfOk result (λ j. join_of j ≡ spec.join_offsets p.now (spec.offsets_of p.now.base 0 bytes.now) bytes.now) }
{
    match offsets_of(terms.alloc(), p.base(), bytes)? {
        Some(offsets) => {
            let test = alike(terms, offsets.as_slice())?;
            Ok(Joined::Test(test, SymValue::ptr(p.copy()?)))
        }
        None => join_pending(terms.alloc(), RegType::Ptr, bytes),
    }
}

fn join_pointer<H: Home>(terms: &Terms<H>, bytes: &[SymByte<H>]) -> Result<Joined<H>, AllocError>
    requires { length bytes.now ≡ 8 }
    ensures { IfOk result (λ j. join_of j ≡ spec.join_pointer bytes.now) }
{
    let Some((first, _)) = bytes.split_first() else {
        return join_null(terms, bytes);
    };
    match first.kind() {
        ByteKind::PtrByte(p, _) => join_offsets(terms, p, bytes),
        _ => join_null(terms, bytes),
    }
}

/// The value of a type that some bytes make, the lowest first, or what has to be known before that is decided.
pub fn join_bytes<H: Home>(
    terms: &Terms<H>,
    bytes: &[SymByte<H>],
    as_type: RegType,
) -> Result<Joined<H>, AllocError>
    requires some { 0 < length bytes.now }
    requires most { length bytes.now ≤ 8 }
    requires size { length bytes.now ≡ bytes_of_type as_type }
    ensures { IfOk result (λ j. join_of j ≡ spec.join_bytes bytes.now as_type) }
{
    match as_type {
        RegType::Int(_) => join_integer(terms, as_type, bytes),
        RegType::Ptr => join_pointer(terms, bytes),
    }
}
