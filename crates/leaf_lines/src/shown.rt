//! Numbers, bytes and values under the kept input.
ghost use Rattle.std.specs.Prelude.{◌≡◌, ◌++◌, All, length, map, IfOk, IfSome, OnOk, Option};
ghost use Rattle.bitnum.specs.Number.{Number};
ghost use Rattle.terms.specs.Memo.{AreValues};
ghost use Rattle.terms.specs.Value.{ReadsBelow};
ghost use Rattle.sym_bytes.specs.Under.{bits_under};
ghost use Rattle.leaves.specs.Fitting.{IsTermOf, AreTermsOf, ValueFits};
ghost use Rattle.leaf_lines.specs.Values as spec;

use crate::objects::put_base;
use bitnum::Num;
use flat_ir::Program;
use leaves::Recovered;
use places::Home;
use plain_list::Sequence;
use std::alloc::{AllocError, Global};
use sym_bytes::{Pointer, SymValue, ValueKind};
use terms::{Memo, Term, value_in, value_once};
use value_texts::{put_bytes, put_number, put_text};

fn put_known(alloc: Global, text: &mut Vec<u8>, number: Option<Num>) -> Result<(), AllocError>
    ensures { OnOk result (text.new.items ≡ text.old.items ++ spec.known_text number) }
{
    match number {
        None => put_text(text, "?"),
        Some(number) => put_number(alloc, text, number.bits()),
    }
}

/// A number's value under the kept input. Where none is kept a constant is known all the same.
pub(crate) fn put_value_of<H: Home>(
    alloc: Global,
    text: &mut Vec<u8>,
    kept: &Option<Sequence<u8>>,
    term: &Term<H>,
) -> Result<(), AllocError>
    requires { IfSome kept.now (λ input. ReadsBelow (length input) term.now) }
    ensures { OnOk result (text.new.items ≡ text.old.items ++ spec.number_text kept.now term.now) }
{
    match kept {
        None => put_known(alloc, text, term.as_constant()),
        Some(input) => {
            let number = value_once(alloc, term, input.as_slice())?;
            put_known(alloc, text, Some(number))
        }
    }
}

/// An input, or that none is kept.
pub(crate) fn put_input(text: &mut Vec<u8>, kept: &Option<Sequence<u8>>) -> Result<(), AllocError>
    ensures { OnOk result (text.new.items ≡ text.old.items ++ spec.input_text kept.now) }
{
    match kept {
        None => put_text(text, "?"),
        Some(input) => put_bytes(text, input.as_slice()),
    }
}

// A byte under an input, where a memo remembers the values of terms under it.
fn byte_under<H: Home>(
    memo: &mut Memo<H, Num>,
    input: &[u8],
    term: &Term<H>,
) -> Result<u8, AllocError>
    requires fits { IsTermOf (length input.now) 8 term.now }
    requires known { AreValues memo.old input.now }
    ensures byte { IfOk result (λ byte. byte ≡ bits_under input.now term.now) }
    ensures known { AreValues memo.new input.now }
{
    let number = value_in(memo, term, input)?;
    Ok(number.bits() as u8)
}

// Bytes under an input, with one visit to each term that they share.
fn bytes_under<H: Home>(
    alloc: Global,
    input: &[u8],
    written: &[Term<H>],
) -> Result<Vec<u8>, AllocError>
    requires { All (IsTermOf (length input.now) 8) written.now }
    ensures { IfOk result (λ bytes. bytes.items ≡ map (bits_under input.now) written.now) }
{
    let mut memo = Memo::new(alloc);
    let mut bytes = Vec::new(alloc);
    for term in written {
        bytes.push(byte_under(&mut memo, input, term)?)?;
    }
    Ok(bytes)
}

/// What was written out under the kept input, or that it isn't known.
pub(crate) fn put_output<H: Home>(
    alloc: Global,
    text: &mut Vec<u8>,
    kept: &Option<Sequence<u8>>,
    written: &[Term<H>],
) -> Result<(), AllocError>
    requires { IfSome kept.now (λ input. AreTermsOf (length input) 8 written.now) }
    ensures { OnOk result (text.new.items ≡ text.old.items ++ spec.output_text kept.now written.now) }
{
    match kept {
        None => put_text(text, "?"),
        Some(input) => {
            let bytes = bytes_under(alloc, input.as_slice(), written)?;
            put_bytes(text, bytes.as_slice())
        }
    }
}

// What a skipped call returned, in place of its result.
fn with_result<'a, H: Home>(recovered: &'a Recovered<H>, value: &'a SymValue<H>) -> &'a SymValue<H>
    ensures { result.now ≡ spec.with_result recovered.now value.now }
{
    match value.kind() {
        ValueKind::Pending(call, _) if recovered.call().0 == call.0 => recovered.value(),
        _ => value,
    }
}

/// A value with what skipped calls returned in place of their results. The newest call comes first, since it may return
/// what an older one returned.
pub(crate) fn with_results<'a, H: Home>(
    results: &'a [Recovered<H>],
    value: &'a SymValue<H>,
) -> &'a SymValue<H>
    ensures { result.now ≡ spec.with_results results.now value.now }
{
    let mut older = results;
    let mut shown = value;
    'calls: while let Some((newest, rest)) = older.split_last() {
        shown = with_result(newest, shown);
        older = rest;
    }
    shown
}

fn put_pointer<H: Home>(
    alloc: Global,
    text: &mut Vec<u8>,
    program: &Program,
    kept: &Option<Sequence<u8>>,
    pointer: &Pointer<H>,
) -> Result<(), AllocError>
    requires { IfSome kept.now (λ input. ReadsBelow (length input) pointer.now.offset) }
    ensures { OnOk result (text.new.items ≡ text.old.items ++ spec.pointer_text program.now kept.now pointer.now) }
{
    put_base(alloc, text, program, pointer.base())?;
    put_text(text, "+")?;
    put_value_of(alloc, text, kept, pointer.offset())
}

/// A value: a number, what a pointer points into and where, or the skipped call whose result isn't recovered.
pub(crate) fn put_value<H: Home>(
    alloc: Global,
    text: &mut Vec<u8>,
    program: &Program,
    kept: &Option<Sequence<u8>>,
    value: &SymValue<H>,
) -> Result<(), AllocError>
    requires { IfSome kept.now (λ input. ValueFits (length input) value.now) }
    ensures { OnOk result (text.new.items ≡ text.old.items ++ spec.value_text program.now kept.now value.now) }
{
    match value.kind() {
        ValueKind::Int(term) => put_value_of(alloc, text, kept, term),
        ValueKind::Ptr(pointer) => put_pointer(alloc, text, program, kept, pointer),
        ValueKind::Pending(call, _) => {
            put_text(text, "call ")?;
            put_number(alloc, text, u64::from(call.0))
        }
    }
}
