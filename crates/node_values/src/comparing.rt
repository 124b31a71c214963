//! Comparisons, each of one bit.
ghost use Rattle.std.specs.Prelude.{◌≡◌, IfOk};
ghost use Rattle.terms.specs.Tree.{width_of};
ghost use Rattle.terms.specs.Folding.{folded_two};
ghost use Rattle.term_store.specs.Condition.{negation};
ghost use Rattle.sym_bytes.specs.Building.{equal};
ghost use Rattle.sym_states.specs.Terms as spec;

use crate::numbers::no;
use crate::operands::term_in;
use bitnum::Pred;
use places::Home;
use std::alloc::AllocError;
use sym_bytes::{Pointer, SymValue, ValueKind};
use terms::{Binary, Term, Terms, eq, not, slt, ult};

/// Whether two terms of one width are equal. Terms of two widths aren't.
///
/// # Errors
///
/// No memory.
pub fn is_equal<H: Home>(terms: &Terms<H>, a: &Term<H>, b: &Term<H>) -> Result<Term<H>, AllocError>
    ensures value { IfOk result (λ t. t ≡ spec.is_equal a.now b.now) }
    ensures width { IfOk result (λ t. width_of t ≡ 1) }
{
    if a.width() == b.width() {
        eq(terms, a, b)
    } else {
        no(terms)
    }
}

/// Whether two terms of one width aren't equal.
pub(crate) fn unequal<H: Home>(
    terms: &Terms<H>,
    a: &Term<H>,
    b: &Term<H>,
) -> Result<Term<H>, AllocError>
    requires { width_of a.now ≡ width_of b.now }
    ensures value { IfOk result (λ t. t ≡ negation (equal a.now b.now)) }
    ensures width { IfOk result (λ t. width_of t ≡ 1) }
{
    let same = eq(terms, a, b)?;
    not(terms, &same)
}

/// Whether the first term isn't below the second of its width, as unsigned numbers.
pub(crate) fn not_ult<H: Home>(
    terms: &Terms<H>,
    a: &Term<H>,
    b: &Term<H>,
) -> Result<Term<H>, AllocError>
    requires { width_of a.now ≡ width_of b.now }
    ensures value { IfOk result (λ t. t ≡ negation (folded_two Binary.Ult a.now b.now)) }
    ensures width { IfOk result (λ t. width_of t ≡ 1) }
{
    let less = ult(terms, a, b)?;
    not(terms, &less)
}

fn not_slt<H: Home>(terms: &Terms<H>, a: &Term<H>, b: &Term<H>) -> Result<Term<H>, AllocError>
    requires { width_of a.now ≡ width_of b.now }
    ensures { IfOk result (λ t. t ≡ negation (folded_two Binary.Slt a.now b.now)) }
{
    let less = slt(terms, a, b)?;
    not(terms, &less)
}

/// How two terms of one width compare.
///
/// # Errors
///
/// No memory.
pub fn compared<H: Home>(
    terms: &Terms<H>,
    pred: Pred,
    a: &Term<H>,
    b: &Term<H>,
) -> Result<Term<H>, AllocError>
    requires { width_of a.now ≡ width_of b.now }
    ensures { IfOk result (λ t. t ≡ spec.compared pred a.now b.now) }
{
    match pred {
        Pred::Eq => eq(terms, a, b),
        Pred::Ne => unequal(terms, a, b),
        Pred::Ugt => ult(terms, b, a),
        Pred::Uge => not_ult(terms, a, b),
        Pred::Ult => ult(terms, a, b),
        Pred::Ule => not_ult(terms, b, a),
        Pred::Sgt => slt(terms, b, a),
        Pred::Sge => not_slt(terms, a, b),
        Pred::Slt => slt(terms, a, b),
        Pred::Sle => not_slt(terms, b, a),
    }
}

/// How two terms of one width compare, or 0 where they have two.
///
/// # Errors
///
/// No memory.
pub fn compared_terms<H: Home>(
    terms: &Terms<H>,
    pred: Pred,
    a: &Term<H>,
    b: &Term<H>,
) -> Result<Term<H>, AllocError>
    ensures { IfOk result (λ t. t ≡ spec.compared_terms pred a.now b.now) }
{
    if a.width() == b.width() {
        compared(terms, pred, a, b)
    } else {
        no(terms)
    }
}

/// Whether two pointers are equal.
///
/// # Errors
///
/// No memory.
pub fn alike_pointers<H: Home>(
    terms: &Terms<H>,
    a: &Pointer<H>,
    b: &Pointer<H>,
) -> Result<Term<H>, AllocError>
    ensures value { IfOk result (λ t. t ≡ spec.alike_pointers a.now b.now) }
    ensures width { IfOk result (λ t. width_of t ≡ 1) }
{
    if a.base().is_same(b.base()) {
        eq(terms, a.offset(), b.offset())
    } else {
        no(terms)
    }
}

fn unlike_pointers<H: Home>(
    terms: &Terms<H>,
    a: &Pointer<H>,
    b: &Pointer<H>,
) -> Result<Term<H>, AllocError>
    ensures { IfOk result (λ t. t ≡ negation (spec.alike_pointers a.now b.now)) }
{
    let alike = alike_pointers(terms, a, b)?;
    not(terms, &alike)
}

/// How two pointers compare, which is for being equal alone.
///
/// # Errors
///
/// No memory.
pub fn compared_pointers<H: Home>(
    terms: &Terms<H>,
    pred: Pred,
    a: &Pointer<H>,
    b: &Pointer<H>,
) -> Result<Term<H>, AllocError>
    ensures { IfOk result (λ t. t ≡ spec.compared_pointers pred a.now b.now) }
{
    match pred {
        Pred::Eq => alike_pointers(terms, a, b),
        _ => unlike_pointers(terms, a, b),
    }
}

fn compared_numbers<H: Home>(
    terms: &Terms<H>,
    pred: Pred,
    a: &SymValue<H>,
    b: &SymValue<H>,
) -> Result<Term<H>, AllocError>
    ensures { IfOk result (λ t. t ≡ spec.compared_terms pred (spec.term_in a.now) (spec.term_in b.now)) }
{
    let x = term_in(terms, a)?;
    let y = term_in(terms, b)?;
    compared_terms(terms, pred, &x, &y)
}

/// How two values compare.
///
/// # Errors
///
/// No memory.
pub fn compared_values<H: Home>(
    terms: &Terms<H>,
    pred: Pred,
    a: &SymValue<H>,
    b: &SymValue<H>,
) -> Result<Term<H>, AllocError>
    ensures { IfOk result (λ t. t ≡ spec.compared_values pred a.now b.now) }
{
    match (a.kind(), b.kind()) {
        (ValueKind::Ptr(p), ValueKind::Ptr(q)) => compared_pointers(terms, pred, p, q),
        _ => compared_numbers(terms, pred, a, b),
    }
}
