//! The constructors, each with its folded term.
ghost use Rattle.std.specs.Prelude.{◌≡◌, ℕ, List, ◌+◌, ◌*◌, ◌%◌, ◌≤◌, ◌<◌, IfOk, if◌then◌else◌};
ghost use Rattle.bitnum.specs.Number.{IsWidth};
ghost use Rattle.bitnum.specs.Operations.{applied};
ghost use Rattle.terms.specs.Tree as tree;
ghost use Rattle.terms.specs.Tree.{width_of, width_of_one, width_of_two, FitsOne, FitsTwo, IsTree};
ghost use Rattle.terms.specs.Value as spec;
ghost use Rattle.terms.specs.Value.{value_of, ReadsBelow};
ghost use Rattle.terms.specs.Folding as folding;

use crate::alike::is_same;
use crate::operate::{one_of, truth, two_of};
use crate::term::{Binary, Node, Term, Terms, Unary};
use bitnum::{BinOp, Num};
use places::Home;
use std::alloc::AllocError;

pub fn constant<H: Home>(terms: &Terms<H>, n: Num) -> Result<Term<H>, AllocError>
    ensures folded { IfOk result (λ t. t ≡ tree.constant n) }
    ensures width { IfOk result (λ t. width_of t ≡ n.width) }
    ensures tree { IfOk result (λ t. IsTree t) }
    ensures reads { (count : ℕ) → IfOk result (λ t. ReadsBelow count t) }
    ensures value { IfOk result (λ t. (input : List ℕ) → value_of t input ≡ n) }
{
    Term::new(terms, n.width(), Node::Constant(n))
}

pub fn input_byte<H: Home>(terms: &Terms<H>, k: u8) -> Result<Term<H>, AllocError>
    requires { k < 64 }
    ensures folded { IfOk result (λ t. t ≡ tree.input k) }
    ensures width { IfOk result (λ t. width_of t ≡ 8) }
    ensures tree { IfOk result (λ t. IsTree t) }
    ensures reads { (count : ℕ) → k < count → IfOk result (λ t. ReadsBelow count t) }
    ensures value { IfOk result (λ t. (input : List ℕ) → value_of t input ≡ spec.byte_of input k) }
{
    Term::new(terms, 8, Node::Input(k))
}

fn width_of_two(op: Binary, a: u8, b: u8) -> u8
    requires { FitsTwo op a b }
    ensures { result ≡ width_of_two op a b }
{
    match op {
        Binary::Bin(_) => a,
        Binary::Eq | Binary::Ult | Binary::Slt => 1,
        Binary::Join => a + b,
    }
}

pub(crate) fn plain_two<H: Home>(
    terms: &Terms<H>,
    op: Binary,
    a: &Term<H>,
    b: &Term<H>,
) -> Result<Term<H>, AllocError>
    requires { FitsTwo op (width_of a.now) (width_of b.now) }
    ensures { IfOk result (λ t. t ≡ tree.two op a.now b.now) }
{
    let width = width_of_two(op, a.width(), b.width());
    Term::new(terms, width, Node::Two(op, a.copy()?, b.copy()?))
}

fn is_neutral(op: Binary, n: Num) -> bool
    ensures { result ≡ folding.is_neutral op n }
{
    match op {
        Binary::Bin(BinOp::Add) => n.bits() == 0,
        Binary::Bin(BinOp::Mul) => n.bits() == 1,
        Binary::Bin(BinOp::And) => n.width() == 1 && n.bits() == 1,
        _ => false,
    }
}

fn absorbs(op: Binary, n: Num) -> bool
    ensures { result ≡ folding.absorbs op n }
{
    match op {
        Binary::Bin(BinOp::And) => n.width() == 1 && n.bits() == 0,
        _ => false,
    }
}

/// The folded term where one operand is the number `n`, and the other is `t`.
fn two_with<H: Home>(
    terms: &Terms<H>,
    op: Binary,
    n: Num,
    t: &Term<H>,
    a: &Term<H>,
    b: &Term<H>,
) -> Result<Term<H>, AllocError>
    requires { FitsTwo op (width_of a.now) (width_of b.now) }
    ensures { IfOk result (λ r. r ≡ folding.fold_with op n t.now (tree.two op a.now b.now)) }
{
    if is_neutral(op, n) {
        t.copy()
    } else if absorbs(op, n) {
        constant(terms, n)
    } else {
        plain_two(terms, op, a, b)
    }
}

fn eq_alike<H: Home>(terms: &Terms<H>, a: &Term<H>, b: &Term<H>) -> Result<Term<H>, AllocError>
    requires { width_of a.now ≡ width_of b.now }
    ensures { IfOk result (λ t. t ≡ folding.fold_alike Binary.Eq a.now b.now) }
{
    if is_same(a, b) {
        constant(terms, truth(true))
    } else {
        plain_two(terms, Binary::Eq, a, b)
    }
}

fn two_alike<H: Home>(
    terms: &Terms<H>,
    op: Binary,
    a: &Term<H>,
    b: &Term<H>,
) -> Result<Term<H>, AllocError>
    requires { FitsTwo op (width_of a.now) (width_of b.now) }
    ensures { IfOk result (λ t. t ≡ folding.fold_alike op a.now b.now) }
{
    match op {
        Binary::Eq => eq_alike(terms, a, b),
        _ => plain_two(terms, op, a, b),
    }
}

#[tactic(auto, unfolding(crate::specs::Folding::folded_two))]
fn fold_two<H: Home>(
    terms: &Terms<H>,
    op: Binary,
    a: &Term<H>,
    b: &Term<H>,
) -> Result<Term<H>, AllocError>
    requires { FitsTwo op (width_of a.now) (width_of b.now) }
    ensures folded { IfOk result (λ t. t ≡ folding.folded_two op a.now b.now) }
    ensures operands { IsTree (tree.two op a.now b.now) }
{
    match (a.as_constant(), b.as_constant()) {
        (Some(m), Some(n)) => constant(terms, two_of(op, m, n)),
        (Some(m), None) => two_with(terms, op, m, b, a, b),
        (None, Some(n)) => two_with(terms, op, n, a, a, b),
        (None, None) => two_alike(terms, op, a, b),
    }
}

/// The folded term of an operation on two terms.
fn two<H: Home>(
    terms: &Terms<H>,
    op: Binary,
    a: &Term<H>,
    b: &Term<H>,
) -> Result<Term<H>, AllocError>
    requires { FitsTwo op (width_of a.now) (width_of b.now) }
    ensures folded { IfOk result (λ t. t ≡ folding.folded_two op a.now b.now) }
    ensures width { IfOk result (λ t. width_of t ≡ width_of_two op (width_of a.now) (width_of b.now)) }
    ensures tree { IfOk result (λ t. IsTree t) }
    ensures reads { (count : ℕ) → ReadsBelow count a.now → ReadsBelow count b.now → IfOk result (λ t. ReadsBelow count t) }
    ensures value { IfOk result (λ t. (input : List ℕ) → value_of t input ≡ spec.two_of op (value_of a.now input) (value_of b.now input)) }
{
    fold_two(terms, op, a, b)
}

/// An operation on two terms of one width.
pub fn bin<H: Home>(
    terms: &Terms<H>,
    op: BinOp,
    a: &Term<H>,
    b: &Term<H>,
) -> Result<Term<H>, AllocError>
    requires { width_of a.now ≡ width_of b.now }
    ensures folded { IfOk result (λ t. t ≡ folding.folded_two (Binary.Bin op) a.now b.now) }
    ensures width { IfOk result (λ t. width_of t ≡ width_of a.now) }
    ensures tree { IfOk result (λ t. IsTree t) }
    ensures reads { (count : ℕ) → ReadsBelow count a.now → ReadsBelow count b.now → IfOk result (λ t. ReadsBelow count t) }
    ensures value { IfOk result (λ t. (input : List ℕ) → value_of t input ≡ applied op (value_of a.now input) (value_of b.now input)) }
{
    two(terms, Binary::Bin(op), a, b)
}

/// One bit, whether two terms of one width have one value.
pub fn eq<H: Home>(terms: &Terms<H>, a: &Term<H>, b: &Term<H>) -> Result<Term<H>, AllocError>
    requires { width_of a.now ≡ width_of b.now }
    ensures folded { IfOk result (λ t. t ≡ folding.folded_two Binary.Eq a.now b.now) }
    ensures width { IfOk result (λ t. width_of t ≡ 1) }
    ensures tree { IfOk result (λ t. IsTree t) }
    ensures reads { (count : ℕ) → ReadsBelow count a.now → ReadsBelow count b.now → IfOk result (λ t. ReadsBelow count t) }
    ensures value { IfOk result (λ t. (input : List ℕ) → value_of t input ≡ spec.two_of Binary.Eq (value_of a.now input) (value_of b.now input)) }
{
    two(terms, Binary::Eq, a, b)
}

/// One bit, whether the first is below the second as unsigned numbers.
pub fn ult<H: Home>(terms: &Terms<H>, a: &Term<H>, b: &Term<H>) -> Result<Term<H>, AllocError>
    requires { width_of a.now ≡ width_of b.now }
    ensures folded { IfOk result (λ t. t ≡ folding.folded_two Binary.Ult a.now b.now) }
    ensures width { IfOk result (λ t. width_of t ≡ 1) }
    ensures tree { IfOk result (λ t. IsTree t) }
    ensures reads { (count : ℕ) → ReadsBelow count a.now → ReadsBelow count b.now → IfOk result (λ t. ReadsBelow count t) }
    ensures value { IfOk result (λ t. (input : List ℕ) → value_of t input ≡ spec.two_of Binary.Ult (value_of a.now input) (value_of b.now input)) }
{
    two(terms, Binary::Ult, a, b)
}

/// One bit, whether the first is below the second as signed numbers.
pub fn slt<H: Home>(terms: &Terms<H>, a: &Term<H>, b: &Term<H>) -> Result<Term<H>, AllocError>
    requires { width_of a.now ≡ width_of b.now }
    ensures folded { IfOk result (λ t. t ≡ folding.folded_two Binary.Slt a.now b.now) }
    ensures width { IfOk result (λ t. width_of t ≡ 1) }
    ensures tree { IfOk result (λ t. IsTree t) }
    ensures reads { (count : ℕ) → ReadsBelow count a.now → ReadsBelow count b.now → IfOk result (λ t. ReadsBelow count t) }
    ensures value { IfOk result (λ t. (input : List ℕ) → value_of t input ≡ spec.two_of Binary.Slt (value_of a.now input) (value_of b.now input)) }
{
    two(terms, Binary::Slt, a, b)
}

fn width_of_one(op: Unary) -> u8
    ensures { result ≡ width_of_one op }
{
    match op {
        Unary::Not => 1,
        Unary::Zext(width) | Unary::Sext(width) | Unary::Trunc(width) => width,
        Unary::Byte(_) => 8,
    }
}

fn plain_one<H: Home>(terms: &Terms<H>, op: Unary, a: &Term<H>) -> Result<Term<H>, AllocError>
    requires { FitsOne op (width_of a.now) }
    ensures { IfOk result (λ t. t ≡ tree.one op a.now) }
{
    let _width = a.width();
    Term::new(terms, width_of_one(op), Node::One(op, a.copy()?))
}

fn turned<H: Home>(terms: &Terms<H>, a: &Term<H>) -> Result<Term<H>, AllocError>
    requires { width_of a.now ≡ 1 }
    ensures { IfOk result (λ t. t ≡ folding.turned (folding.inside_not a.now) a.now) }
{
    match a.inside_not() {
        Some(t) => t.copy(),
        None => plain_one(terms, Unary::Not, a),
    }
}

#[tactic(auto, unfolding(crate::specs::Folding::folded_one))]
fn fold_one<H: Home>(terms: &Terms<H>, op: Unary, a: &Term<H>) -> Result<Term<H>, AllocError>
    requires { FitsOne op (width_of a.now) }
    ensures folded { IfOk result (λ t. t ≡ folding.folded_one op a.now) }
    ensures operands { IsTree (tree.one op a.now) }
{
    if let Some(n) = a.as_constant() {
        return constant(terms, one_of(op, n));
    }
    match op {
        Unary::Not => turned(terms, a),
        Unary::Byte(_) if a.width() == 8 => a.copy(),
        _ => plain_one(terms, op, a),
    }
}

/// The folded term of an operation on one term.
fn one<H: Home>(terms: &Terms<H>, op: Unary, a: &Term<H>) -> Result<Term<H>, AllocError>
    requires { FitsOne op (width_of a.now) }
    ensures folded { IfOk result (λ t. t ≡ folding.folded_one op a.now) }
    ensures width { IfOk result (λ t. width_of t ≡ width_of_one op) }
    ensures tree { IfOk result (λ t. IsTree t) }
    ensures reads { (count : ℕ) → ReadsBelow count a.now → IfOk result (λ t. ReadsBelow count t) }
    ensures value { IfOk result (λ t. (input : List ℕ) → value_of t input ≡ spec.one_of op (value_of a.now input)) }
{
    fold_one(terms, op, a)
}

/// The other bit.
pub fn not<H: Home>(terms: &Terms<H>, a: &Term<H>) -> Result<Term<H>, AllocError>
    requires { width_of a.now ≡ 1 }
    ensures folded { IfOk result (λ t. t ≡ folding.folded_one Unary.Not a.now) }
    ensures width { IfOk result (λ t. width_of t ≡ 1) }
    ensures tree { IfOk result (λ t. IsTree t) }
    ensures reads { (count : ℕ) → ReadsBelow count a.now → IfOk result (λ t. ReadsBelow count t) }
    ensures value { IfOk result (λ t. (input : List ℕ) → value_of t input ≡ spec.one_of Unary.Not (value_of a.now input)) }
{
    one(terms, Unary::Not, a)
}

pub fn zext_term<H: Home>(terms: &Terms<H>, a: &Term<H>, width: u8) -> Result<Term<H>, AllocError>
    requires width_is { IsWidth width }
    requires wider { width_of a.now < width }
    ensures folded { IfOk result (λ t. t ≡ folding.folded_one (Unary.Zext width) a.now) }
    ensures width { IfOk result (λ t. width_of t ≡ width) }
    ensures tree { IfOk result (λ t. IsTree t) }
    ensures reads { (count : ℕ) → ReadsBelow count a.now → IfOk result (λ t. ReadsBelow count t) }
    ensures value { IfOk result (λ t. (input : List ℕ) → value_of t input ≡ spec.one_of (Unary.Zext width) (value_of a.now input)) }
{
    one(terms, Unary::Zext(width), a)
}

pub fn sext_term<H: Home>(terms: &Terms<H>, a: &Term<H>, width: u8) -> Result<Term<H>, AllocError>
    requires width_is { IsWidth width }
    requires wider { width_of a.now < width }
    ensures folded { IfOk result (λ t. t ≡ folding.folded_one (Unary.Sext width) a.now) }
    ensures width { IfOk result (λ t. width_of t ≡ width) }
    ensures tree { IfOk result (λ t. IsTree t) }
    ensures reads { (count : ℕ) → ReadsBelow count a.now → IfOk result (λ t. ReadsBelow count t) }
    ensures value { IfOk result (λ t. (input : List ℕ) → value_of t input ≡ spec.one_of (Unary.Sext width) (value_of a.now input)) }
{
    one(terms, Unary::Sext(width), a)
}

pub fn trunc_term<H: Home>(terms: &Terms<H>, a: &Term<H>, width: u8) -> Result<Term<H>, AllocError>
    requires width_is { IsWidth width }
    requires narrower { width < width_of a.now }
    ensures folded { IfOk result (λ t. t ≡ folding.folded_one (Unary.Trunc width) a.now) }
    ensures width { IfOk result (λ t. width_of t ≡ width) }
    ensures tree { IfOk result (λ t. IsTree t) }
    ensures reads { (count : ℕ) → ReadsBelow count a.now → IfOk result (λ t. ReadsBelow count t) }
    ensures value { IfOk result (λ t. (input : List ℕ) → value_of t input ≡ spec.one_of (Unary.Trunc width) (value_of a.now input)) }
{
    one(terms, Unary::Trunc(width), a)
}

/// Byte j of a term, the lowest first.
pub fn byte<H: Home>(terms: &Terms<H>, a: &Term<H>, j: u8) -> Result<Term<H>, AllocError>
    requires whole { width_of a.now % 8 ≡ 0 }
    requires within { 8 * j + 8 ≤ width_of a.now }
    ensures folded { IfOk result (λ t. t ≡ folding.folded_one (Unary.Byte j) a.now) }
    ensures width { IfOk result (λ t. width_of t ≡ 8) }
    ensures tree { IfOk result (λ t. IsTree t) }
    ensures reads { (count : ℕ) → ReadsBelow count a.now → IfOk result (λ t. ReadsBelow count t) }
    ensures value { IfOk result (λ t. (input : List ℕ) → value_of t input ≡ spec.one_of (Unary.Byte j) (value_of a.now input)) }
{
    one(terms, Unary::Byte(j), a)
}

fn plain_choice<H: Home>(
    terms: &Terms<H>,
    c: &Term<H>,
    a: &Term<H>,
    b: &Term<H>,
) -> Result<Term<H>, AllocError>
    requires condition { width_of c.now ≡ 1 }
    requires arms { width_of a.now ≡ width_of b.now }
    ensures { IfOk result (λ t. t ≡ tree.choice c.now a.now b.now) }
{
    let _widths = (c.width(), b.width());
    Term::new(
        terms,
        a.width(),
        Node::Choice(c.copy()?, a.copy()?, b.copy()?),
    )
}

#[tactic(auto, unfolding(crate::specs::Folding::folded_choice))]
fn fold_choice<H: Home>(
    terms: &Terms<H>,
    c: &Term<H>,
    a: &Term<H>,
    b: &Term<H>,
) -> Result<Term<H>, AllocError>
    requires condition { width_of c.now ≡ 1 }
    requires arms { width_of a.now ≡ width_of b.now }
    ensures folded { IfOk result (λ t. t ≡ folding.folded_choice c.now a.now b.now) }
    ensures operands { IsTree (tree.choice c.now a.now b.now) }
{
    let _widths = (a.width(), b.width());
    match c.as_constant() {
        Some(n) => { if n.bits() == 1 { a.copy() } else { b.copy() } }
        None => {
            if is_same(a, b) {
                a.copy()
            } else {
                plain_choice(terms, c, a, b)
            }
        }
    }
}

/// The first arm where the condition is 1, and else the second.
pub fn ite<H: Home>(
    terms: &Terms<H>,
    c: &Term<H>,
    a: &Term<H>,
    b: &Term<H>,
) -> Result<Term<H>, AllocError>
    requires condition { width_of c.now ≡ 1 }
    requires arms { width_of a.now ≡ width_of b.now }
    ensures folded { IfOk result (λ t. t ≡ folding.folded_choice c.now a.now b.now) }
    ensures width { IfOk result (λ t. width_of t ≡ width_of a.now) }
    ensures tree { IfOk result (λ t. IsTree t) }
    ensures reads { (count : ℕ) → ReadsBelow count c.now → ReadsBelow count a.now → ReadsBelow count b.now → IfOk result (λ t. ReadsBelow count t) }
    ensures value { IfOk result (λ t. (input : List ℕ) → value_of t input ≡ (if spec.is_yes (value_of c.now input) then value_of a.now input else value_of b.now input)) }
{
    fold_choice(terms, c, a, b)
}
