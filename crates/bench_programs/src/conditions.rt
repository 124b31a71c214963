ghost use Rattle.std.specs.Prelude.{◌≡◌, ◌<◌, ◌≤◌, All, IfOk, OnOk};
ghost use Rattle.terms.specs.Tree.{width_of};
ghost use Rattle.term_bits.specs.Conditions.{IsConjunct};

use bitnum::{BinOp, Num};
use places::Home;
use plain_list::Sequence;
use std::alloc::AllocError;
use terms::{Term, Terms, bin, constant, eq, input_byte, ite, ult};

/// What a condition says of the bytes.
#[derive(Clone, Copy)]
pub(crate) enum Kind {
    /// Each is a number.
    Equal,
    /// Their sum is two numbers at once, which none is.
    Sum,
    /// Each is less than the next, and the last less than the first, which none are.
    Less,
    /// Their product is a number.
    Mul,
    /// The remainder of each by a constant is a number.
    Urem,
    /// What each finds in a table is a number.
    Table,
}

fn push_conjunct<H: Home>(all: &mut Sequence<Term<H>>, t: Term<H>) -> Result<(), AllocError>
    requires all { All IsConjunct all.old }
    requires conjunct { IsConjunct t }
    ensures { OnOk result (All IsConjunct all.new) }
{
    all.push(t)?;
    Ok(())
}

fn equals<H: Home>(terms: &Terms<H>, t: &Term<H>, number: u64) -> Result<Term<H>, AllocError>
    requires byte { width_of t.now ≡ 8 }
    requires fits { number < 256 }
    ensures { IfOk result (λ t. IsConjunct t) }
{
    let other = constant(terms, Num::new(8, number))?;
    let equal = eq(terms, t, &other)?;
    Ok(equal)
}

/// Whether a byte is less than another.
fn is_less<H: Home>(terms: &Terms<H>, k: u8, other: u8) -> Result<Term<H>, AllocError>
    requires first { k < 64 }
    requires second { other < 64 }
    ensures { IfOk result (λ t. IsConjunct t) }
{
    let x = input_byte(terms, k)?;
    let y = input_byte(terms, other)?;
    let less = ult(terms, &x, &y)?;
    Ok(less)
}

/// An operation on all the bytes.
fn total<H: Home>(terms: &Terms<H>, op: BinOp, bytes: u8) -> Result<Term<H>, AllocError>
    requires { bytes ≤ 8 }
    ensures { IfOk result (λ t. width_of t ≡ 8) }
{
    let mut all = input_byte(terms, 0)?;
    for k in 1..bytes {
        let more = bin(terms, op, &all, &input_byte(terms, k)?)?;
        all = more;
    }
    Ok(all)
}

fn remainder<H: Home>(terms: &Terms<H>, k: u8) -> Result<Term<H>, AllocError>
    requires { k < 64 }
    ensures { IfOk result (λ t. width_of t ≡ 8) }
{
    let byte = input_byte(terms, k)?;
    let divisor = constant(terms, Num::new(8, 10))?;
    bin(terms, BinOp::Urem, &byte, &divisor)
}

/// An entry of a table, or what else is found.
fn entry_or<H: Home>(
    terms: &Terms<H>,
    byte: &Term<H>,
    entry: u8,
    other: &Term<H>,
) -> Result<Term<H>, AllocError>
    requires byte { width_of byte.now ≡ 8 }
    requires other { width_of other.now ≡ 8 }
    ensures { IfOk result (λ t. width_of t ≡ 8) }
{
    let here = equals(terms, byte, u64::from(entry))?;
    let found = constant(terms, Num::new(8, u64::from(entry ^ 85)))?;
    ite(terms, &here, &found, other)
}

/// What a byte finds in a table of 32 numbers.
fn looked_up<H: Home>(terms: &Terms<H>, k: u8) -> Result<Term<H>, AllocError>
    requires { k < 64 }
    ensures { IfOk result (λ t. width_of t ≡ 8) }
{
    let byte = input_byte(terms, k)?;
    let mut found = constant(terms, Num::new(8, 0))?;
    for entry in 0..32u8 {
        let more = entry_or(terms, &byte, entry, &found)?;
        found = more;
    }
    Ok(found)
}

/// What is made of a byte.
fn made_of<H: Home>(terms: &Terms<H>, kind: Kind, k: u8) -> Result<Term<H>, AllocError>
    requires { k < 64 }
    ensures { IfOk result (λ t. width_of t ≡ 8) }
{
    match kind {
        Kind::Urem => remainder(terms, k),
        Kind::Table => looked_up(terms, k),
        _ => input_byte(terms, k),
    }
}

/// The number that is made of a byte.
fn number_of(kind: Kind, k: u8) -> u64
    requires { k < 64 }
    ensures { result < 256 }
{
    match kind {
        Kind::Urem => 7,
        Kind::Table => 64,
        _ => u64::from(k) + 65,
    }
}

fn equalities<H: Home>(
    terms: &Terms<H>,
    kind: Kind,
    bytes: u8,
) -> Result<Sequence<Term<H>>, AllocError>
    requires { bytes ≤ 8 }
    ensures { IfOk result (λ all. All IsConjunct all) }
{
    let mut all = Sequence::new(terms.alloc());
    for k in 0..bytes {
        let t = equals(terms, &made_of(terms, kind, k)?, number_of(kind, k))?;
        push_conjunct(&mut all, t)?;
    }
    Ok(all)
}

fn sums<H: Home>(terms: &Terms<H>, bytes: u8) -> Result<Sequence<Term<H>>, AllocError>
    requires { bytes ≤ 8 }
    ensures { IfOk result (λ all. All IsConjunct all) }
{
    let sum = total(terms, BinOp::Add, bytes)?;
    let mut all = Sequence::new(terms.alloc());
    let first = equals(terms, &sum, 200)?;
    push_conjunct(&mut all, first)?;
    let second = equals(terms, &sum, 201)?;
    push_conjunct(&mut all, second)?;
    Ok(all)
}

fn products<H: Home>(terms: &Terms<H>, bytes: u8) -> Result<Sequence<Term<H>>, AllocError>
    requires { bytes ≤ 8 }
    ensures { IfOk result (λ all. All IsConjunct all) }
{
    let product = total(terms, BinOp::Mul, bytes)?;
    let mut all = Sequence::new(terms.alloc());
    let conjunct = equals(terms, &product, 143)?;
    push_conjunct(&mut all, conjunct)?;
    Ok(all)
}

fn comparisons<H: Home>(terms: &Terms<H>, bytes: u8) -> Result<Sequence<Term<H>>, AllocError>
    requires { bytes ≤ 8 }
    ensures { IfOk result (λ all. All IsConjunct all) }
{
    let mut all = Sequence::new(terms.alloc());
    for k in 0..bytes {
        let next = if k + 1 < bytes { k + 1 } else { 0 };
        let t = is_less(terms, k, next)?;
        push_conjunct(&mut all, t)?;
    }
    Ok(all)
}

/// The conjuncts of a condition over so many bytes.
pub(crate) fn conjuncts<H: Home>(
    terms: &Terms<H>,
    kind: Kind,
    bytes: u8,
) -> Result<Sequence<Term<H>>, AllocError>
    requires { bytes ≤ 8 }
    ensures { IfOk result (λ all. All IsConjunct all) }
{
    match kind {
        Kind::Equal | Kind::Urem | Kind::Table => equalities(terms, kind, bytes),
        Kind::Mul => products(terms, bytes),
        Kind::Sum => sums(terms, bytes),
        Kind::Less => comparisons(terms, bytes),
    }
}
