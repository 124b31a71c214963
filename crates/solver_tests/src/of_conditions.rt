ghost use Rattle.std.specs.Prelude.{◌≡◌, ◌<◌, All, IfOk, OnOk};
ghost use Rattle.cnf.specs.Cnf.{IsBelow};
ghost use Rattle.terms.specs.Tree.{width_of};
ghost use Rattle.term_bits.specs.Conditions.{IsConjunct};

use bit_gates::{Blasted, clauses_of};
use bitnum::{BinOp, Num};
use places::{Home, Opened};
use plain_list::Sequence;
use search::{Answer, search};
use std::alloc::{AllocError, Global};
use std::marker::Brand;
use std::test::Fail;
use terms::{Shape, Term, Terms, bin, constant, eq, input_byte};

/// Whether a byte is a number.
fn equals<H: Home>(terms: &Terms<H>, t: &Term<H>, number: u64) -> Result<Term<H>, AllocError>
    requires byte { width_of t.now ≡ 8 }
    requires fits { number < 256 }
    ensures { IfOk result (λ t. IsConjunct t) }
{
    let other = constant(terms, Num::new(8, number))?;
    let equal = eq(terms, t, &other)?;
    Ok(equal)
}

/// Adds a conjunct.
fn push_conjunct<H: Home>(all: &mut Sequence<Term<H>>, t: Term<H>) -> Result<(), AllocError>
    requires all { All IsConjunct all.old }
    requires conjunct { IsConjunct t }
    ensures { OnOk result (All IsConjunct all.new) }
{
    all.push(t)?;
    Ok(())
}

/// That the first byte is 65.
fn letter<H: Home>(terms: &Terms<H>) -> Result<Sequence<Term<H>>, AllocError>
    ensures { IfOk result (λ all. All IsConjunct all) }
{
    let mut all = Sequence::new(terms.alloc());
    let first = equals(terms, &input_byte(terms, 0)?, 65)?;
    push_conjunct(&mut all, first)?;
    Ok(all)
}

/// That the first byte is 200, the second 3, and that an operation on them gives a number.
fn operation<H: Home>(
    terms: &Terms<H>,
    op: BinOp,
    number: u64,
) -> Result<Sequence<Term<H>>, AllocError>
    requires { number < 256 }
    ensures { IfOk result (λ all. All IsConjunct all) }
{
    let x = input_byte(terms, 0)?;
    let y = input_byte(terms, 1)?;
    let made = bin(terms, op, &x, &y)?;
    let mut all = Sequence::new(terms.alloc());
    let first = equals(terms, &x, 200)?;
    push_conjunct(&mut all, first)?;
    let second = equals(terms, &y, 3)?;
    push_conjunct(&mut all, second)?;
    let third = equals(terms, &made, number)?;
    push_conjunct(&mut all, third)?;
    Ok(all)
}

fn clauses_of_letter<H: Home>(opened: Opened<Shape>, alloc: Global) -> Result<Blasted, AllocError>
    requires { opened.seen.book ≡ H.book }
    ensures variables { IfOk result (λ r. IsBelow r.formula.vars r.formula.clauses) }
    ensures order { IfOk result (λ r. All (λ v. v < r.formula.vars) r.order.items) }
{
    let terms = Terms::<H>::new(alloc, opened.named::<H>());
    let condition = letter(&terms)?;
    clauses_of(alloc, condition.as_slice())
}

fn clauses_of_operation<H: Home>(
    opened: Opened<Shape>,
    alloc: Global,
    op: BinOp,
    number: u64,
) -> Result<Blasted, AllocError>
    requires book { opened.seen.book ≡ H.book }
    requires fits { number < 256 }
    ensures variables { IfOk result (λ r. IsBelow r.formula.vars r.formula.clauses) }
    ensures order { IfOk result (λ r. All (λ v. v < r.formula.vars) r.order.items) }
{
    let terms = Terms::<H>::new(alloc, opened.named::<H>());
    let condition = operation(&terms, op, number)?;
    clauses_of(alloc, condition.as_slice())
}

/// Whether the operation on 200 and 3 gives the number, by the search.
fn gives(alloc: Global, op: BinOp, number: u64) -> Result<bool, AllocError>
    requires { number < 256 }
{
    let made = clauses_of_operation::<Brand>(Opened::new(), alloc, op, number)?;
    let answer = search(alloc, &made.formula, &made.order, 1)?;
    Ok(matches!(answer, Answer::Model(_)))
}

#[test]
fn the_letter_is_found(rt: HostRuntime) -> Result<(), Fail> {
    let made = clauses_of_letter::<Brand>(Opened::new(), rt.alloc())?;
    assert_eq!(rt; made.formula.vars, 15);
    assert_eq!(rt; made.formula.clauses.len(), 22);
    assert_eq!(rt; made.order.as_slice(), [0, 1, 2, 3, 4, 5, 6, 7].as_slice());
    match search(rt.alloc(), &made.formula, &made.order, 1)? {
        Answer::Model(values) => {
            assert_eq!(rt; values.len(), 15);
            let bits = [false, true, false, false, false, false, false, true];
            assert_eq!(rt; &values[..8], bits.as_slice());
        }
        _ => panic!(rt; "no model"),
    }
    Ok(())
}

#[test]
fn each_operation_has_its_bits(rt: HostRuntime) -> Result<(), Fail> {
    assert!(rt; gives(rt.alloc(), BinOp::Add, 203)?);
    assert!(rt; gives(rt.alloc(), BinOp::Sub, 197)?);
    assert!(rt; gives(rt.alloc(), BinOp::Mul, 88)?);
    assert!(rt; gives(rt.alloc(), BinOp::Udiv, 66)?);
    assert!(rt; gives(rt.alloc(), BinOp::Sdiv, 238)?);
    assert!(rt; gives(rt.alloc(), BinOp::Urem, 2)?);
    assert!(rt; gives(rt.alloc(), BinOp::Srem, 254)?);
    assert!(rt; gives(rt.alloc(), BinOp::Shl, 64)?);
    assert!(rt; gives(rt.alloc(), BinOp::Lshr, 25)?);
    assert!(rt; gives(rt.alloc(), BinOp::Ashr, 249)?);
    assert!(rt; gives(rt.alloc(), BinOp::And, 0)?);
    assert!(rt; gives(rt.alloc(), BinOp::Or, 203)?);
    assert!(rt; gives(rt.alloc(), BinOp::Xor, 203)?);
    assert!(rt; !gives(rt.alloc(), BinOp::Xor, 204)?);
    Ok(())
}
