ghost use Rattle.std.specs.Prelude.{◌≡◌, ◌<◌, ◌≤◌, All, IfOk, OnOk};
ghost use Rattle.terms.specs.Tree.{width_of};
ghost use Rattle.terms.specs.Value.{ReadsBelow};
ghost use Rattle.term_bits.specs.Conditions.{IsConjunct};

use bitnum::{BinOp, Num};
use decider::{Decide, Plain, Verdict};
use places::{Home, Opened};
use plain_list::Sequence;
use std::alloc::{AllocError, Global};
use std::marker::Brand;
use std::test::Fail;
use terms::{Shape, Term, Terms, bin, constant, eq, input_byte, not, zext_term};

/// A condition of two bytes.
#[derive(Clone, Copy)]
enum Asked {
    /// Their product is a number.
    Product(u64),
    /// The first leaves a rest by 97, which it is not.
    Rest(u64),
}

/// Adds a conjunct.
fn push_conjunct<H: Home>(all: &mut Sequence<Term<H>>, t: Term<H>) -> Result<(), AllocError>
    requires all { All IsConjunct all.old }
    requires reads { All (ReadsBelow 2) all.old }
    requires conjunct { IsConjunct t }
    requires read { ReadsBelow 2 t }
    ensures all { OnOk result (All IsConjunct all.new) }
    ensures reads { OnOk result (All (ReadsBelow 2) all.new) }
{
    all.push(t)?;
    Ok(())
}

/// That the product of the two bytes is a number.
fn product<H: Home>(terms: &Terms<H>, number: u64) -> Result<Term<H>, AllocError>
    requires { number < 65536 }
    ensures conjunct { IfOk result (λ t. IsConjunct t) }
    ensures reads { IfOk result (λ t. ReadsBelow 2 t) }
{
    let x = input_byte(terms, 0)?;
    let y = input_byte(terms, 1)?;
    let wide_x = zext_term(terms, &x, 16)?;
    let wide_y = zext_term(terms, &y, 16)?;
    let made = bin(terms, BinOp::Mul, &wide_x, &wide_y)?;
    let other = constant(terms, Num::new(16, number))?;
    let equal = eq(terms, &made, &other)?;
    Ok(equal)
}

/// That the first byte leaves a rest by 97.
fn rest<H: Home>(terms: &Terms<H>, number: u64) -> Result<Term<H>, AllocError>
    requires { number < 256 }
    ensures conjunct { IfOk result (λ t. IsConjunct t) }
    ensures reads { IfOk result (λ t. ReadsBelow 2 t) }
{
    let x = input_byte(terms, 0)?;
    let by = constant(terms, Num::new(8, 97))?;
    let made = bin(terms, BinOp::Urem, &x, &by)?;
    let other = constant(terms, Num::new(8, number))?;
    let equal = eq(terms, &made, &other)?;
    Ok(equal)
}

/// That the first byte isn't a number.
fn unlike<H: Home>(terms: &Terms<H>, number: u64) -> Result<Term<H>, AllocError>
    requires { number < 256 }
    ensures conjunct { IfOk result (λ t. IsConjunct t) }
    ensures reads { IfOk result (λ t. ReadsBelow 2 t) }
{
    let x = input_byte(terms, 0)?;
    let other = constant(terms, Num::new(8, number))?;
    let equal = eq(terms, &x, &other)?;
    let differ = not(terms, &equal)?;
    Ok(differ)
}

fn products<H: Home>(terms: &Terms<H>, number: u64) -> Result<Sequence<Term<H>>, AllocError>
    requires { number < 65536 }
    ensures all { IfOk result (λ all. All IsConjunct all) }
    ensures reads { IfOk result (λ all. All (ReadsBelow 2) all) }
{
    let factors = product(terms, number)?;
    let mut all = Sequence::new(terms.alloc());
    push_conjunct(&mut all, factors)?;
    Ok(all)
}

fn rests<H: Home>(terms: &Terms<H>, number: u64) -> Result<Sequence<Term<H>>, AllocError>
    requires { number < 256 }
    ensures all { IfOk result (λ all. All IsConjunct all) }
    ensures reads { IfOk result (λ all. All (ReadsBelow 2) all) }
{
    let first = rest(terms, number)?;
    let second = unlike(terms, number)?;
    let mut all = Sequence::new(terms.alloc());
    push_conjunct(&mut all, first)?;
    push_conjunct(&mut all, second)?;
    Ok(all)
}

fn condition<H: Home>(terms: &Terms<H>, asked: Asked) -> Result<Sequence<Term<H>>, AllocError>
    ensures all { IfOk result (λ all. All IsConjunct all) }
    ensures reads { IfOk result (λ all. All (ReadsBelow 2) all) }
{
    match asked {
        Asked::Product(number) => products(terms, number % 65536),
        Asked::Rest(number) => rests(terms, number % 256),
    }
}

fn decide_in<H: Home, D: Decide>(
    opened: Opened<Shape>,
    alloc: Global,
    decider: &D,
    asked: Asked,
    inputs: u8,
    budget: u64,
) -> Result<Verdict, AllocError>
    requires book { opened.seen.book ≡ H.book }
    requires inputs_from { 2 ≤ inputs }
    requires inputs_to { inputs ≤ 64 }
    requires budget { 1 ≤ budget }
{
    let terms = Terms::<H>::new(alloc, opened.named::<H>());
    let all = condition(&terms, asked)?;
    decider.decide(alloc, all.as_slice(), inputs, budget)
}

fn decide_anew(alloc: Global, asked: Asked, inputs: u8, budget: u64) -> Result<Verdict, AllocError>
    requires inputs_from { 2 ≤ inputs }
    requires inputs_to { inputs ≤ 64 }
    requires budget { 1 ≤ budget }
{
    decide_in::<Brand, Plain>(Opened::new(), alloc, &Plain, asked, inputs, budget)
}

#[test]
fn the_least_factors_are_found(rt: HostRuntime) -> Result<(), Fail> {
    match decide_anew(rt.alloc(), Asked::Product(60491), 2, 65537)? {
        Verdict::Sat(input) => assert_eq!(rt; input.as_slice(), [241, 251].as_slice()),
        _ => panic!(rt; "no input"),
    }
    Ok(())
}

#[test]
fn a_byte_that_is_not_read_is_zero(rt: HostRuntime) -> Result<(), Fail> {
    match decide_anew(rt.alloc(), Asked::Rest(5), 3, 65537)? {
        Verdict::Sat(input) => assert_eq!(rt; input.as_slice(), [102, 0, 0].as_slice()),
        _ => panic!(rt; "no input"),
    }
    Ok(())
}

#[test]
fn what_no_input_meets_is_refuted(rt: HostRuntime) -> Result<(), Fail> {
    let verdict = decide_anew(rt.alloc(), Asked::Rest(100), 2, 65537)?;
    assert!(rt; matches!(verdict, Verdict::Unsat));
    Ok(())
}

#[test]
fn the_first_conflict_can_spend_the_budget(rt: HostRuntime) -> Result<(), Fail> {
    let verdict = decide_anew(rt.alloc(), Asked::Rest(100), 2, 1)?;
    assert!(rt; matches!(verdict, Verdict::Spent));
    Ok(())
}
