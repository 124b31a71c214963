ghost use Rattle.std.specs.Prelude.{◌≡◌, IfOk};
ghost use Rattle.terms.specs.Value.{ReadsBelow};

use bitnum::{BinOp, Num};
use places::{Home, Opened};
use std::alloc::{AllocError, Global};
use std::marker::{Brand, Send, Sync};
use std::test::Fail;
use std::thread::{Threads, join as join_threads};
use terms::{
    MOST_LEVELS, Shape, Term, Terms, bin, byte, constant, eq, input_byte, ite, join, not, same,
    same_place, sext_term, slt, trunc_term, ult, value, value_once, zext_term,
};

/// The sum of two bytes.
fn sum_of_bytes<H: Home>(terms: &Terms<H>) -> Result<Term<H>, AllocError>
    ensures { IfOk result (λ t. ReadsBelow 2 t) }
{
    let x = input_byte(terms, 0)?;
    let y = input_byte(terms, 1)?;
    let sum = bin(terms, BinOp::Add, &x, &y)?;
    Ok(sum)
}

/// Whether two bytes differ, if the first is below the second, signed; and else whether it is so unsigned.
fn tests_of_bytes<H: Home>(terms: &Terms<H>) -> Result<Term<H>, AllocError>
    ensures { IfOk result (λ t. ReadsBelow 2 t) }
{
    let x = input_byte(terms, 0)?;
    let y = input_byte(terms, 1)?;
    let signed = slt(terms, &x, &y)?;
    let unsigned = ult(terms, &x, &y)?;
    let alike = eq(terms, &x, &y)?;
    let differ = not(terms, &alike)?;
    let chosen = ite(terms, &signed, &differ, &unsigned)?;
    Ok(chosen)
}

/// The first byte in 32 bits by its sign, in 16 of these, and in 64 by 0.
fn widths_of_a_byte<H: Home>(terms: &Terms<H>) -> Result<Term<H>, AllocError>
    ensures { IfOk result (λ t. ReadsBelow 2 t) }
{
    let x = input_byte(terms, 0)?;
    let wide = sext_term(terms, &x, 32)?;
    let narrow = trunc_term(terms, &wide, 16)?;
    let wider = zext_term(terms, &narrow, 64)?;
    Ok(wider)
}

/// The second byte of three that are joined, the third of which is 1.
fn byte_of_three<H: Home>(terms: &Terms<H>) -> Result<Term<H>, AllocError>
    ensures { IfOk result (λ t. ReadsBelow 2 t) }
{
    let x = input_byte(terms, 0)?;
    let y = input_byte(terms, 1)?;
    let one = constant(terms, Num::new(8, 1))?;
    let all = join(terms, &[x, y, one])?;
    let second = byte(terms, &all, 1)?;
    Ok(second)
}

/// The value where the first byte is 200 and the second 100.
fn shown<H: Home>(t: &Term<H>) -> u64
    requires { ReadsBelow 2 t.now }
{
    value(t, &[200, 100]).bits()
}

fn value_of_sum<H: Home>(opened: Opened<Shape>, alloc: Global) -> Result<u64, AllocError>
    requires { opened.seen.book ≡ H.book }
{
    let terms = Terms::<H>::new(alloc, opened.named::<H>());
    let t = sum_of_bytes(&terms)?;
    Ok(shown(&t))
}

fn value_of_tests<H: Home>(opened: Opened<Shape>, alloc: Global) -> Result<u64, AllocError>
    requires { opened.seen.book ≡ H.book }
{
    let terms = Terms::<H>::new(alloc, opened.named::<H>());
    let t = tests_of_bytes(&terms)?;
    Ok(shown(&t))
}

fn value_of_widths<H: Home>(opened: Opened<Shape>, alloc: Global) -> Result<u64, AllocError>
    requires { opened.seen.book ≡ H.book }
{
    let terms = Terms::<H>::new(alloc, opened.named::<H>());
    let t = widths_of_a_byte(&terms)?;
    Ok(shown(&t))
}

fn value_of_byte<H: Home>(opened: Opened<Shape>, alloc: Global) -> Result<u64, AllocError>
    requires { opened.seen.book ≡ H.book }
{
    let terms = Terms::<H>::new(alloc, opened.named::<H>());
    let t = byte_of_three(&terms)?;
    Ok(shown(&t))
}

#[test]
fn each_constructor_has_its_value(rt: HostRuntime) -> Result<(), Fail> {
    assert_eq!(rt; value_of_sum::<Brand>(Opened::new(), rt.alloc())?, 44);
    assert_eq!(rt; value_of_tests::<Brand>(Opened::new(), rt.alloc())?, 1);
    assert_eq!(rt;
        value_of_widths::<Brand>(Opened::new(), rt.alloc())?,
        65_480
    );
    assert_eq!(rt; value_of_byte::<Brand>(Opened::new(), rt.alloc())?, 100);
    Ok(())
}

/// The first byte, turned in its two lowest bits so many times.
fn chain<H: Home>(terms: &Terms<H>, times: u32) -> Result<Term<H>, AllocError>
    ensures { IfOk result (λ t. ReadsBelow 2 t) }
{
    let three = constant(terms, Num::new(8, 3))?;
    let mut x = input_byte(terms, 0)?;
    for _ in 0..times {
        let turned = bin(terms, BinOp::Xor, &x, &three)?;
        x = turned;
    }
    Ok(x)
}

/// The value by both walks.
fn shown_twice<H: Home>(alloc: Global, t: &Term<H>) -> Result<(u64, u64), AllocError>
    requires { ReadsBelow 2 t.now }
{
    let plain = value(t, &[200, 100]);
    let once = value_once(alloc, t, &[200, 100])?;
    Ok((plain.bits(), once.bits()))
}

fn chain_value<H: Home>(opened: Opened<Shape>, alloc: Global, times: u32) -> Result<u64, AllocError>
    requires { opened.seen.book ≡ H.book }
{
    let terms = Terms::<H>::new(alloc, opened.named::<H>());
    let t = chain(&terms, times)?;
    Ok(shown(&t))
}

fn chain_values<H: Home>(
    opened: Opened<Shape>,
    alloc: Global,
    times: u32,
) -> Result<(u64, u64), AllocError>
    requires { opened.seen.book ≡ H.book }
{
    let terms = Terms::<H>::new(alloc, opened.named::<H>());
    let t = chain(&terms, times)?;
    shown_twice(alloc, &t)
}

// Whether two chains that were made apart are one tree.
fn chains_alike<H: Home>(
    opened: Opened<Shape>,
    alloc: Global,
    times: u32,
) -> Result<bool, AllocError>
    requires { opened.seen.book ≡ H.book }
{
    let terms = Terms::<H>::new(alloc, opened.named::<H>());
    let a = chain(&terms, times)?;
    let b = chain(&terms, times)?;
    Ok(same(&a, &b))
}

#[test]
fn the_deepest_chain_is_walked(rt: HostRuntime) -> Result<(), Fail> {
    let most = MOST_LEVELS - 1;
    assert_eq!(rt; chain_value::<Brand>(Opened::new(), rt.alloc(), most)?, 200);
    assert!(rt; chains_alike::<Brand>(Opened::new(), rt.alloc(), most)?);
    Ok(())
}

// The walk that remembers needs more stack a level.
#[test]
fn a_deep_chain_is_walked_twice(rt: HostRuntime) -> Result<(), Fail> {
    let values = chain_values::<Brand>(Opened::new(), rt.alloc(), 10_000)?;
    assert_eq!(rt; values, (200, 200));
    Ok(())
}

#[test]
fn a_deeper_chain_is_refused(rt: HostRuntime) {
    assert!(rt; chains_alike::<Brand>(Opened::new(), rt.alloc(), MOST_LEVELS).is_err());
    assert!(rt; chains_alike::<Brand>(Opened::new(), rt.alloc(), 1_000_000).is_err());
}

/// The first byte, added to itself so many times.
fn doubled<H: Home>(terms: &Terms<H>, times: u32) -> Result<Term<H>, AllocError>
    ensures { IfOk result (λ t. ReadsBelow 2 t) }
{
    let mut x = input_byte(terms, 0)?;
    for _ in 0..times {
        let sum = bin(terms, BinOp::Add, &x, &x)?;
        x = sum;
    }
    Ok(x)
}

// Whether two terms, each made in a thread of its own, are one tree, and have one place.
fn made_by_two<H: Home + Send + Sync, R: Threads + Sync>(
    rt: &R,
    opened: Opened<Shape>,
    alloc: Global,
    times: u32,
) -> Result<(bool, bool), AllocError>
    requires { opened.seen.book ≡ H.book }
{
    let terms = Terms::<H>::new(alloc, opened.named::<H>());
    let (a, b) = join_threads(rt, || doubled(&terms, times), || doubled(&terms, times));
    let a = a?;
    let b = b?;
    Ok((same(&a, &b), same_place(&a, &b)))
}

#[test]
fn two_threads_make_terms_of_one_table(rt: HostRuntime) -> Result<(), Fail> {
    assert_eq!(rt;
        made_by_two::<Brand, _>(&rt, Opened::new(), rt.alloc(), 1_000)?,
        (true, false)
    );
    Ok(())
}
