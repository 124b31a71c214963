//! Work on shared terms: `terms copy|add|same|walk SIZE TIMES`.
ghost use Rattle.std.specs.Prelude.{◌≡◌, IfOk};
ghost use Rattle.terms.specs.Value.{ReadsBelow};

use crate::words::{number, refused};
use bitnum::{BinOp, Num};
use places::{Home, Opened};
use plain_list::Sequence;
use std::alloc::{AllocError, Global};
use std::io;
use std::marker::Brand;
use term_store::Conditions;
use terms::{Shape, Term, Terms, bin, constant, eq, input_byte, same, value_once, zext_term};

/// A byte, added to itself so many times: as many nodes, and two to that many paths.
fn doubled<H: Home>(terms: &Terms<H>, depth: u32) -> Result<Term<H>, AllocError>
    ensures { IfOk result (λ t. ReadsBelow 1 t) }
{
    let mut x = input_byte(terms, 0)?;
    for _ in 0..depth {
        let sum = bin(terms, BinOp::Add, &x, &x)?;
        x = sum;
    }
    Ok(x)
}

/// So many conjuncts, no two of which are alike.
fn conjuncts<H: Home>(terms: &Terms<H>, count: u32) -> Result<Sequence<Term<H>>, AllocError> {
    let mut all = Sequence::new(terms.alloc());
    let wide = zext_term(terms, &input_byte(terms, 0)?, 32)?;
    for k in 0..count {
        let number = constant(terms, Num::new(32, u64::from(k)))?;
        all.push(eq(terms, &wide, &number)?)?;
    }
    Ok(all)
}

fn copy_often<H: Home>(term: &Term<H>, times: u32) -> Result<(), AllocError> {
    for _ in 0..times {
        let _copy = term.copy()?;
    }
    Ok(())
}

fn copies<H: Home>(terms: &Terms<H>, depth: u32, times: u32) -> Result<(), AllocError> {
    let term = doubled(terms, depth)?;
    copy_often(&term, times)
}

fn compare_often<H: Home>(one: &Term<H>, other: &Term<H>, times: u32) {
    for _ in 0..times {
        let _same = same(one, other);
    }
}

fn comparisons<H: Home>(terms: &Terms<H>, depth: u32, times: u32) -> Result<(), AllocError> {
    let one = doubled(terms, depth)?;
    let other = doubled(terms, depth)?;
    compare_often(&one, &other, times);
    Ok(())
}

fn walk_often<H: Home>(alloc: Global, term: &Term<H>, times: u32) -> Result<(), AllocError>
    requires { ReadsBelow 1 term.now }
{
    for _ in 0..times {
        let _value = value_once(alloc, term, &[1])?;
    }
    Ok(())
}

fn walks<H: Home>(terms: &Terms<H>, depth: u32, times: u32) -> Result<(), AllocError> {
    let term = doubled(terms, depth)?;
    walk_often(terms.alloc(), &term, times)
}

fn added<H: Home>(terms: &Terms<H>, all: &[Term<H>]) -> Result<(), AllocError> {
    let mut condition = Conditions::new(terms.alloc());
    for t in all {
        if t.width() == 1 {
            condition.add(terms, t)?;
        }
    }
    Ok(())
}

fn additions<H: Home>(terms: &Terms<H>, count: u32, times: u32) -> Result<(), AllocError> {
    let all = conjuncts(terms, count)?;
    for _ in 0..times {
        added(terms, all.as_slice())?;
    }
    Ok(())
}

/// What is to be done.
#[derive(Clone, Copy)]
enum Work {
    Copies,
    Additions,
    Comparisons,
    Walks,
}

fn named(what: &str) -> Option<Work> {
    match what {
        "copy" => Some(Work::Copies),
        "add" => Some(Work::Additions),
        "same" => Some(Work::Comparisons),
        "walk" => Some(Work::Walks),
        _ => None,
    }
}

fn done<H: Home>(
    alloc: Global,
    opened: Opened<Shape>,
    what: Work,
    size: u32,
    times: u32,
) -> Result<(), AllocError>
    requires { opened.seen.book ≡ H.book }
{
    let terms = Terms::<H>::new(alloc, opened.named::<H>());
    match what {
        Work::Copies => copies(&terms, size, times),
        Work::Additions => additions(&terms, size, times),
        Work::Comparisons => comparisons(&terms, size, times),
        Work::Walks => walks(&terms, size, times),
    }
}

/// The work over a new table.
fn done_anew(alloc: Global, what: Work, size: u32, times: u32) -> Result<(), AllocError> {
    done::<Brand>(alloc, Opened::new(), what, size, times)
}

pub(crate) fn timed(rt: &HostRuntime, words: &[String]) -> io::Result<()> {
    let Some(what) = words.get(0).and_then(|word| named(word.as_str())) else {
        return refused(rt);
    };
    let (Some(size), Some(times)) = (number(words, 1), number(words, 2)) else {
        return refused(rt);
    };
    if done_anew(rt.alloc(), what, size, times).is_err() {
        println!(rt; "no memory")?;
    }
    Ok(())
}
