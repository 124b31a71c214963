//! Work on conditions: `solver clauses|search|dimacs equal|sum|less|mul|urem|table BYTES TIMES`.
ghost use Rattle.std.specs.Prelude.{◌≡◌, ◌≤◌};

use crate::conditions::{Kind, conjuncts};
use crate::words::{number, refused};
use bit_gates::{Blasted, clauses_of};
use cnf::{Clause, Formula, are_below};
use places::{Home, Opened};
use search::{Answer, search};
use std::alloc::{AllocError, Global};
use std::io;
use std::marker::Brand;
use terms::{Shape, Terms};

/// How many conflicts a search may meet.
const BUDGET: u64 = 1_000;

/// What is to be done.
#[derive(Clone, Copy)]
enum Work {
    Clauses,
    Search,
    Dimacs,
}

fn work_named(word: &str) -> Option<Work> {
    match word {
        "clauses" => Some(Work::Clauses),
        "search" => Some(Work::Search),
        "dimacs" => Some(Work::Dimacs),
        _ => None,
    }
}

fn kind_named(word: &str) -> Option<Kind> {
    match word {
        "equal" => Some(Kind::Equal),
        "sum" => Some(Kind::Sum),
        "less" => Some(Kind::Less),
        "mul" => Some(Kind::Mul),
        "urem" => Some(Kind::Urem),
        "table" => Some(Kind::Table),
        _ => None,
    }
}

/// The clauses of a condition, made so many times and once more.
fn made<H: Home>(
    opened: Opened<Shape>,
    alloc: Global,
    kind: Kind,
    bytes: u8,
    times: u32,
) -> Result<Blasted, AllocError>
    requires book { opened.seen.book ≡ H.book }
    requires bytes { bytes ≤ 8 }
{
    let terms = Terms::<H>::new(alloc, opened.named::<H>());
    let condition = conjuncts(&terms, kind, bytes)?;
    for _ in 0..times {
        let _blasted = clauses_of(alloc, condition.as_slice())?;
    }
    clauses_of(alloc, condition.as_slice())
}

fn made_anew(alloc: Global, kind: Kind, bytes: u8, times: u32) -> Result<Blasted, AllocError>
    requires { bytes ≤ 8 }
{
    made::<Brand>(Opened::new(), alloc, kind, bytes, times)
}

/// How many conflicting leaves a search met: a tree has one decision less than leaves.
fn leaves(answer: &Answer) -> u64 {
    match answer {
        Answer::Model(_) => 0,
        Answer::Refuted(log) => (log.len() / 2) as u64 + 1,
        Answer::Spent => BUDGET,
    }
}

/// Searches so many times.
fn searched(alloc: Global, blasted: &Blasted, times: u32) -> Result<u64, AllocError> {
    let mut met = 0;
    let below = blasted
        .order
        .iter()
        .all(|variable| *variable < blasted.formula.vars);
    if !below || !are_below(&blasted.formula.clauses, blasted.formula.vars) {
        return Ok(met);
    }
    for _ in 0..times {
        met = leaves(&search(alloc, &blasted.formula, &blasted.order, BUDGET)?);
    }
    Ok(met)
}

fn print_clause(rt: &HostRuntime, clause: &Clause) -> io::Result<()> {
    for lit in clause {
        let sign = if lit.positive { "" } else { "-" };
        print!(rt; "{sign}{} ", lit.var.wrapping_add(1))?;
    }
    println!(rt; "0")
}

/// The formula in the DIMACS format.
fn print_formula(rt: &HostRuntime, formula: &Formula) -> io::Result<()> {
    println!(rt; "p cnf {} {}", formula.vars, formula.clauses.len())?;
    for clause in &formula.clauses {
        print_clause(rt, clause)?;
    }
    Ok(())
}

fn done(rt: &HostRuntime, work: Work, kind: Kind, bytes: u8, times: u32) -> io::Result<()>
    requires { bytes ≤ 8 }
{
    let repeated = if matches!(work, Work::Clauses) {
        times
    } else {
        0
    };
    let Ok(blasted) = made_anew(rt.alloc(), kind, bytes, repeated) else {
        return println!(rt; "no memory");
    };
    match work {
        Work::Clauses => println!(rt; "{}", blasted.formula.clauses.len()),
        Work::Dimacs => print_formula(rt, &blasted.formula),
        Work::Search => match searched(rt.alloc(), &blasted, times) {
            Ok(met) => println!(rt; "{met}"),
            Err(_) => println!(rt; "no memory"),
        },
    }
}

pub(crate) fn timed(rt: &HostRuntime, words: &[String]) -> io::Result<()> {
    let Some(work) = words.get(0).and_then(|word| work_named(word.as_str())) else {
        return refused(rt);
    };
    let Some(kind) = words.get(1).and_then(|word| kind_named(word.as_str())) else {
        return refused(rt);
    };
    let (Some(bytes), Some(times)) = (number(words, 2), number(words, 3)) else {
        return refused(rt);
    };
    if bytes > 8 {
        return println!(rt; "BYTES is at most 8");
    }
    done(rt, work, kind, bytes as u8, times)
}
