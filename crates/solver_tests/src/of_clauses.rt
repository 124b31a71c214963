ghost use Rattle.std.specs.Prelude.{◌≤◌};

use cnf::{Clause, Formula, Lit, Pass, are_below, pass_once, unassigned};
use refutation::{Checked, Prepared};
use search::{Answer, search};
use std::alloc::{AllocError, Global};
use std::process::Abort;
use std::test::Fail;

const fn lit(var: u64, positive: bool) -> Lit {
    Lit { var, positive }
}

#[test]
fn passes_assign_what_is_forced(rt: HostRuntime) -> Result<(), Fail> {
    let mut clauses: Vec<Clause> = Vec::new(rt.alloc());
    clauses.push(Vec::from_slice(rt.alloc(), &[lit(0, false), lit(1, true)])?)?;
    clauses.push(Vec::from_slice(rt.alloc(), &[lit(0, true)])?)?;
    let mut assigned = unassigned(rt.alloc(), 2)?;
    assert!(rt; !are_below(&clauses, 1));
    assert!(rt; are_below(&clauses, 2));
    assert!(rt; matches!(pass_once(&clauses, assigned.as_mut_slice()), Pass::Changed));
    assert_eq!(rt; assigned.as_slice(), [Some(true), None].as_slice());
    Ok(())
}

/// The clauses of two variables that exclude each of their assignments but the first `allowed`.
fn exclusions(alloc: Global, allowed: usize) -> Result<Vec<Clause>, AllocError> {
    let mut clauses: Vec<Clause> = Vec::new(alloc);
    for k in allowed..4 {
        let pair = [lit(0, k < 2), lit(1, k % 2 == 0)];
        clauses.push(Vec::from_slice(alloc, &pair)?)?;
    }
    Ok(clauses)
}

fn excluding(rt: &impl Abort, alloc: Global, allowed: usize, budget: u64) -> Result<Answer, Fail>
    requires { 1 ≤ budget }
{
    let clauses = exclusions(alloc, allowed)?;
    let formula = Formula { vars: 2, clauses };
    assert!(rt; are_below(&formula.clauses, formula.vars));
    let answer = search(alloc, &formula, &[0, 1], budget)?;
    Ok(answer)
}

#[test]
fn refutes_with_a_log(rt: HostRuntime) -> Result<(), Fail> {
    match excluding(&rt, rt.alloc(), 0, 3)? {
        Answer::Refuted(log) => {
            assert_eq!(rt; log.len(), 3);
            assert!(rt; log[0].as_slice() == [lit(0, true)].as_slice());
            assert!(rt; log[1].as_slice() == [lit(0, false)].as_slice());
            assert!(rt; log[2].is_empty());
        }
        _ => panic!(rt; "not refuted"),
    }
    assert!(rt; matches!(excluding(&rt, rt.alloc(), 0, 2)?, Answer::Spent));
    Ok(())
}

#[test]
fn finds_the_least_model(rt: HostRuntime) -> Result<(), Fail> {
    match excluding(&rt, rt.alloc(), 2, 1)? {
        Answer::Model(values) => assert_eq!(rt; values.as_slice(), [false, false].as_slice()),
        _ => panic!(rt; "no model"),
    }
    Ok(())
}

/// What is found of a log about two variables of which each assignment is excluded.
fn checked(rt: &impl Abort, alloc: Global, log: &[Clause]) -> Result<Checked, Fail> {
    let clauses = exclusions(alloc, 0)?;
    let formula = Formula { vars: 2, clauses };
    assert!(rt; are_below(&formula.clauses, formula.vars));
    assert!(rt; are_below(log, formula.vars));
    let mut prepared = Prepared::new(alloc, &formula, log)?;
    Ok(prepared.check())
}

#[test]
fn an_empty_clause_is_needed(rt: HostRuntime) -> Result<(), Fail> {
    let mut log: Vec<Clause> = Vec::new(rt.alloc());
    log.push(Vec::from_slice(rt.alloc(), &[lit(0, true)])?)?;
    assert!(rt; matches!(checked(&rt, rt.alloc(), &log)?, Checked::No { step: 1 }));
    log.push(Vec::new(rt.alloc()))?;
    assert!(rt; matches!(checked(&rt, rt.alloc(), &log)?, Checked::Yes));
    Ok(())
}

#[test]
fn takes_no_case_split(rt: HostRuntime) -> Result<(), Fail> {
    let mut log: Vec<Clause> = Vec::new(rt.alloc());
    log.push(Vec::new(rt.alloc()))?;
    assert!(rt; matches!(checked(&rt, rt.alloc(), &log)?, Checked::No { step: 0 }));
    Ok(())
}
