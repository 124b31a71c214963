ghost use Rattle.std.specs.Prelude.{◌≡◌, IfOk};
ghost use Rattle.cnf.specs.Cnf.{IsBelow, lists_of};
ghost use Rattle.cnf.specs.Rup.{IsRefutation};
ghost use Rattle.decider.specs.declared.Verdict.TheVariants.{Unsat};

use crate::found::found_input;
use crate::{Decide, Verdict};
use bit_gates::clauses_of;
use cnf::{Clause, Formula};
use places::Home;
use refutation::{Checked, Prepared};
use search::{Answer, search};
use std::alloc::{AllocError, Global};
use terms::Term;

/// The decider that makes the clauses of each condition anew and searches them.
#[derive(Clone, Copy)]
pub struct Plain;

impl Decide for Plain {
    fn decide<H: Home>(
        &self,
        alloc: Global,
        condition: &[Term<H>],
        inputs: u8,
        budget: u64,
    ) -> Result<Verdict, AllocError> {
        let blasted = clauses_of(alloc, condition)?;
        match search(alloc, &blasted.formula, &blasted.order, budget)? {
            Answer::Model(values) => {
                let input = found_input(alloc, &blasted, &values, inputs)?;
                Ok(Verdict::Sat(input))
            }
            Answer::Refuted(log) => checked(alloc, &blasted.formula, &log),
            Answer::Spent => Ok(Verdict::Spent),
        }
    }
}

/// Says that there is no input, once the checker says so of the refutation too.
fn checked(alloc: Global, formula: &Formula, log: &[Clause]) -> Result<Verdict, AllocError>
    requires formula { IsBelow formula.now.vars formula.now.clauses }
    requires log { IsBelow formula.now.vars (lists_of log.now) }
    requires refutes { IsRefutation formula.now.clauses (lists_of log.now) }
    ensures { IfOk result (λ verdict. verdict ≡ Unsat) }
{
    let mut prepared = Prepared::new(alloc, formula, log)?;
    match prepared.check() {
        Checked::Yes => Ok(Verdict::Unsat),
        Checked::No { step: _ } => unreachable!(),
    }
}
