//! A checker of refutations by the unit rule.
#![tactic(auto)]

ghost use Rattle.std.specs.Prelude.{◌≡◌, ◌<◌, ◌↔◌, ◌++◌, [], length, All, Contains, IsTrue, IfOk, List, MatchBool, vec_len};
ghost use Rattle.cnf.specs.declared.Lit.{Lit};
ghost use Rattle.cnf.specs.Cnf.{IsBelow, lists_of};
ghost use Rattle.cnf.specs.Forced.{Conflicts};
ghost use Rattle.cnf.specs.Literals.{holds_of};
ghost use Rattle.cnf.specs.Models.{HasNoModel};
ghost use Rattle.cnf.specs.Passes.{IsPass};
ghost use Rattle.cnf.specs.Rup.{IsRefutation, IsRup};
ghost use Rattle.refutation.specs.declared.Checked.{Checked};
ghost use Rattle.refutation.specs.declared.Checked.TheVariants.{Yes};
ghost use Rattle.refutation.specs.Checks.{IsBlank, IsChecked, IsTautology, Negates};

use cnf::{Clause, Formula, Lit, Pass, pass_once, unassigned};
use std::alloc::{AllocError, Global};

/// What a check found: the log refutes the formula, or `step` is the first clause of the log that
/// does not follow, or the length of a log whose clauses all follow and of which none is empty.
#[derive(Clone, Copy)]
pub enum Checked {
    Yes,
    No { step: usize },
}

/// A formula and a log, with room for the check.
#[derive(Drop)]
pub struct Prepared<'a> {
    formula: &'a Formula,
    log: &'a [Clause],
    assigned: Vec<Option<bool>>,
    ghost room: { vec_len assigned ≡ formula.now.vars },
    ghost formula_below: { IsBelow formula.now.vars formula.now.clauses },
    ghost log_below: { IsBelow formula.now.vars (lists_of log.now) },
}

impl<'a> Prepared<'a> {
    /// Takes the memory of the check.
    pub fn new(
        alloc: Global,
        formula: &'a Formula,
        log: &'a [Clause],
    ) -> Result<Prepared<'a>, AllocError>
        requires formula { IsBelow formula.now.vars formula.now.clauses }
        requires log { IsBelow formula.now.vars (lists_of log.now) }
        ensures { IfOk result (λ p. (p.formula.now ≡ formula.now) × (p.log.now ≡ log.now)) }
    {
        Ok(Prepared {
            formula,
            log,
            assigned: unassigned(alloc, formula.vars as usize)?,
        })
    }

    /// Whether each clause of the log follows by the unit rule from the formula and the clauses
    /// before it, and one of them is empty. It takes no memory.
    pub fn check(&mut self) -> Checked
        ensures yes { result ≡ Yes → HasNoModel self.old.formula.now.clauses }
        ensures answer { IsChecked self.old.formula.now.clauses (lists_of self.old.log.now) result }
        ensures formula { self.new.formula.now ≡ self.old.formula.now }
        ensures log { self.new.log.now ≡ self.old.log.now }
    {
        check_log(self.formula, self.log, self.assigned.as_mut_slice())
    }
}

/// A check answers yes to each refutation.
pub fn refutations_are_accepted()
    ensures { (F log : List (List Lit)) (answer : Checked) → IsChecked F log answer → IsRefutation F log → answer ≡ Yes }
{}

/// Whether each clause of the log follows by the unit rule from the formula and the clauses
/// before it, and one of them is empty. `assigned` is room for the work.
fn check_log(formula: &Formula, log: &[Clause], assigned: &mut [Option<bool>]) -> Checked
    requires room { length assigned.old ≡ formula.now.vars }
    requires formula { IsBelow formula.now.vars formula.now.clauses }
    requires log { IsBelow formula.now.vars (lists_of log.now) }
    ensures { IsChecked formula.now.clauses (lists_of log.now) result }
{
    check_steps(&formula.clauses, log, assigned)
}

/// The same over the clauses of the formula.
fn check_steps(clauses: &[Clause], log: &[Clause], assigned: &mut [Option<bool>]) -> Checked
    requires clauses { IsBelow (length assigned.old) (lists_of clauses.now) }
    requires log { IsBelow (length assigned.old) (lists_of log.now) }
    ensures { IsChecked (lists_of clauses.now) (lists_of log.now) result }
{
    for (step, clause) in log.iter().enumerate() {
        if !is_rup(clauses, &log[..step], clause, assigned) {
            return Checked::No { step };
        }
    }
    if has_empty(log) {
        Checked::Yes
    } else {
        Checked::No { step: log.len() }
    }
}

/// Whether a clause of the list is empty.
fn has_empty(clauses: &[Clause]) -> bool
    ensures { IsTrue result ↔ Contains (lists_of clauses.now) [] }
{
    for clause in clauses {
        if clause.is_empty() {
            return true;
        }
    }
    false
}

/// Whether the negated literals of the clause conflict.
fn is_rup(
    clauses: &[Clause],
    earlier: &[Clause],
    clause: &[Lit],
    assigned: &mut [Option<bool>],
) -> bool
    requires clauses { IsBelow (length assigned.old) (lists_of clauses.now) }
    requires earlier { IsBelow (length assigned.old) (lists_of earlier.now) }
    requires clause { All (λ l. l.var < length assigned.old) clause.now }
    ensures { IsTrue result ↔ IsRup (lists_of clauses.now ++ lists_of earlier.now) clause.now }
{
    clear(assigned);
    if negate(clause, assigned) {
        return true;
    }
    propagate(clauses, earlier, assigned)
}

/// Takes all values away.
fn clear(assigned: &mut [Option<bool>])
    ensures { IsBlank assigned.new }
{
    for value in assigned.iter_mut() {
        *value = None;
    }
}

/// Assigns the negated literals. True says that one of them is the negation of another.
fn negate(clause: &[Lit], assigned: &mut [Option<bool>]) -> bool
    requires blank { IsBlank assigned.old }
    requires clause { All (λ l. l.var < length assigned.old) clause.now }
    ensures { MatchBool result (IsTautology clause.now) (Negates assigned.new clause.now) }
{
    for lit in clause {
        match assigned[lit.var as usize] {
            Some(value) if value == lit.positive => return true,
            Some(_) => {}
            None => assigned[lit.var as usize] = Some(!lit.positive),
        }
    }
    false
}

/// One pass over both lists, as `pass_once` makes it over one.
fn pass_both(clauses: &[Clause], earlier: &[Clause], assigned: &mut [Option<bool>]) -> Pass
    requires clauses { IsBelow (length assigned.old) (lists_of clauses.now) }
    requires earlier { IsBelow (length assigned.old) (lists_of earlier.now) }
    ensures { IsPass (lists_of clauses.now ++ lists_of earlier.now) assigned.old assigned.new result }
{
    match pass_once(clauses, assigned) {
        Pass::Conflict => Pass::Conflict,
        Pass::Quiet => pass_once(earlier, assigned),
        Pass::Changed => match pass_once(earlier, assigned) {
            Pass::Conflict => Pass::Conflict,
            Pass::Changed | Pass::Quiet => Pass::Changed,
        },
    }
}

/// Assigns all that is forced. True is a conflict.
fn propagate(clauses: &[Clause], earlier: &[Clause], assigned: &mut [Option<bool>]) -> bool
    requires clauses { IsBelow (length assigned.old) (lists_of clauses.now) }
    requires earlier { IsBelow (length assigned.old) (lists_of earlier.now) }
    ensures { IsTrue result ↔ Conflicts (lists_of clauses.now ++ lists_of earlier.now) (holds_of assigned.old) }
{
    loop {
        match pass_both(clauses, earlier, assigned) {
            Pass::Conflict => return true,
            Pass::Changed => {}
            Pass::Quiet => return false,
        }
    }
}
