//! Clauses over numbered variables, and the unit rule: a clause of which no literal is true and
//! one alone is unassigned forces that literal.
#![tactic(auto)]

ghost use Rattle.std.specs.Prelude.{◌≡◌, ◌<◌, ◌↔◌, true, None, length, List, All, IfOk, IsTrue, replicate};
ghost use Rattle.cnf.specs.declared.Lit.{Lit};
ghost use Rattle.cnf.specs.Cnf.{IsBelow, lists_of};
ghost use Rattle.cnf.specs.Forced.{Forced, Conflicts};
ghost use Rattle.cnf.specs.Literals.{Literals, among, holds_of};
ghost use Rattle.cnf.specs.Models.{HasNoModel};
ghost use Rattle.cnf.specs.Passes.{IsPass};
ghost use Rattle.cnf.specs.Rup.{IsRefutation};
ghost use Rattle.cnf.specs.Rounds.{forced, conflicts};
ghost use Rattle.cnf.specs.UnitRule.{IsUnitState, Joins};

use std::alloc::{AllocError, Global};
use std::marker::Model;

/// A variable, by its number, or its negation.
#[derive(Clone, Copy, PartialEq, Eq)]
pub struct Lit {
    pub var: u64,
    pub positive: bool,
}

/// Literals of which one is to be true. The clause without literals is false.
pub type Clause = Vec<Lit>;

/// Clauses, each of which is to be true, over the variables below `vars`.
#[derive(Drop)]
pub struct Formula {
    pub vars: u64,
    pub clauses: Vec<Clause>,
}

impl Model for Formula {
    ghost use Rattle.cnf.specs.Cnf.{Cnf, lists_of};

    ghost Value = { Cnf };

    ghost view = { λ f. record { vars = f.vars; clauses = lists_of f.clauses.items } };
}

/// Whether each variable of the clause is below `vars`.
fn is_below(clause: &[Lit], vars: u64) -> bool
    ensures { IsTrue result ↔ All (λ l. l.var < vars) clause.now }
{
    clause.iter().all(|lit| lit.var < vars)
}

/// Whether each variable of the clauses is below `vars`.
pub fn are_below(clauses: &[Clause], vars: u64) -> bool
    ensures { IsTrue result ↔ IsBelow vars (lists_of clauses.now) }
{
    for clause in clauses {
        if !is_below(clause, vars) {
            return false;
        }
    }
    true
}

/// What a clause is under a partial assignment.
#[derive(Clone, Copy)]
pub enum UnitState {
    /// A literal is true.
    Satisfied,
    /// Each literal is false.
    Conflict,
    /// No literal is true, and this one alone is unassigned.
    Forced(Lit),
    /// No literal is true, and two or more are unassigned.
    Free,
}

/// What the clause is under the assignment. It takes no memory.
pub fn unit(clause: &[Lit], assigned: &[Option<bool>]) -> UnitState
    requires { All (λ l. l.var < length assigned.now) clause.now }
    ensures { IsUnitState (holds_of assigned.now) clause.now result }
{
    let mut state = UnitState::Conflict;
    for lit in clause {
        match assigned[lit.var as usize] {
            Some(value) if value == lit.positive => return UnitState::Satisfied,
            Some(_) => {}
            None => state = joined(state, *lit),
        }
    }
    state
}

/// What a clause is that was in this state and gets an unassigned literal.
fn joined(state: UnitState, lit: Lit) -> UnitState
    ensures { (S : Literals) (c : List Lit) → Joins S c state lit result }
{
    match state {
        UnitState::Conflict => UnitState::Forced(lit),
        UnitState::Forced(first) if first == lit => state,
        UnitState::Satisfied => state,
        UnitState::Forced(_) | UnitState::Free => UnitState::Free,
    }
}

/// The assignment of that many variables in which none has a value.
pub fn unassigned(alloc: Global, vars: usize) -> Result<Vec<Option<bool>>, AllocError>
    ensures { IfOk result (λ v. v.items ≡ replicate vars None) }
{
    let mut assigned = Vec::new(alloc);
    for _ in 0..vars {
        assigned.push(None)?;
    }
    Ok(assigned)
}

/// What one pass over all clauses did.
#[derive(Clone, Copy)]
pub enum Pass {
    /// A clause is false under what the assignment forces.
    Conflict,
    /// A variable got a value.
    Changed,
    /// No clause is false or forces a literal: the assignment is as it was.
    Quiet,
}

/// Goes over the clauses once, and assigns each literal that one forces.
pub fn pass_once(clauses: &[Clause], assigned: &mut [Option<bool>]) -> Pass
    requires { IsBelow (length assigned.old) (lists_of clauses.now) }
    ensures { IsPass (lists_of clauses.now) assigned.old assigned.new result }
{
    let mut changed = false;
    for clause in clauses {
        match unit(clause, assigned) {
            UnitState::Conflict => return Pass::Conflict,
            UnitState::Forced(lit) => {
                assigned[lit.var as usize] = Some(lit.positive);
                changed = true;
            }
            UnitState::Satisfied | UnitState::Free => {}
        }
    }
    if changed { Pass::Changed } else { Pass::Quiet }
}

/// The computed set is the least closed set that has the given literals, and its test for a
/// conflict is right.
pub fn computed_set_is_least()
    ensures least { (F : List (List Lit)) (A : Literals) (l : Lit) → (forced F A l ≡ true) ↔ Forced F A l }
    ensures conflict { (F : List (List Lit)) (D : List Lit) → (conflicts F D ≡ true) ↔ Conflicts F (among D) }
{}

/// A list of clauses that each follow by the unit rule, the empty one among them, leaves no
/// model.
pub fn refutation_refutes()
    ensures { (F log : List (List Lit)) → IsRefutation F log → HasNoModel F }
{}
