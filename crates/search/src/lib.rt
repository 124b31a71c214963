//! The search for a model by decisions in a given order and the unit rule.
#![tactic(auto)]

ghost use Rattle.std.specs.Prelude.{◌≡◌, ◌≢◌, ℕ, ◌^◌, List, ◌<◌, ◌≤◌, ◌↔◌, ◌++◌, ◌∷◌, [], true, false, length, map, All, IsTrue, IfOk, OnOk, Some, None, replicate, slice_set, slice_index_or};
ghost use Rattle.std.specs.Bool.{OnFalse};
ghost use Rattle.cnf.specs.Cnf.{Cnf, IsBelow, lists_of};
ghost use Rattle.cnf.specs.Forced.{Conflicts, IsLeastClosed};
ghost use Rattle.cnf.specs.Literals.{holds_of, is_value};
ghost use Rattle.cnf.specs.Models.{HasNoModel};
ghost use Rattle.cnf.specs.Rup.{IsRefutation};
ghost use Rattle.search.specs.Models.{IfModel, IfRefuted, Determines, EndsEmpty, IsLeastModel};
ghost use Rattle.search.specs.Tree.{conflicting, tree, negation_of};
ghost use Rattle.search.specs.Verdict.{is_spent, verdict, verdict_of};
ghost use Rattle.search.specs.Walks.{ClosesTo, IsClosure, IsReached, IsWalkOf, LogsWhere};

use cnf::{Clause, Formula, Lit, Pass, pass_once, unassigned};
use std::alloc::{AllocError, Global};

/// What a search found.
#[derive(Drop)]
pub enum Answer {
    /// The first model in the order: a value for each variable.
    Model(Vec<bool>),
    /// There is no model. Each clause follows from the formula and the clauses before it by the
    /// unit rule alone, and the last is empty.
    Refuted(Vec<Clause>),
    /// The budget of conflicts was spent first.
    Spent,
}

/// Decides the variables in the order, false before true, after the unit rule each time, until
/// the first model or the conflict with the number `budget`.
pub fn search(
    alloc: Global,
    formula: &Formula,
    order: &[u64],
    budget: u64,
) -> Result<Answer, AllocError>
    requires budget { 1 ≤ budget }
    requires variables { IsBelow formula.now.vars formula.now.clauses }
    requires order { All (λ v. v < formula.now.vars) order.now }
    ensures verdict { IfOk result (λ answer. verdict_of answer ≡ verdict formula.now order.now budget) }
    ensures refuted { IfOk result (λ answer. IfRefuted answer (λ _. HasNoModel formula.now.clauses)) }
    ensures log { IfOk result (λ answer. IfRefuted answer (IsRefutation formula.now.clauses)) }
    ensures empty { IfOk result (λ answer. IfRefuted answer EndsEmpty) }
    ensures model { IfOk result
        (λ answer. IfModel answer (λ values. Determines formula.now order.now → IsLeastModel formula.now order.now values)) }
{
    let assigned = unassigned(alloc, formula.vars as usize)?;
    let decisions = Vec::new(alloc);
    let mut log = Vec::new(alloc);
    match descend(
        alloc,
        &formula.clauses,
        order,
        &assigned,
        &decisions,
        &mut log,
        budget,
    )? {
        Walked::Found(values) => Ok(Answer::Model(values)),
        Walked::Spent => Ok(Answer::Spent),
        Walked::Left(_) => Ok(Answer::Refuted(log)),
    }
}

/// Assigns all that is forced. True is a conflict.
fn propagate(clauses: &[Clause], assigned: &mut [Option<bool>]) -> bool
    requires { IsBelow (length assigned.old) (lists_of clauses.now) }
    ensures conflict { IsTrue result ↔ Conflicts (lists_of clauses.now) (holds_of assigned.old) }
    ensures closed { OnFalse result (IsLeastClosed (lists_of clauses.now) (holds_of assigned.old) (holds_of assigned.new)) }
{
    loop {
        match pass_once(clauses, assigned) {
            Pass::Conflict => return true,
            Pass::Changed => {}
            Pass::Quiet => return false,
        }
    }
}

/// How far a walk over a tree came.
#[derive(Drop)]
enum Walked {
    Found(Vec<bool>),
    Spent,
    /// Past its leaves, with this much of the budget.
    Left(u64),
}

/// The assignment with one literal more.
fn assume(
    alloc: Global,
    assigned: &[Option<bool>],
    lit: Lit,
) -> Result<Vec<Option<bool>>, AllocError>
    requires { lit.var < length assigned.now }
    ensures { IfOk result (λ v. v.items ≡ slice_set assigned.now lit.var (Some lit.positive)) }
{
    let mut next = Vec::from_slice(alloc, assigned)?;
    next[lit.var as usize] = Some(lit.positive);
    Ok(next)
}

/// The decisions with one more.
fn decide(alloc: Global, decisions: &[Lit], lit: Lit) -> Result<Vec<Lit>, AllocError>
    ensures { IfOk result (λ v. v.items ≡ decisions.now ++ lit ∷ []) }
{
    let mut next = Vec::from_slice(alloc, decisions)?;
    next.push(lit)?;
    Ok(next)
}

/// The clause of the negated literals.
fn negation(alloc: Global, decisions: &[Lit]) -> Result<Clause, AllocError>
    ensures { IfOk result (λ v. v.items ≡ negation_of decisions.now) }
{
    decisions
        .iter()
        .map(|lit| Lit {
            var: lit.var,
            positive: !lit.positive,
        })
        .collect(alloc)
}

/// The variables that are true.
fn values(alloc: Global, assigned: &[Option<bool>]) -> Result<Vec<bool>, AllocError>
    ensures { IfOk result (λ v. v.items ≡ map (λ o. is_value o true) assigned.now) }
{
    let mut values = Vec::new(alloc);
    for value in assigned {
        values.push(matches!(value, Some(true)))?;
    }
    Ok(values)
}

/// The assignment with all that it forces, or nothing where that conflicts.
fn closure(
    alloc: Global,
    clauses: &[Clause],
    assigned: &[Option<bool>],
) -> Result<Option<Vec<Option<bool>>>, AllocError>
    requires { IsBelow (length assigned.now) (lists_of clauses.now) }
    ensures { IfOk result (IsClosure (lists_of clauses.now) assigned.now) }
{
    let mut closed = Vec::from_slice(alloc, assigned)?;
    let conflict = propagate(clauses, closed.as_mut_slice());
    Ok(if conflict { None } else { Some(closed) })
}

/// A conflicting leaf: its clause is logged, and one of the budget is gone.
fn leaf(
    alloc: Global,
    decisions: &[Lit],
    log: &mut Vec<Clause>,
    budget: u64,
) -> Result<Walked, AllocError>
    requires { 1 ≤ budget }
    ensures { IfOk result (IsWalkOf (conflicting decisions.now) budget (lists_of log.old.items) (lists_of log.new.items)) }
{
    log.push(negation(alloc, decisions)?)?;
    Ok(if budget == 1 {
        Walked::Spent
    } else {
        Walked::Left(budget - 1)
    })
}

/// Logs the clause of a node whose two sides were walked.
fn close_node(
    alloc: Global,
    decisions: &[Lit],
    log: &mut Vec<Clause>,
    walked: Walked,
) -> Result<Walked, AllocError>
    ensures same { IfOk result (λ w. w ≡ walked) }
    ensures logged { OnOk result (LogsWhere walked (lists_of log.new.items ≡ lists_of log.old.items ++ negation_of decisions.now ∷ [])) }
{
    if let Walked::Left(_) = &walked {
        log.push(negation(alloc, decisions)?)?;
    }
    Ok(walked)
}

/// Walks the leaves under the decisions, false before true.
#[cycle(walk)]
fn descend(
    alloc: Global,
    clauses: &[Clause],
    order: &[u64],
    assigned: &[Option<bool>],
    decisions: &[Lit],
    log: &mut Vec<Clause>,
    budget: u64,
) -> Result<Walked, AllocError>
    requires budget { 1 ≤ budget }
    requires variables { IsBelow (length assigned.now) (lists_of clauses.now) }
    requires order { All (λ v. v < length assigned.now) order.now }
    requires reached { IsReached (lists_of clauses.now) decisions.now assigned.now }
    ensures { IfOk result (IsWalkOf (tree (lists_of clauses.now) (length assigned.now) order.now decisions.now) budget (lists_of log.old.items) (lists_of log.new.items)) }
{
    let Some(closed) = closure(alloc, clauses, assigned)? else {
        return leaf(alloc, decisions, log, budget);
    };
    branch(alloc, clauses, order, &closed, decisions, log, budget)
}

/// Walks the leaves under the decisions, whose forced literals the assignment has all.
#[cycle(walk)]
fn branch(
    alloc: Global,
    clauses: &[Clause],
    order: &[u64],
    closed: &[Option<bool>],
    decisions: &[Lit],
    log: &mut Vec<Clause>,
    budget: u64,
) -> Result<Walked, AllocError>
    requires budget { 1 ≤ budget }
    requires variables { IsBelow (length closed.now) (lists_of clauses.now) }
    requires order { All (λ v. v < length closed.now) order.now }
    requires reached { IsReached (lists_of clauses.now) decisions.now closed.now }
    requires closed { ClosesTo (lists_of clauses.now) closed.now closed.now }
    ensures { IfOk result (IsWalkOf (tree (lists_of clauses.now) (length closed.now) order.now decisions.now) budget (lists_of log.old.items) (lists_of log.new.items)) }
{
    let [variable, rest @ ..] = order else {
        return Ok(Walked::Found(values(alloc, closed)?));
    };
    if closed[*variable as usize].is_some() {
        return branch(alloc, clauses, rest, closed, decisions, log, budget);
    }
    let low = Lit {
        var: *variable,
        positive: false,
    };
    let high = Lit {
        var: *variable,
        positive: true,
    };
    match side(alloc, clauses, rest, closed, decisions, low, log, budget)? {
        Walked::Left(budget) => {
            let upper = side(alloc, clauses, rest, closed, decisions, high, log, budget)?;
            close_node(alloc, decisions, log, upper)
        }
        other => Ok(other),
    }
}

/// Walks the leaves under one decision more.
#[cycle(walk)]
fn side(
    alloc: Global,
    clauses: &[Clause],
    order: &[u64],
    closed: &[Option<bool>],
    decisions: &[Lit],
    lit: Lit,
    log: &mut Vec<Clause>,
    budget: u64,
) -> Result<Walked, AllocError>
    requires budget { 1 ≤ budget }
    requires variables { IsBelow (length closed.now) (lists_of clauses.now) }
    requires order { All (λ v. v < length closed.now) order.now }
    requires variable { lit.var < length closed.now }
    requires unassigned { slice_index_or closed.now lit.var None ≡ None }
    requires reached { IsReached (lists_of clauses.now) decisions.now closed.now }
    ensures { IfOk result (IsWalkOf (tree (lists_of clauses.now) (length closed.now) order.now (decisions.now ++ lit ∷ [])) budget (lists_of log.old.items) (lists_of log.new.items)) }
{
    let next = assume(alloc, closed, lit)?;
    let decided = decide(alloc, decisions, lit)?;
    descend(alloc, clauses, order, &next, &decided, log, budget)
}

/// A search is spent only where its budget is at most as large as the number of full assignments
/// of the order. So over two bytes of input no budget above 65,536 is spent.
pub fn spent_needs_as_many_conflicts()
    ensures two_bytes { (f : Cnf) (order : List ℕ) (budget : ℕ) → length order ≤ 16 → 65537 ≤ budget → verdict f order budget ≢ is_spent }
    ensures bound { (f : Cnf) (order : List ℕ) (budget : ℕ) → verdict f order budget ≡ is_spent → budget ≤ 2 ^ length order }
{}
