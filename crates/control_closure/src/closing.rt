//! Closing by rounds.
ghost use Rattle.std.specs.Prelude.{◌≡◌, ◌<◌, ◌^◌, ◌↔◌, ◌⊎◌, ℕ, Bool, true, List, length, IfOk};
ghost use Rattle.std.specs.List.{Contains};
ghost use Rattle.least.specs.Sets.{has, Within};
ghost use Rattle.control_closure.specs.Met.{IsGraph, Meets, Parts, IsClosed, IsRound, Closes};
ghost use Rattle.control_closure.specs.Sums.{SumUp, PartsAt, PartsIn};
ghost use Rattle.control_closure.specs.Tells.{Tells};

use crate::Graph;
use crate::summing::{Met, all_met, apart};
use least::count;
use std::alloc::{AllocError, Global};

/// Whether two nodes differ and different retained nodes are met first from them.
fn part_at(mets: &[Met], one: u32, other: u32) -> bool
    requires one { one < length mets.now }
    requires other { other < length mets.now }
    ensures { (g : List (List ℕ)) (kept : ℕ → Bool) → SumUp g kept mets.now → Tells result (PartsAt g kept one other) }
{
    if one == other {
        return false;
    }
    apart(mets[one as usize], mets[other as usize])
}

/// Whether different retained nodes are met first from `one` and from a node of the row.
fn part_in(mets: &[Met], one: u32, row: &[u32]) -> bool
    requires one { one < length mets.now }
    requires row { (k : ℕ) → Contains row.now k → k < length mets.now }
    ensures { (g : List (List ℕ)) (kept : ℕ → Bool) → SumUp g kept mets.now → Tells result (PartsIn g kept row.now one) }
{
    for other in row {
        if part_at(mets, one, *other) {
            return true;
        }
    }
    false
}

/// Whether the ways from a node part.
fn parts(graph: &Graph, mets: &[Met], node: usize) -> bool
    requires graph { IsGraph graph.now.succ }
    requires size { length mets.now ≡ length graph.now.succ }
    requires node { node < length graph.now.succ }
    ensures { (kept : ℕ → Bool) → SumUp graph.now.succ kept mets.now → Tells result (Parts graph.now.succ kept node) }
{
    let row = graph.successors(node);
    for one in row {
        if part_in(mets, *one, row) {
            return true;
        }
    }
    false
}

/// Whether a node is in the set after a closing round.
fn is_added(graph: &Graph, retained: &[bool], mets: &[Met], node: usize) -> bool
    requires graph { IsGraph graph.now.succ }
    requires size { length retained.now ≡ length graph.now.succ }
    requires mets { length mets.now ≡ length graph.now.succ }
    requires sums { SumUp graph.now.succ (has retained.now) mets.now }
    requires node { node < length graph.now.succ }
    ensures { (result ≡ true) ↔ ((has retained.now node ≡ true) ⊎ Parts graph.now.succ (has retained.now) node) }
{
    if retained[node] {
        return true;
    }
    parts(graph, mets, node)
}

/// One closing round: the set with the nodes that part their ways. What each node meets first is found once for the whole round.
/// It fails for want of memory alone.
pub fn closing_round(
    alloc: Global,
    graph: &Graph,
    retained: &[bool],
) -> Result<Vec<bool>, AllocError>
    requires graph { IsGraph graph.now.succ }
    requires size { length retained.now ≡ length graph.now.succ }
    requires small { length graph.now.succ < 2 ^ 32 }
    ensures { IfOk result (λ next. IsRound graph.now.succ retained.now next.items) }
{
    let mets = all_met(alloc, graph, retained)?;
    let mut next = Vec::new(alloc);
    for node in 0..retained.len() {
        next.push(is_added(graph, retained, mets.as_slice(), node))?;
    }
    Ok(next)
}

/// Closing rounds until nothing is added. A round costs, for each retained node, walks back over the edges.
/// It fails for want of memory alone.
pub fn close(alloc: Global, graph: &Graph, retained: &[bool]) -> Result<Vec<bool>, AllocError>
    requires graph { IsGraph graph.now.succ }
    requires size { length retained.now ≡ length graph.now.succ }
    requires small { length graph.now.succ < 2 ^ 32 }
    ensures { IfOk result (λ set. Closes graph.now.succ retained.now set.items) }
{
    let mut set = Vec::from_slice(alloc, retained)?;
    loop {
        let next = closing_round(alloc, graph, set.as_slice())?;
        if count(next.as_slice()) == count(set.as_slice()) {
            return Ok(set);
        }
        set = next;
    }
}

/// From each node at most one node of a closed set is met first.
pub fn closed_sets_meet_one()
    ensures { (g : List (List ℕ)) (kept : ℕ → Bool) → IsClosed g kept → (n a b : ℕ) → Meets g kept n a → Meets g kept n b → a ≡ b }
{}

/// What closing gives is closed, and has what it began with.
pub fn closing_closes()
    ensures { (g : List (List ℕ)) (old new : List Bool) → Closes g old new → IsClosed g (has new) × Within (has old) (has new) }
{}
