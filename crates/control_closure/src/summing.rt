//! What each node meets first, as far as it tells whether ways part.
ghost use Rattle.std.specs.Prelude.{◌≡◌, ◌<◌, ◌+◌, ◌^◌, ℕ, true, false, length, IfOk};
ghost use Rattle.std.specs.List.{Contains};
ghost use Rattle.least.specs.Sets.{has};
ghost use Rattle.control_closure.specs.Met.{IsGraph};
ghost use Rattle.control_closure.specs.Tells.{Tells};
ghost use Rattle.control_closure.specs.Sums.{Holds, LeadsInto, SumUp, SumUpBelow, at_node};
ghost use Rattle.control_closure.specs.Sums as sums;

use crate::Graph;
use least::{Rules, add, least_set};
use std::alloc::{AllocError, Global};

/// Of the retained nodes that a node meets first: that there is none, the only one, or that there are several.
#[derive(Clone, Copy)]
pub enum Met {
    Nothing,
    One(u32),
    Several,
}

/// Whether one of the numbers is in the set.
fn leads_into(set: &[bool], numbers: &[u32]) -> bool
    requires { (k : ℕ) → Contains numbers.now k → k < length set.now }
    ensures { Tells result (LeadsInto numbers.now (has set.now)) }
{
    for number in numbers {
        if set[*number as usize] {
            return true;
        }
    }
    false
}

/// The nodes that meet the target first.
#[derive(Drop)]
struct Meeters<'a> {
    graph: &'a Graph,
    retained: &'a [bool],
    target: usize,
    ghost nodes: { IsGraph graph.now.succ },
    ghost size: { length retained.now ≡ length graph.now.succ },
    ghost kept: { has retained.now target ≡ true },
}

impl<'a> Meeters<'a> {
    /// Whether a node is the target, or leads to one of the set and isn't retained.
    fn holds(&self, node: usize, set: &[bool]) -> bool
        requires node { node < length self.now.graph.now.succ }
        requires size { length set.now ≡ length self.now.graph.now.succ }
        ensures { Tells result (Holds self.now.graph.now.succ (has self.now.retained.now) self.now.target (has set.now) node) }
    {
        if node == self.target {
            return true;
        }
        if self.retained[node] {
            return false;
        }
        leads_into(set, self.graph.successors(node))
    }
}

impl<'a> Rules for Meeters<'a> {
    ghost use Rattle.std.specs.Prelude.{◌≡◌, ◌-◌, length, true};
    ghost use Rattle.least.specs.Sets.{has};
    ghost use Rattle.control_closure.specs.Met.{Meets};
    ghost use Rattle.control_closure.specs.Sums.{Fires};
    ghost use Rattle.control_closure.specs.SumLaws.{Fires-more, Meets-least};

    ghost size_of = { λ w. length w.graph.now.succ };

    ghost rules_of = { λ w. length w.graph.now.succ };

    ghost Fits = { λ w. Unit {0} };

    ghost Given = { λ w n. Meets w.graph.now.succ (has w.retained.now) n w.target };

    ghost Fires = { λ w i S T. Fires w.graph.now.succ (has w.retained.now) w.target i S T };

    fn size(&self) -> usize {
        self.graph.len()
    }

    fn rules(&self) -> usize {
        self.graph.len()
    }

    // The last node first, as most edges lead on.
    fn apply(&self, rule: usize, set: &mut [bool]) {
        let node = self.graph.len() - 1 - rule;
        if self.holds(node, set) {
            add(set, node);
        }
    }

    ghost more = { λ w i S T U V. Fires-more w.graph.now.succ (has w.retained.now) w.target i S T U V };

    ghost least = { λ w fits S fires n. Meets-least w.graph.now.succ w.retained.now w.target S w.size w.kept fires n };
}

/// The summary with a target that it doesn't count yet.
fn with_target(met: Met, target: u32) -> Met
    ensures { result ≡ sums.with_target met target }
{
    match met {
        Met::Nothing => Met::One(target),
        _ => Met::Several,
    }
}

/// Counts a target in the summaries of the nodes of a set.
fn count_in(mets: &mut [Met], meeters: &[bool], target: u32)
    requires size { length mets.old ≡ length meeters.now }
    ensures size { length mets.new ≡ length mets.old }
    ensures others { (n : ℕ) → has meeters.now n ≡ false → at_node mets.new n ≡ at_node mets.old n }
    ensures counted { (n : ℕ) → has meeters.now n ≡ true → at_node mets.new n ≡ sums.with_target (at_node mets.old n) target }
{
    for node in 0..meeters.len() {
        if meeters[node] {
            mets[node] = with_target(mets[node], target);
        }
    }
}

/// Counts a target in the summaries, if it is retained.
fn count_target(
    alloc: Global,
    graph: &Graph,
    retained: &[bool],
    target: usize,
    mets: &mut [Met],
) -> Result<(), AllocError>
    requires graph { IsGraph graph.now.succ }
    requires size { length retained.now ≡ length graph.now.succ }
    requires small { length graph.now.succ < 2 ^ 32 }
    requires target { target < length graph.now.succ }
    requires mets { length mets.old ≡ length graph.now.succ }
    requires below { SumUpBelow graph.now.succ (has retained.now) target mets.old }
    ensures mets { IfOk result (λ _. length mets.new ≡ length mets.old) }
    ensures below { IfOk result (λ _. SumUpBelow graph.now.succ (has retained.now) (target + 1) mets.new) }
{
    if retained[target] {
        let meeters = Meeters {
            graph,
            retained,
            target,
        };
        let set = least_set(alloc, &meeters)?;
        count_in(mets, set.as_slice(), target as u32);
    }
    Ok(())
}

/// Counts each retained node in the summaries.
fn count_all(
    alloc: Global,
    graph: &Graph,
    retained: &[bool],
    mets: &mut [Met],
) -> Result<(), AllocError>
    requires graph { IsGraph graph.now.succ }
    requires size { length retained.now ≡ length graph.now.succ }
    requires small { length graph.now.succ < 2 ^ 32 }
    requires mets { length mets.old ≡ length graph.now.succ }
    requires below { SumUpBelow graph.now.succ (has retained.now) 0 mets.old }
    ensures mets { IfOk result (λ _. length mets.new ≡ length mets.old) }
    ensures below { IfOk result (λ _. SumUpBelow graph.now.succ (has retained.now) (length graph.now.succ) mets.new) }
{
    for target in 0..retained.len() {
        count_target(alloc, graph, retained, target, mets)?;
    }
    Ok(())
}

/// The summary of each node. It costs, for each retained node, walks back over the edges. It fails for want of memory alone.
pub fn all_met(alloc: Global, graph: &Graph, retained: &[bool]) -> Result<Vec<Met>, AllocError>
    requires graph { IsGraph graph.now.succ }
    requires size { length retained.now ≡ length graph.now.succ }
    requires small { length graph.now.succ < 2 ^ 32 }
    ensures size { IfOk result (λ mets. length mets.items ≡ length graph.now.succ) }
    ensures sums { IfOk result (λ mets. SumUp graph.now.succ (has retained.now) mets.items) }
{
    let mut mets = vec![in alloc; Met::Nothing; retained.len()]?;
    count_all(alloc, graph, retained, &mut mets)?;
    Ok(mets)
}

/// Whether of two nodes with these summaries one meets a node first that isn't the one that the other meets first.
pub fn apart(one: Met, other: Met) -> bool
    ensures { result ≡ sums.apart one other }
{
    match (one, other) {
        (Met::Nothing, _) | (_, Met::Nothing) => false,
        (Met::One(a), Met::One(b)) => a != b,
        _ => true,
    }
}
