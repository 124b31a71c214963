//! The retained nodes that are met first.
ghost use Rattle.std.specs.Prelude.{◌≡◌, ◌<◌, ◌^◌, ◌&&◌, true, length, IfOk};
ghost use Rattle.least.specs.Sets.{has, Only, Within};
ghost use Rattle.control_closure.specs.Met.{IsGraph, Meets, Lists};
ghost use Rattle.control_closure.specs.Walks.{Passes, FiresAt, ListsBelow};

use crate::Graph;
use least::{Rules, add, add_all, least_set};
use std::alloc::{AllocError, Global};

/// The nodes that walks from `start` pass, up to the first retained one.
#[derive(Drop)]
struct Walks<'a> {
    graph: &'a Graph,
    retained: &'a [bool],
    start: usize,
    ghost nodes: { IsGraph graph.now.succ },
    ghost size: { length retained.now ≡ length graph.now.succ },
    ghost starts: { start < length graph.now.succ },
}

impl<'a> Walks<'a> {
    /// The walks pass their start.
    fn begin(&self, rule: usize, set: &mut [bool])
        requires rule { rule < length self.now.graph.now.succ }
        requires size { length set.old ≡ length self.now.graph.now.succ }
        requires only { Only (Passes self.now.graph.now.succ (has self.now.retained.now) self.now.start) (has set.old) }
        ensures only { Only (Passes self.now.graph.now.succ (has self.now.retained.now) self.now.start) (has set.new) }
        ensures grows { Within (has set.old) (has set.new) }
        ensures starts { rule ≡ self.now.start → has set.new rule ≡ true }
    {
        if rule == self.start {
            add(set, rule);
        }
    }
}

impl<'a> Rules for Walks<'a> {
    ghost use Rattle.std.specs.Prelude.{◌≡◌, length};
    ghost use Rattle.least.specs.Sets.{has};
    ghost use Rattle.control_closure.specs.Walks.{Passes, FiresAt};
    ghost use Rattle.control_closure.specs.WalkLaws.{Fires-more, Passes-least};

    ghost size_of = { λ w. length w.graph.now.succ };

    ghost rules_of = { λ w. length w.graph.now.succ };

    ghost Fits = { λ w. Unit {0} };

    ghost Given = { λ w n. Passes w.graph.now.succ (has w.retained.now) w.start n };

    ghost Fires = { λ w n S T. FiresAt w.graph.now.succ (has w.retained.now) w.start n S T };

    fn size(&self) -> usize {
        self.graph.len()
    }

    fn rules(&self) -> usize {
        self.graph.len()
    }

    fn apply(&self, rule: usize, set: &mut [bool]) {
        self.begin(rule, set);
        if set[rule] && !self.retained[rule] {
            add_all(set, self.graph.successors(rule));
        }
    }

    ghost more = { λ w n S T U V. Fires-more w.graph.now.succ (has w.retained.now) w.start n S T U V };

    ghost least = { λ w fits S fires n. Passes-least w.graph.now.succ (has w.retained.now) w.start S fires w.starts n };
}

/// The nodes that both sets have, ascending.
#[tactic(auto, using(crate::proofs::Found::lists_none, crate::proofs::Found::lists_skip, crate::proofs::Found::lists_push))]
fn shared(alloc: Global, one: &[bool], other: &[bool]) -> Result<Vec<u32>, AllocError>
    requires size { length one.now ≡ length other.now }
    requires small { length one.now < 2 ^ 32 }
    ensures { IfOk result (λ found. ListsBelow (λ n. has one.now n && has other.now n) (length one.now) found.items) }
{
    let mut found = Vec::new(alloc);
    for n in 0..one.len() {
        if one[n] & other[n] {
            found.push(n as u32)?;
        }
    }
    Ok(found)
}

/// The retained nodes that some path from `node` meets first, ascending; a retained node meets itself.
/// It fails for want of memory alone.
pub fn first_met(
    alloc: Global,
    graph: &Graph,
    retained: &[bool],
    node: u32,
) -> Result<Vec<u32>, AllocError>
    requires graph { IsGraph graph.now.succ }
    requires size { length retained.now ≡ length graph.now.succ }
    requires small { length graph.now.succ < 2 ^ 32 }
    requires node { node < length graph.now.succ }
    ensures { IfOk result (λ found. Lists (Meets graph.now.succ (has retained.now) node) found.items) }
{
    let walks = Walks {
        graph,
        retained,
        start: node as usize,
    };
    let passed = least_set(alloc, &walks)?;
    shared(alloc, passed.as_slice(), retained)
}
