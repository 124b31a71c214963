//! Where a run of the retained nodes goes on.
ghost use Rattle.std.specs.Prelude.{◌≡◌, ◌<◌, ◌≤◌, ◌+◌, ◌^◌, ℕ, length, map, IfOk};
ghost use Rattle.control_closure.specs.Sums.{at_node};
ghost use Rattle.flat_ir.specs.Machine as machine;
ghost use Rattle.flat_ir.specs.Whole.{IsWhole};
ghost use Rattle.slices.specs.Nexts.{nexts_if};
ghost use Rattle.slices.specs.Slice.{end_of, leads_to as leads};
ghost use Rattle.slicer.specs.Graphs.{AreGraphs, IsGraphOf};
ghost use Rattle.slicer.specs.Keeping as spec;
ghost use Rattle.slicer.specs.Keeping.{AreKept, IsKeptBy};

use crate::closing::retained;
use crate::graphs::leads_to;
use crate::marks::Mark;
use crate::places::Places;
use control_closure::{Graph, Met, all_met};
use flat_ir::{FuncId, Kept, Next, Node, NodeId};
use mod_ref::nodes_of;
use plain_list::Sequence;
use std::alloc::{AllocError, Global};

fn met_at(mets: &[Met], node: u32) -> Met
    ensures { result ≡ at_node mets.now node }
{
    match mets.get(node as usize) {
        Some(met) => *met,
        None => Met::Nothing,
    }
}

/// Where a run goes on, by what it meets first.
fn next_of(met: Met, end: u32) -> Next
    ensures { result ≡ spec.next_of met end }
{
    match met {
        Met::Nothing | Met::Several => Next::Never,
        Met::One(node) => {
            if node == end {
                Next::End
            } else {
                Next::Node(NodeId(node))
            }
        }
    }
}

/// Where the successors of a node lead.
fn nexts_of(
    alloc: Global,
    mets: &[Met],
    end: u32,
    row: &[u32],
) -> Result<Sequence<Next>, AllocError>
    ensures { IfOk result (λ nexts. nexts ≡ spec.nexts_of mets.now end row.now) }
{
    let mut nexts = Vec::new(alloc);
    for node in row {
        nexts.push(next_of(met_at(mets, *node), end))?;
    }
    Ok(Sequence::from_vec(nexts))
}

/// The nexts of a node, if it is retained.
fn nexts_of_node(
    alloc: Global,
    mets: &[Met],
    end: u32,
    is_kept: bool,
    node: &Node,
) -> Result<Option<Sequence<Next>>, AllocError>
    ensures { IfOk result (λ nexts. nexts ≡ nexts_if is_kept (spec.nexts_of mets.now end (leads end node.now))) }
{
    if !is_kept {
        return Ok(None);
    }
    let row = leads_to(alloc, end, node)?;
    Ok(Some(nexts_of(alloc, mets, end, row.as_slice())?))
}

/// The nexts of each node of a function.
fn nexts_of_nodes(
    alloc: Global,
    places: &Places,
    set: &[bool],
    func: FuncId,
    mets: &[Met],
    end: u32,
) -> Result<Sequence<Option<Sequence<Next>>>, AllocError>
    requires end { end ≡ end_of places.now.program.now func }
    ensures { IfOk result (λ nexts. nexts ≡ spec.nexts_from places.now.program.now places.now.starts.items set.now func mets.now end 0 (machine.nodes_of (machine.func_at places.now.program.now func))) }
{
    let nodes = nodes_of(places.program, func);
    let mut nexts = Sequence::new(alloc);
    for n in 0..nodes.len() {
        let is_kept = places.is_marked(set, Mark::Kept(func, NodeId(n as u32)));
        nexts.push(nexts_of_node(alloc, mets, end, is_kept, &nodes[n])?)?;
    }
    Ok(nexts)
}

/// What is left of a function.
fn kept_of(
    alloc: Global,
    places: &Places,
    graph: &Graph,
    set: &[bool],
    func: FuncId,
) -> Result<Kept, AllocError>
    requires whole { IsWhole places.now.program.now }
    requires graph { IsGraphOf places.now.program.now func.0 graph.now }
    ensures { IfOk result (λ kept. IsKeptBy places.now.program.now places.now.starts.items set.now func kept) }
{
    let bits = retained(alloc, places, set, func)?;
    let mets = all_met(alloc, graph, bits.as_slice())?;
    let end = nodes_of(places.program, func).len() as u32;
    let nexts = nexts_of_nodes(alloc, places, set, func, mets.as_slice(), end)?;
    Ok(Kept {
        start: next_of(met_at(mets.as_slice(), 0), end),
        nexts,
    })
}

/// What is left of each function.
pub fn kept(
    alloc: Global,
    places: &Places,
    graphs: &[Graph],
    set: &[bool],
) -> Result<Sequence<Kept>, AllocError>
    requires whole { IsWhole places.now.program.now }
    requires graphs { AreGraphs places.now.program.now (length places.now.program.now.funcs) graphs.now }
    ensures { IfOk result (λ kept. AreKept places.now.program.now places.now.starts.items set.now (length places.now.program.now.funcs) kept) }
{
    let mut kept = Sequence::new(alloc);
    'each: for f in 0..graphs.len() {
        kept.push(kept_of(alloc, places, &graphs[f], set, FuncId(f as u32))?)?;
    }
    Ok(kept)
}
