//! The graph of each function: its nodes and, behind them, its end.
ghost use Rattle.std.specs.Prelude.{◌≡◌, ◌<◌, ◌+◌, ◌^◌, length, map, IfOk};
ghost use Rattle.flat_ir.specs.Whole.{IsWhole};
ghost use Rattle.slices.specs.Slice.{end_of, graph_of as graph_in, leads_to as leads};
ghost use Rattle.slicer.specs.Graphs.{AreGraphs};

use crate::nodes::is_return;
use control_closure::Graph;
use flat_ir::{FuncId, Node, ProgramData};
use flow::row;
use mod_ref::nodes_of;
use plain_list::Sequence;
use std::alloc::{AllocError, Global};

/// The numbers of the nodes that a node leads to; a return leads to the end.
pub fn leads_to(alloc: Global, end: u32, node: &Node) -> Result<Sequence<u32>, AllocError>
    ensures { IfOk result (λ row. row ≡ leads end node.now) }
{
    if is_return(node) {
        return Sequence::of_one(alloc, end);
    }
    row(alloc, node)
}

/// The rows of the nodes of a function.
fn rows(alloc: Global, end: u32, nodes: &[Node]) -> Result<Sequence<Sequence<u32>>, AllocError>
    ensures { IfOk result (λ rows. rows ≡ map (leads end) nodes.now) }
{
    let mut rows = Vec::new(alloc);
    for node in nodes {
        rows.push(leads_to(alloc, end, node)?)?;
    }
    Ok(Sequence::from_vec(rows))
}

/// The graph of a function. Want of memory is also where 32 bits don't number the nodes and the end.
fn graph_of(alloc: Global, program: &ProgramData, func: FuncId) -> Result<Graph, AllocError>
    ensures graph { IfOk result (λ graph. graph.succ ≡ graph_in program.now func) }
    ensures small { IfOk result (λ graph. end_of program.now func + 1 < 2 ^ 32) }
{
    let nodes = nodes_of(program, func);
    if nodes.len() >= 4294967295 {
        return Err(AllocError);
    }
    let mut succ = rows(alloc, nodes.len() as u32, nodes)?;
    succ.push(Sequence::new(alloc))?;
    Ok(Graph { succ })
}

/// The graphs of the functions.
pub fn graphs(alloc: Global, program: &ProgramData) -> Result<Vec<Graph>, AllocError>
    requires { IsWhole program.now }
    ensures { IfOk result (λ graphs. AreGraphs program.now (length program.now.funcs) graphs.items) }
{
    let mut graphs = Vec::new(alloc);
    'each: for f in 0..program.funcs.len() {
        graphs.push(graph_of(alloc, program, FuncId(f as u32))?)?;
    }
    Ok(graphs)
}
