//! One closing round in each function.
ghost use Rattle.std.specs.Prelude.{◌≡◌, ◌<◌, ◌≤◌, ◌+◌, ◌^◌, ℕ, length, IfOk};
ghost use Rattle.flat_ir.specs.Whole.{IsWhole};
ghost use Rattle.least.specs.Sets.{has};
ghost use Rattle.slices.specs.Slice.{end_of, graph_of, retained as retains};
ghost use Rattle.slicer.specs.Closing.{ClosesFirst, ClosesFunction, ClosesIf, MarksIf, MarksNodes};
ghost use Rattle.slicer.specs.Facts.{ClosesOnce};
ghost use Rattle.slicer.specs.Graphs.{AreGraphs, IsGraphOf};
ghost use Rattle.slicer.specs.Places.{items_of, size_of};

use crate::marks::Mark;
use crate::places::Places;
use control_closure::{Graph, closing_round};
use flat_ir::{FuncId, NodeId};
use mod_ref::nodes_of;
use std::alloc::{AllocError, Global};

/// The retained nodes of a function, and its end.
pub fn retained(
    alloc: Global,
    places: &Places,
    set: &[bool],
    func: FuncId,
) -> Result<Vec<bool>, AllocError>
    requires few { end_of places.now.program.now func + 1 < 2 ^ 32 }
    ensures len { IfOk result (λ bits. length bits.items ≡ length (graph_of places.now.program.now func)) }
    ensures bits { IfOk result (λ bits. (n : ℕ) → has bits.items n ≡ retains places.now.program.now func (items_of places.now.program.now places.now.starts.items set.now) n) }
{
    let mut bits = Vec::new(alloc);
    'each: for n in 0..nodes_of(places.program, func).len() {
        bits.push(places.is_marked(set, Mark::Kept(func, NodeId(n as u32))))?;
    }
    bits.push(true)?;
    Ok(bits)
}

pub fn mark_if(places: &Places, test: bool, mark: Mark, set: &mut [bool])
    requires { length set.old ≡ size_of places.now.program.now places.now.starts.items }
    ensures { MarksIf places.now.program.now places.now.starts.items test mark set.old set.new }
{
    if test {
        places.mark(set, mark);
    }
}

/// Puts the nodes of a list into a set.
fn mark_nodes(places: &Places, func: FuncId, nodes: &[bool], set: &mut [bool])
    requires few { end_of places.now.program.now func + 1 < 2 ^ 32 }
    requires nodes { end_of places.now.program.now func < length nodes.now }
    requires size { length set.old ≡ size_of places.now.program.now places.now.starts.items }
    ensures { MarksNodes places.now.program.now places.now.starts.items func (end_of places.now.program.now func) nodes.now set.old set.new }
{
    'each: for n in 0..nodes_of(places.program, func).len() {
        mark_if(places, nodes[n], Mark::Kept(func, NodeId(n as u32)), set);
    }
}

/// One closing round in a function.
fn close_function(
    alloc: Global,
    places: &Places,
    graph: &Graph,
    func: FuncId,
    grown: &[bool],
    set: &mut [bool],
) -> Result<(), AllocError>
    requires whole { IsWhole places.now.program.now }
    requires graph { IsGraphOf places.now.program.now func.0 graph.now }
    requires size { length set.old ≡ size_of places.now.program.now places.now.starts.items }
    ensures { IfOk result (λ _. ClosesFunction places.now.program.now places.now.starts.items func grown.now set.old set.new) }
{
    let kept = retained(alloc, places, grown, func)?;
    let next = closing_round(alloc, graph, kept.as_slice())?;
    mark_nodes(places, func, next.as_slice(), set);
    Ok(())
}

fn close_if(
    alloc: Global,
    places: &Places,
    graph: &Graph,
    test: bool,
    func: FuncId,
    grown: &[bool],
    set: &mut [bool],
) -> Result<(), AllocError>
    requires whole { IsWhole places.now.program.now }
    requires graph { IsGraphOf places.now.program.now func.0 graph.now }
    requires size { length set.old ≡ size_of places.now.program.now places.now.starts.items }
    ensures { IfOk result (λ _. ClosesIf places.now.program.now places.now.starts.items test func grown.now set.old set.new) }
{
    if test {
        close_function(alloc, places, graph, func, grown, set)?;
    }
    Ok(())
}

/// One closing round in each function of a set.
fn close_functions(
    alloc: Global,
    places: &Places,
    graphs: &[Graph],
    looked: &[bool],
    grown: &[bool],
    set: &mut [bool],
) -> Result<(), AllocError>
    requires whole { IsWhole places.now.program.now }
    requires graphs { AreGraphs places.now.program.now (length places.now.program.now.funcs) graphs.now }
    requires looked { length looked.now ≡ length places.now.program.now.funcs }
    requires same { set.old ≡ grown.now }
    requires size { length grown.now ≡ size_of places.now.program.now places.now.starts.items }
    ensures { IfOk result (λ _. ClosesOnce places.now.program.now places.now.starts.items looked.now grown.now set.new) }
{
    'each: for f in 0..graphs.len() {
        close_if(
            alloc,
            places,
            &graphs[f],
            looked[f],
            FuncId(f as u32),
            grown,
            set,
        )?;
    }
    Ok(())
}

/// What a closing round in each function of a set of functions makes of a set of facts.
pub fn close_once(
    alloc: Global,
    places: &Places,
    graphs: &[Graph],
    looked: &[bool],
    grown: &[bool],
) -> Result<Vec<bool>, AllocError>
    requires whole { IsWhole places.now.program.now }
    requires graphs { AreGraphs places.now.program.now (length places.now.program.now.funcs) graphs.now }
    requires looked { length looked.now ≡ length places.now.program.now.funcs }
    requires size { length grown.now ≡ size_of places.now.program.now places.now.starts.items }
    ensures closes { IfOk result (λ closed. ClosesOnce places.now.program.now places.now.starts.items looked.now grown.now closed.items) }
    ensures len { IfOk result (λ closed. length closed.items ≡ length grown.now) }
{
    let mut closed = Vec::from_slice(alloc, grown)?;
    close_functions(alloc, places, graphs, looked, grown, &mut closed)?;
    Ok(closed)
}
