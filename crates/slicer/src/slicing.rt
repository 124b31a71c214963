//! Growing and closing by turns.
ghost use Rattle.std.specs.Prelude.{◌≡◌, ◌<◌, ℕ, true, length, IfOk};
ghost use Rattle.flat_ir.specs.Whole.{IsWhole};
ghost use Rattle.flat_ir.specs.declared.names.FuncId.{FuncId};
ghost use Rattle.flat_ir.specs.declared.names.Location.{Location};
ghost use Rattle.least.specs.Sets.{has};
ghost use Rattle.points_to.specs.Rows.{Tables};
ghost use Rattle.points_to.specs.Sets.{ArePointsTo};
ghost use Rattle.slices.specs.Nexts.{IsResidual};
ghost use Rattle.slicer.specs.Facts.{AreGiven};
ghost use Rattle.slicer.specs.Graphs.{AreGraphs};
ghost use Rattle.slicer.specs.Locations.{IsLocationOf};
ghost use Rattle.slicer.specs.Places.{size_of};
ghost use Rattle.slicer.specs.Reached.{AreWithin};
ghost use Rattle.slicer.specs.Settling as spec;
ghost use Rattle.slicer.specs.Simulating.{Simulates};
ghost use Rattle.slicer.specs.Settling.{IsFound, IsReady, nothing};

use crate::closing::{close_once, mark_if};
use crate::graphs::graphs;
use crate::keeping::kept;
use crate::linking::links;
use crate::looking::looked;
use crate::marks::Mark;
use crate::places::Places;
use crate::reaching::{Arrow, empty, reached};
use control_closure::Graph;
use flat_ir::{FuncId, Location, Program, ProgramData, Residual};
use least::count;
use points_to::PointsTo;
use std::alloc::{AllocError, Global};

fn is_result(at: Location) -> bool
    ensures { result ≡ spec.is_result at }
{
    match at {
        Location::Result => true,
        _ => false,
    }
}

/// Puts what is asked into an empty set: the location, and the function's returns where that is the result.
fn ask(places: &Places, f: FuncId, at: Location, set: &mut [bool])
    requires func { f.0 < length places.now.program.now.funcs }
    requires at { IsLocationOf places.now.program.now at }
    requires none { (k : ℕ) → has set.old k ≡ true → ⊥ }
    requires size { length set.old ≡ size_of places.now.program.now places.now.starts.items }
    ensures { AreGiven places.now.program.now f at places.now.starts.items nothing set.new }
{
    places.mark(set, Mark::Needed(at));
    mark_if(places, is_result(at), Mark::Returns(f), set);
}

/// What is asked of a slice.
fn asked(alloc: Global, places: &Places, f: FuncId, at: Location) -> Result<Vec<bool>, AllocError>
    requires func { f.0 < length places.now.program.now.funcs }
    requires at { IsLocationOf places.now.program.now at }
    ensures { IfOk result (λ set. AreGiven places.now.program.now f at places.now.starts.items nothing set.items) }
{
    let mut set = empty(alloc, places.size())?;
    ask(places, f, at, &mut set);
    Ok(set)
}

/// Grows a set and closes it by turns, until a closing round adds nothing.
fn settled(
    alloc: Global,
    places: &Places,
    graphs: &[Graph],
    looked: &[bool],
    arrows: &[Arrow],
    asked: &[bool],
) -> Result<Vec<bool>, AllocError>
    requires whole { IsWhole places.now.program.now }
    requires graphs { AreGraphs places.now.program.now (length places.now.program.now.funcs) graphs.now }
    requires looked { length looked.now ≡ length places.now.program.now.funcs }
    requires within { AreWithin (size_of places.now.program.now places.now.starts.items) arrows.now }
    requires size { length asked.now ≡ size_of places.now.program.now places.now.starts.items }
    ensures { (t : Tables) (f : FuncId) (l : Location) → IsReady places.now.program.now t f places.now.starts.items looked.now arrows.now → AreGiven places.now.program.now f l places.now.starts.items nothing asked.now → IfOk result (λ set. IsFound places.now.program.now f l places.now.starts.items set.items) }
{
    let mut set = Vec::from_slice(alloc, asked)?;
    'rounds: loop {
        let grown = reached(alloc, set.as_slice(), arrows)?;
        let closed = close_once(alloc, places, graphs, looked, grown.as_slice())?;
        if count(closed.as_slice()) == count(grown.as_slice()) {
            return Ok(grown);
        }
        set = closed;
    }
}

/// The slice of a function for a location.
fn sliced(
    alloc: Global,
    parts: &ProgramData,
    sets: &PointsTo,
    f: FuncId,
    at: Location,
) -> Result<Residual, AllocError>
    requires whole { IsWhole parts.now }
    requires sets { ArePointsTo parts.now sets.now }
    requires func { f.0 < length parts.now.funcs }
    requires at { IsLocationOf parts.now at }
    ensures { IfOk result (λ residual. IsResidual parts.now f at residual) }
{
    let looked = looked(alloc, parts, f)?;
    let links = links(alloc, parts, sets, looked.as_slice())?;
    let places = Places::new(alloc, parts)?;
    let arrows = places.arrows(alloc, links.as_slice())?;
    let graphs = graphs(alloc, parts)?;
    let asked = asked(alloc, &places, f, at)?;
    let set = settled(
        alloc,
        &places,
        graphs.as_slice(),
        looked.as_slice(),
        arrows.as_slice(),
        asked.as_slice(),
    )?;
    let funcs = kept(alloc, &places, graphs.as_slice(), set.as_slice())?;
    Ok(Residual { funcs })
}

/// The slice of a function for a location: what is retained of each function of the program, and where a run of that goes on. The sets are those of the program,
/// the function and the location are the program's. A run that goes by the slice simulates each call of the function that ends. It fails for want of memory alone.
pub fn slice(
    alloc: Global,
    program: &Program,
    sets: &PointsTo,
    f: FuncId,
    at: Location,
) -> Result<Residual, AllocError>
    requires sets { ArePointsTo program.now sets.now }
    requires func { f.0 < length program.now.funcs }
    requires at { IsLocationOf program.now at }
    ensures exact { IfOk result (λ residual. IsResidual program.now f at residual) }
    ensures simulates { IfOk result (λ residual. Simulates program.now f at residual) }
{
    sliced(alloc, program.parts(), sets, f, at)
}
