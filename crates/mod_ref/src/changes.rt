//! What calls of each function may change.
ghost use Rattle.std.specs.Prelude.{◌≡◌, ◌<◌, ◌≤◌, ◌++◌, length, OnOk, IfOk, slice_index_or, []};
ghost use Rattle.flat_ir.specs.Whole.{IsWhole};
ghost use Rattle.least.specs.Sets.{has, Exactly};
ghost use Rattle.points_to.specs.Sets.{ArePointsTo};
ghost use Rattle.mod_ref.specs.Changes.{Changes};
ghost use Rattle.mod_ref.specs.Callers.{func, AreColumns};
ghost use Rattle.mod_ref.specs.Mods as spec;
ghost use Rattle.mod_ref.specs.Sites as places;

use crate::callers::changers;
use crate::owned::own;
use crate::places::locations;
use flat_ir::{Location, Program, ProgramData};
use plain_list::Sequence;
use points_to::PointsTo;
use std::alloc::{AllocError, Global};

/// The functions whose calls may change a location.
fn column(
    alloc: Global,
    program: &ProgramData,
    sets: &PointsTo,
    location: Location,
) -> Result<Sequence<bool>, AllocError>
    requires whole { IsWhole program.now }
    requires sets { ArePointsTo program.now sets.now }
    ensures { IfOk result (λ set. Exactly (λ k. Changes program.now (func k) location) (has set)) }
{
    let own = own(alloc, program, sets, location)?;
    let set = changers(alloc, program, location, own.as_slice())?;
    Ok(Sequence::from_vec(set))
}

/// For each location the functions whose calls may change it.
fn columns(
    alloc: Global,
    program: &ProgramData,
    sets: &PointsTo,
    locations: &[Location],
) -> Result<Vec<Sequence<bool>>, AllocError>
    requires whole { IsWhole program.now }
    requires sets { ArePointsTo program.now sets.now }
    ensures columns { IfOk result (λ columns. AreColumns program.now locations.now columns.items) }
    ensures count { IfOk result (λ columns. length columns.items ≡ length locations.now) }
{
    let mut columns = Vec::new(alloc);
    'each: for i in 0..locations.len() {
        columns.push(column(alloc, program, sets, locations[i])?)?;
    }
    Ok(columns)
}

/// Whether a set has a number.
fn is_in(set: &[bool], number: usize) -> bool
    ensures { result ≡ has set.now number }
{
    number < set.len() && set[number]
}

fn keep(list: &mut Sequence<Location>, is_kept: bool, location: Location) -> Result<(), AllocError>
    ensures { OnOk result (list.new ≡ list.old ++ spec.kept is_kept location) }
{
    if is_kept {
        list.push(location)?;
    }
    Ok(())
}

/// The locations whose set of functions has a function.
fn chosen(
    alloc: Global,
    function: usize,
    locations: &[Location],
    columns: &[Sequence<bool>],
) -> Result<Sequence<Location>, AllocError>
    requires { length columns.now ≡ length locations.now }
    ensures { IfOk result (λ list. list ≡ spec.chosen function locations.now columns.now) }
{
    let mut list = Sequence::new(alloc);
    'each: for i in 0..locations.len() {
        let is_kept = is_in(columns[i].as_slice(), function);
        keep(&mut list, is_kept, locations[i])?;
    }
    Ok(list)
}

/// The locations that calls of each function of a program may change, in their order. The sets are those of the program. It fails
/// for want of memory alone.
pub fn mods(
    alloc: Global,
    program: &Program,
    sets: &PointsTo,
) -> Result<Vec<Sequence<Location>>, AllocError>
    requires { ArePointsTo program.now sets.now }
    ensures { IfOk result (λ lists. spec.AreMods program.now lists.items) }
{
    let parts = program.parts();
    let locations = locations(alloc, parts)?;
    let columns = columns(alloc, parts, sets, locations.as_slice())?;
    let mut lists = Vec::new(alloc);
    'each: for f in 0..parts.funcs.len() {
        lists.push(chosen(alloc, f, locations.as_slice(), columns.as_slice())?)?;
    }
    Ok(lists)
}
