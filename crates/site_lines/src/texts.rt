//! The lines of a program.
ghost use Rattle.std.specs.Prelude.{◌≡◌, ◌≤◌, ◌++◌, ◌^◌, length, take, IfOk, OnOk};
ghost use Rattle.std.specs.List.{flat_map};
ghost use Rattle.points_to.specs.Sets.{of_cells};
ghost use Rattle.site_lines.specs.Sites as spec;

use crate::pieces::{put_site, put_spaced_location, put_spaced_site};
use flat_ir::{FuncId, Location, Program, Site};
use mod_ref::{mods, sites};
use name_texts::put_function;
use plain_list::Sequence;
use points_to::{PointsTo, points_to};
use std::alloc::{AllocError, Global};
use value_texts::put_text;

fn put_sites(
    alloc: Global,
    text: &mut Vec<u8>,
    program: &Program,
    sites: &[Site],
) -> Result<(), AllocError>
    ensures { OnOk result (text.new.items ≡ text.old.items ++ flat_map (spec.spaced_site program.now) sites.now) }
{
    for site in sites {
        put_spaced_site(alloc, text, program, *site)?;
    }
    Ok(())
}

fn put_locations(
    alloc: Global,
    text: &mut Vec<u8>,
    program: &Program,
    locations: &[Location],
) -> Result<(), AllocError>
    ensures { OnOk result (text.new.items ≡ text.old.items ++ flat_map (spec.spaced_location program.now) locations.now) }
{
    for location in locations {
        put_spaced_location(alloc, text, program, *location)?;
    }
    Ok(())
}

// A site, and the sites that its objects' pointers may point to.
fn put_site_line(
    alloc: Global,
    text: &mut Vec<u8>,
    program: &Program,
    sets: &PointsTo,
    site: Site,
) -> Result<(), AllocError>
    ensures { OnOk result (text.new.items ≡ text.old.items ++ spec.site_line program.now (of_cells sets.now) site) }
{
    put_text(text, "site ")?;
    put_site(alloc, text, program, site)?;
    put_text(text, " holds")?;
    put_sites(alloc, text, program, sets.of_cells(site))?;
    put_text(text, "\n")
}

fn put_site_lines(
    alloc: Global,
    text: &mut Vec<u8>,
    program: &Program,
    sets: &PointsTo,
    sites: &[Site],
) -> Result<(), AllocError>
    ensures { OnOk result (text.new.items ≡ text.old.items ++ flat_map (spec.site_line program.now (of_cells sets.now)) sites.now) }
{
    for site in sites {
        put_site_line(alloc, text, program, sets, *site)?;
    }
    Ok(())
}

// A function, and what its calls may change.
fn put_mod_line(
    alloc: Global,
    text: &mut Vec<u8>,
    program: &Program,
    func: u32,
    locations: &[Location],
) -> Result<(), AllocError>
    ensures { OnOk result (text.new.items ≡ text.old.items ++ spec.mod_line program.now func locations.now) }
{
    put_text(text, "mod ")?;
    put_function(text, program, FuncId(func))?;
    put_locations(alloc, text, program, locations)?;
    put_text(text, "\n")
}

// The lists of the functions that the text defines.
fn defined<'a>(program: &Program, lists: &'a [Sequence<Location>]) -> &'a [Sequence<Location>]
    ensures { result.now ≡ take program.now.defined lists.now }
{
    let count = program.parts().defined as usize;
    if count < lists.len() {
        return &lists[..count];
    }
    lists
}

fn put_mod_lines(
    alloc: Global,
    text: &mut Vec<u8>,
    program: &Program,
    lists: &[Sequence<Location>],
) -> Result<(), AllocError>
    requires { length lists.now ≤ 2 ^ 32 }
    ensures { OnOk result (text.new.items ≡ text.old.items ++ spec.mod_lines program.now 0 lists.now) }
{
    for f in 0..lists.len() {
        put_mod_line(alloc, text, program, f as u32, lists[f].as_slice())?;
    }
    Ok(())
}

/// The lines of a program: for each site the sites to whose objects pointers in its objects may point, and for each function that the
/// text defines what its calls may change. It fails for want of memory alone.
pub fn sites_text(alloc: Global, program: &Program) -> Result<Vec<u8>, AllocError>
    ensures { IfOk result (λ text. spec.IsSitesText program.now text.items) }
{
    let sets = points_to(alloc, program)?;
    let lists = mods(alloc, program, &sets)?;
    let sites = sites(alloc, program.parts())?;
    let mut text = Vec::new(alloc);
    put_site_lines(alloc, &mut text, program, &sets, sites.as_slice())?;
    put_mod_lines(
        alloc,
        &mut text,
        program,
        defined(program, lists.as_slice()),
    )?;
    Ok(text)
}
