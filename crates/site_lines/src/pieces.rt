//! Sites and locations by their names.
ghost use Rattle.std.specs.Prelude.{◌≡◌, ◌++◌, codes, OnOk};
ghost use Rattle.site_lines.specs.Sites as spec;

use flat_ir::{Location, Program, Site};
use name_texts::{put_global, put_place};
use std::alloc::{AllocError, Global};
use value_texts::put_text;

// A site: a global by its name, a node by its function's name and its number.
pub(crate) fn put_site(
    alloc: Global,
    text: &mut Vec<u8>,
    program: &Program,
    site: Site,
) -> Result<(), AllocError>
    ensures { OnOk result (text.new.items ≡ text.old.items ++ spec.site_text program.now site) }
{
    match site {
        Site::Global(global) => put_global(text, program, global),
        Site::Node(func, node) => put_place(alloc, text, program, func, node),
    }
}

fn put_around(
    alloc: Global,
    text: &mut Vec<u8>,
    program: &Program,
    start: &str,
    site: Site,
) -> Result<(), AllocError>
    ensures { OnOk result (text.new.items ≡ text.old.items ++ (start.now ++ (spec.site_text program.now site ++ codes ")"))) }
{
    put_text(text, start)?;
    put_site(alloc, text, program, site)?;
    put_text(text, ")")
}

fn put_location(
    alloc: Global,
    text: &mut Vec<u8>,
    program: &Program,
    location: Location,
) -> Result<(), AllocError>
    ensures { OnOk result (text.new.items ≡ text.old.items ++ spec.location_text program.now location) }
{
    match location {
        Location::Cells(site) => put_around(alloc, text, program, "cells(", site),
        Location::Life(site) => put_around(alloc, text, program, "life(", site),
        Location::Input => put_text(text, "input"),
        Location::Output => put_text(text, "output"),
        Location::Result => put_text(text, "result"),
    }
}

// A site, behind a space.
pub(crate) fn put_spaced_site(
    alloc: Global,
    text: &mut Vec<u8>,
    program: &Program,
    site: Site,
) -> Result<(), AllocError>
    ensures { OnOk result (text.new.items ≡ text.old.items ++ spec.spaced_site program.now site) }
{
    put_text(text, " ")?;
    put_site(alloc, text, program, site)
}

// A location, behind a space.
pub(crate) fn put_spaced_location(
    alloc: Global,
    text: &mut Vec<u8>,
    program: &Program,
    location: Location,
) -> Result<(), AllocError>
    ensures { OnOk result (text.new.items ≡ text.old.items ++ spec.spaced_location program.now location) }
{
    put_text(text, " ")?;
    put_location(alloc, text, program, location)
}
