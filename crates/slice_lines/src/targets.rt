//! What words name.
ghost use Rattle.std.specs.Prelude.{◌≡◌, ◌<◌, ◌≤◌, ◌∷◌, [], ◌++◌, ◌^◌, if◌then◌else◌, length, take, IfOk, IfSome, OnOk, slice_get};
ghost use Rattle.std.specs.Str.{bytes_eq};
ghost use Rattle.flat_ir.specs.declared.names.Location.TheVariants as location;
ghost use Rattle.flat_ir.specs.Machine.{func_at};
ghost use Rattle.slicer.specs.Locations.{IsLocationOf};
ghost use Rattle.slice_lines.specs.Targets as spec;

use flat_ir::{Func, FuncId, Location, Program, Site};
use mod_ref::locations;
use std::alloc::{AllocError, Global};
use value_texts::{put_number, put_text};

fn is_same(a: &[u8], b: &[u8]) -> bool
    ensures { result ≡ bytes_eq a.now b.now }
{
    a == b
}

fn function_in(funcs: &[Func], name: &[u8]) -> Option<FuncId>
    requires { length funcs.now ≤ 2 ^ 32 }
    ensures value { result ≡ spec.function_from 0 name.now funcs.now }
    ensures range { IfSome result (λ f. f.0 < length funcs.now) }
{
    for f in 0..funcs.len() {
        if is_same(funcs[f].name.as_slice(), name) {
            return Some(FuncId(f as u32));
        }
    }
    None
}

// The functions that the text defines.
fn defined(program: &Program) -> &[Func]
    ensures value { result.now ≡ take program.now.defined program.now.funcs }
    ensures few { length result.now ≤ length program.now.funcs }
    ensures whole { length program.now.funcs ≤ 2 ^ 32 }
{
    let parts = program.parts();
    let funcs = parts.funcs.as_slice();
    let count = parts.defined as usize;
    if count < funcs.len() {
        return &funcs[..count];
    }
    funcs
}

/// The function with this name that the program's text defines.
pub fn function_named(program: &Program, name: &str) -> Option<FuncId>
    ensures value { result ≡ spec.function_named program.now name.now }
    ensures range { IfSome result (λ f. f.0 < length program.now.funcs) }
{
    function_in(defined(program), name.as_bytes())
}

fn put_global_name(text: &mut Vec<u8>, program: &Program, global: u32) -> Result<(), AllocError>
    ensures { OnOk result (text.new.items ≡ text.old.items ++ spec.global_name (slice_get program.now.globals global)) }
{
    match program.parts().globals.get(global as usize) {
        Some(global) => text.extend_from_slice(global.name.as_slice()),
        None => Ok(()),
    }
}

fn put_function_name(text: &mut Vec<u8>, program: &Program, func: FuncId) -> Result<(), AllocError>
    ensures { OnOk result (text.new.items ≡ text.old.items ++ spec.function_name (func_at program.now func)) }
{
    match program.parts().funcs.get(func.0 as usize) {
        Some(func) => text.extend_from_slice(func.name.as_slice()),
        None => Ok(()),
    }
}

fn put_site_word(
    alloc: Global,
    text: &mut Vec<u8>,
    program: &Program,
    site: Site,
) -> Result<(), AllocError>
    ensures { OnOk result (text.new.items ≡ text.old.items ++ spec.site_word program.now site) }
{
    match site {
        Site::Global(global) => {
            put_text(text, "@")?;
            put_global_name(text, program, global)
        }
        Site::Node(func, node) => {
            put_function_name(text, program, func)?;
            put_text(text, ":")?;
            put_number(alloc, text, u64::from(node.0))
        }
    }
}

fn put_location_word(
    alloc: Global,
    text: &mut Vec<u8>,
    program: &Program,
    location: Location,
) -> Result<(), AllocError>
    ensures { OnOk result (text.new.items ≡ text.old.items ++ spec.location_word program.now location) }
{
    match location {
        Location::Cells(site) => {
            put_text(text, "cells:")?;
            put_site_word(alloc, text, program, site)
        }
        Location::Life(site) => {
            put_text(text, "life:")?;
            put_site_word(alloc, text, program, site)
        }
        Location::Input => put_text(text, "input"),
        Location::Output => put_text(text, "output"),
        Location::Result => put_text(text, "result"),
    }
}

// Whether a word is a location's.
fn is_word_of(
    alloc: Global,
    program: &Program,
    location: Location,
    word: &[u8],
) -> Result<bool, AllocError>
    ensures { IfOk result (λ same. same ≡ bytes_eq (spec.location_word program.now location) word.now) }
{
    let mut text = Vec::new(alloc);
    put_location_word(alloc, &mut text, program, location)?;
    Ok(is_same(text.as_slice(), word))
}

fn location_in(
    alloc: Global,
    program: &Program,
    word: &[u8],
    locations: &[Location],
) -> Result<Option<Location>, AllocError>
    ensures { IfOk result (λ found. found ≡ spec.location_in program.now word.now locations.now) }
{
    for location in locations {
        if is_word_of(alloc, program, *location, word)? {
            return Ok(Some(*location));
        }
    }
    Ok(None)
}

fn has_result(program: &Program, func: FuncId) -> bool
    ensures { (if result then location.Result ∷ [] else []) ≡ spec.result_of (func_at program.now func) }
{
    match program.parts().funcs.get(func.0 as usize) {
        Some(func) => func.result.is_some(),
        None => false,
    }
}

// The locations that may be asked for.
fn targets(alloc: Global, program: &Program, func: FuncId) -> Result<Vec<Location>, AllocError>
    ensures { IfOk result (λ found. found.items ≡ spec.targets program.now func) }
{
    let mut found = locations(alloc, program.parts())?;
    if has_result(program, func) {
        found.push(Location::Result)?;
    }
    Ok(found)
}

/// The location that a word names at the end of a function's calls. It fails for want of memory alone.
pub fn location_named(
    alloc: Global,
    program: &Program,
    func: FuncId,
    word: &str,
) -> Result<Option<Location>, AllocError>
    ensures value { IfOk result (λ found. found ≡ spec.location_named program.now func word.now) }
    ensures range { IfOk result (λ found. IfSome found (IsLocationOf program.now)) }
{
    let found = targets(alloc, program, func)?;
    location_in(alloc, program, word.as_bytes(), found.as_slice())
}

/// The line of a word that names no function or no location.
pub fn unknown_line(alloc: Global, word: &str) -> Result<Vec<u8>, AllocError>
    ensures { IfOk result (λ line. line.items ≡ spec.unknown_line word.now) }
{
    let mut text = Vec::new(alloc);
    put_text(&mut text, "refused UnknownTarget ")?;
    put_text(&mut text, word)?;
    put_text(&mut text, "\n")?;
    Ok(text)
}
