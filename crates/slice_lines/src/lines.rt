//! The lines of a slice.
ghost use Rattle.std.specs.Prelude.{◌≡◌, ◌<◌, ◌++◌, is_some, length, IfOk, OnOk};
ghost use Rattle.std.specs.List.{flat_map, list_any};
ghost use Rattle.slicer.specs.Locations.{IsLocationOf};
ghost use Rattle.slice_lines.specs.Slices as spec;

use flat_ir::{FuncId, Kept, Location, Next, Program, Residual};
use name_texts::put_function;
use plain_list::Sequence;
use points_to::points_to;
use slicer::slice;
use std::alloc::{AllocError, Global};
use value_texts::{put_number, put_text};

// Where a node leads, behind a space.
fn put_next(alloc: Global, text: &mut Vec<u8>, next: Next) -> Result<(), AllocError>
    ensures { OnOk result (text.new.items ≡ text.old.items ++ spec.spaced_next next) }
{
    match next {
        Next::Node(node) => {
            put_text(text, " ")?;
            put_number(alloc, text, u64::from(node.0))
        }
        Next::End => put_text(text, " end"),
        Next::Never => put_text(text, " never"),
    }
}

fn put_nexts(alloc: Global, text: &mut Vec<u8>, nexts: &[Next]) -> Result<(), AllocError>
    ensures { OnOk result (text.new.items ≡ text.old.items ++ flat_map spec.spaced_next nexts.now) }
{
    for next in nexts {
        put_next(alloc, text, *next)?;
    }
    Ok(())
}

// Where a function's entry leads.
fn put_entry(
    alloc: Global,
    text: &mut Vec<u8>,
    program: &Program,
    func: u32,
    start: Next,
) -> Result<(), AllocError>
    ensures { OnOk result (text.new.items ≡ text.old.items ++ spec.entry_line program.now func start) }
{
    put_function(text, program, FuncId(func))?;
    put_text(text, " entry ->")?;
    put_next(alloc, text, start)?;
    put_text(text, "\n")
}

// Where a retained node leads.
fn put_node(
    alloc: Global,
    text: &mut Vec<u8>,
    program: &Program,
    func: u32,
    node: u64,
    nexts: &[Next],
) -> Result<(), AllocError>
    ensures { OnOk result (text.new.items ≡ text.old.items ++ spec.node_line program.now func node nexts.now) }
{
    put_function(text, program, FuncId(func))?;
    put_text(text, ":")?;
    put_number(alloc, text, node)?;
    put_text(text, " ->")?;
    put_nexts(alloc, text, nexts)?;
    put_text(text, "\n")
}

fn put_node_if(
    alloc: Global,
    text: &mut Vec<u8>,
    program: &Program,
    func: u32,
    node: u64,
    kept: &Option<Sequence<Next>>,
) -> Result<(), AllocError>
    ensures { OnOk result (text.new.items ≡ text.old.items ++ spec.node_line_if program.now func node kept.now) }
{
    match kept {
        Some(nexts) => put_node(alloc, text, program, func, node, nexts.as_slice()),
        None => Ok(()),
    }
}

fn put_nodes(
    alloc: Global,
    text: &mut Vec<u8>,
    program: &Program,
    func: u32,
    kept: &[Option<Sequence<Next>>],
) -> Result<(), AllocError>
    ensures { OnOk result (text.new.items ≡ text.old.items ++ spec.node_lines program.now func 0 kept.now) }
{
    for n in 0..kept.len() {
        put_node_if(alloc, text, program, func, n as u64, &kept[n])?;
    }
    Ok(())
}

fn has_retained(kept: &[Option<Sequence<Next>>]) -> bool
    ensures { result ≡ list_any is_some kept.now }
{
    kept.iter().any(|nexts| nexts.is_some())
}

fn put_kept(
    alloc: Global,
    text: &mut Vec<u8>,
    program: &Program,
    asked: FuncId,
    func: u32,
    kept: &Kept,
) -> Result<(), AllocError>
    ensures { OnOk result (text.new.items ≡ text.old.items ++ spec.kept_lines program.now asked.0 func kept.now) }
{
    let nexts = kept.nexts.as_slice();
    if func == asked.0 || has_retained(nexts) {
        put_entry(alloc, text, program, func, kept.start)?;
        return put_nodes(alloc, text, program, func, nexts);
    }
    Ok(())
}

fn put_functions(
    alloc: Global,
    text: &mut Vec<u8>,
    program: &Program,
    asked: FuncId,
    funcs: &[Kept],
) -> Result<(), AllocError>
    requires { length funcs.now ≡ length program.now.funcs }
    ensures { OnOk result (text.new.items ≡ text.old.items ++ spec.lines_from program.now asked.0 0 funcs.now) }
{
    let count = program.parts().funcs.len();
    for f in 0..count {
        put_kept(alloc, text, program, asked, f as u32, &funcs[f])?;
    }
    Ok(())
}

fn residual_text(
    alloc: Global,
    program: &Program,
    func: FuncId,
    residual: &Residual,
) -> Result<Vec<u8>, AllocError>
    requires { length residual.now.funcs ≡ length program.now.funcs }
    ensures { IfOk result (λ text. text.items ≡ spec.lines_of program.now func residual.now) }
{
    let mut text = Vec::new(alloc);
    put_functions(alloc, &mut text, program, func, residual.funcs.as_slice())?;
    Ok(text)
}

/// The lines of the slice of a function for a location: what is retained of each function that the slice looks at, and where a run of that
/// alone goes on. It fails for want of memory alone.
pub fn slice_text(
    alloc: Global,
    program: &Program,
    func: FuncId,
    at: Location,
) -> Result<Vec<u8>, AllocError>
    requires func { func.0 < length program.now.funcs }
    requires at { IsLocationOf program.now at }
    ensures { IfOk result (λ text. spec.IsSliceText program.now func at text.items) }
{
    let sets = points_to(alloc, program)?;
    let residual = slice(alloc, program, &sets, func, at)?;
    residual_text(alloc, program, func, &residual)
}
