//! The sites of a program, and the locations that its calls may change.
ghost use Rattle.std.specs.Prelude.{◌≡◌, ◌≤◌, ◌++◌, ◌^◌, map, length, OnOk, IfOk};
ghost use Rattle.flat_ir.specs.Whole.{IsWhole};
ghost use Rattle.flat_ir.specs.declared.names.Location.TheVariants as location;
ghost use Rattle.mod_ref.specs.Sites as spec;

use flat_ir::{Func, FuncId, Location, Node, NodeId, ProgramData, Site};
use std::alloc::{AllocError, Global};

fn push_site(sites: &mut Vec<Site>, func: FuncId, at: u32, node: &Node) -> Result<(), AllocError>
    ensures { OnOk result (sites.new.items ≡ sites.old.items ++ spec.site_of_node func at node.now) }
{
    match node {
        Node::Alloca { .. } | Node::Malloc { .. } => {
            sites.push(Site::Node(func, NodeId(at)))?;
            Ok(())
        }
        _ => Ok(()),
    }
}

fn push_sites(sites: &mut Vec<Site>, func: FuncId, nodes: &[Node]) -> Result<(), AllocError>
    requires { length nodes.now ≤ 2 ^ 32 }
    ensures { OnOk result (sites.new.items ≡ sites.old.items ++ spec.sites_from func 0 nodes.now) }
{
    for n in 0..nodes.len() {
        push_site(sites, func, n as u32, &nodes[n])?;
    }
    Ok(())
}

fn push_globals(sites: &mut Vec<Site>, program: &ProgramData) -> Result<(), AllocError>
    requires { length program.now.globals ≤ 2 ^ 32 }
    ensures { OnOk result (sites.new.items ≡ sites.old.items ++ spec.sites_by_globals 0 program.now.globals) }
{
    for g in 0..program.globals.len() {
        sites.push(Site::Global(g as u32))?;
    }
    Ok(())
}

fn push_functions(sites: &mut Vec<Site>, program: &ProgramData) -> Result<(), AllocError>
    requires { IsWhole program.now }
    ensures { OnOk result (sites.new.items ≡ sites.old.items ++ spec.sites_by_funcs 0 program.now.funcs) }
{
    let funcs = program.funcs.as_slice();
    for f in 0..funcs.len() {
        push_sites(sites, FuncId(f as u32), funcs[f].nodes.as_slice())?;
    }
    Ok(())
}

/// The sites of a program, in their order: its globals, and the nodes that make objects.
pub fn sites(alloc: Global, program: &ProgramData) -> Result<Vec<Site>, AllocError>
    requires { IsWhole program.now }
    ensures { IfOk result (λ sites. sites.items ≡ spec.sites program.now) }
{
    let mut sites = Vec::new(alloc);
    push_globals(&mut sites, program)?;
    push_functions(&mut sites, program)?;
    Ok(sites)
}

fn push_cells(locations: &mut Vec<Location>, sites: &[Site]) -> Result<(), AllocError>
    ensures { OnOk result (locations.new.items ≡ locations.old.items ++ map location.Cells sites.now) }
{
    for site in sites {
        locations.push(Location::Cells(*site))?;
    }
    Ok(())
}

fn push_lives(locations: &mut Vec<Location>, sites: &[Site]) -> Result<(), AllocError>
    ensures { OnOk result (locations.new.items ≡ locations.old.items ++ map location.Life sites.now) }
{
    for site in sites {
        locations.push(Location::Life(*site))?;
    }
    Ok(())
}

/// The locations that calls may change, in their order: the cells of the sites, the lives of their objects, the place in the input,
/// the output.
pub fn locations(alloc: Global, program: &ProgramData) -> Result<Vec<Location>, AllocError>
    requires { IsWhole program.now }
    ensures { IfOk result (λ locations. locations.items ≡ spec.locations program.now) }
{
    let sites = sites(alloc, program)?;
    let mut locations = Vec::new(alloc);
    push_cells(&mut locations, sites.as_slice())?;
    push_lives(&mut locations, sites.as_slice())?;
    locations.push(Location::Input)?;
    locations.push(Location::Output)?;
    Ok(locations)
}
