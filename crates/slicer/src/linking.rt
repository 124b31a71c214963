//! What follows from what by the nodes of a program.
ghost use Rattle.std.specs.Prelude.{◌≡◌, ◌≤◌, ◌++◌, ◌^◌, length, OnOk, IfOk};
ghost use Rattle.std.specs.List.{flat_map};
ghost use Rattle.flat_ir.specs.Whole.{IsWhole, results_of};
ghost use Rattle.flow.specs.Flow.{reads};
ghost use Rattle.mod_ref.specs.Changes.{is_malloc_site as is_made};
ghost use Rattle.slicer.specs.Links as spec;
ghost use Rattle.slicer.specs.declared.marks.Mark.TheVariants as mark;
ghost use Rattle.slices.specs.Nodes.{read_through as reads_at, used_alive as needs_alive};

use crate::marks::{Link, Mark};
use crate::nodes::{call_result, is_return, read_through, reads_input, used_alive};
use flat_ir::{FuncId, Location, Node, NodeId, Operand, ProgramData, RegId, Site};
use flow::{registers_read, results};
use mod_ref::{callee, changed_by, freed_by, is_malloc_site, written_through};
use plain_list::Sequence;
use points_to::PointsTo;
use std::alloc::{AllocError, Global};

/// The sites of a pointer.
fn sites_of(
    alloc: Global,
    sets: &PointsTo,
    func: FuncId,
    pointer: Operand,
) -> Result<Sequence<Site>, AllocError>
    ensures { IfOk result (λ sites. sites ≡ spec.sites_of sets.now func pointer) }
{
    match pointer {
        Operand::Reg(register) => Sequence::from_slice(alloc, sets.of_reg(func, register)),
        Operand::Global { global, .. } => Sequence::of_one(alloc, Site::Global(global)),
        Operand::Int(_) | Operand::Null => Ok(Sequence::new(alloc)),
    }
}

/// The sites of a pointer, if there is one.
fn sites_if(
    alloc: Global,
    sets: &PointsTo,
    func: FuncId,
    pointer: Option<Operand>,
) -> Result<Sequence<Site>, AllocError>
    ensures { IfOk result (λ sites. sites ≡ spec.sites_if sets.now func pointer) }
{
    match pointer {
        Some(pointer) => sites_of(alloc, sets, func, pointer),
        None => Ok(Sequence::new(alloc)),
    }
}

/// The sites of several pointers.
fn sites_of_all(
    alloc: Global,
    sets: &PointsTo,
    func: FuncId,
    pointers: &[Operand],
) -> Result<Sequence<Site>, AllocError>
    ensures { IfOk result (λ sites. sites ≡ flat_map (spec.sites_of sets.now func) pointers.now) }
{
    let mut all = Sequence::new(alloc);
    for pointer in pointers {
        all.append(sites_of(alloc, sets, func, *pointer)?)?;
    }
    Ok(all)
}

fn push_malloc_site(
    sites: &mut Vec<Site>,
    program: &ProgramData,
    site: Site,
) -> Result<(), AllocError>
    ensures { OnOk result (sites.new.items ≡ sites.old.items ++ spec.kept_if (is_made program.now site) site) }
{
    if is_malloc_site(program, site) {
        sites.push(site)?;
    }
    Ok(())
}

/// The sites whose objects may be freed.
fn malloc_sites(
    alloc: Global,
    program: &ProgramData,
    sites: &[Site],
) -> Result<Sequence<Site>, AllocError>
    ensures { IfOk result (λ made. made ≡ flat_map (λ s. spec.kept_if (is_made program.now s) s) sites.now) }
{
    let mut made = Vec::new(alloc);
    for site in sites {
        push_malloc_site(&mut made, program, *site)?;
    }
    Ok(Sequence::from_vec(made))
}

fn cells_of(alloc: Global, sites: &[Site]) -> Result<Sequence<Mark>, AllocError>
    ensures { IfOk result (λ marks. marks ≡ spec.cells_of sites.now) }
{
    let mut marks = Vec::new(alloc);
    for site in sites {
        marks.push(Mark::Needed(Location::Cells(*site)))?;
    }
    Ok(Sequence::from_vec(marks))
}

fn lives_of(alloc: Global, sites: &[Site]) -> Result<Sequence<Mark>, AllocError>
    ensures { IfOk result (λ marks. marks ≡ spec.lives_of sites.now) }
{
    let mut marks = Vec::new(alloc);
    for site in sites {
        marks.push(Mark::Needed(Location::Life(*site)))?;
    }
    Ok(Sequence::from_vec(marks))
}

fn wanted_of(alloc: Global, func: FuncId, registers: &[RegId]) -> Result<Sequence<Mark>, AllocError>
    ensures { IfOk result (λ marks. marks ≡ spec.wanted_of func registers.now) }
{
    let mut marks = Vec::new(alloc);
    for register in registers {
        marks.push(Mark::Wanted(func, *register))?;
    }
    Ok(Sequence::from_vec(marks))
}

fn needed_if(alloc: Global, location: Option<Location>) -> Result<Sequence<Mark>, AllocError>
    ensures { IfOk result (λ marks. marks ≡ spec.needed_if location) }
{
    match location {
        Some(location) => Sequence::of_one(alloc, Mark::Needed(location)),
        None => Ok(Sequence::new(alloc)),
    }
}

fn holds_if(alloc: Global, called: Option<FuncId>) -> Result<Sequence<Mark>, AllocError>
    ensures { IfOk result (λ marks. marks ≡ spec.holds_if called) }
{
    match called {
        Some(called) => Sequence::of_one(alloc, Mark::Holds(called)),
        None => Ok(Sequence::new(alloc)),
    }
}

fn returns_if(alloc: Global, func: FuncId, returns: bool) -> Result<Sequence<Mark>, AllocError>
    ensures { IfOk result (λ marks. marks ≡ spec.returns_if func returns) }
{
    if returns {
        return Sequence::of_one(alloc, Mark::Returns(func));
    }
    Ok(Sequence::new(alloc))
}

fn input_if(alloc: Global, reads: bool) -> Result<Sequence<Mark>, AllocError>
    ensures { IfOk result (λ marks. marks ≡ spec.input_if reads) }
{
    if reads {
        return Sequence::of_one(alloc, Mark::Needed(Location::Input));
    }
    Ok(Sequence::new(alloc))
}

/// The cells that a node writes.
fn written_of(
    alloc: Global,
    sets: &PointsTo,
    func: FuncId,
    node: &Node,
) -> Result<Sequence<Mark>, AllocError>
    ensures { IfOk result (λ marks. marks ≡ spec.written_of sets.now func node.now) }
{
    let written = sites_if(alloc, sets, func, written_through(node))?;
    cells_of(alloc, written.as_slice())
}

/// The lives that a node ends.
fn freed_of(
    alloc: Global,
    program: &ProgramData,
    sets: &PointsTo,
    func: FuncId,
    node: &Node,
) -> Result<Sequence<Mark>, AllocError>
    ensures { IfOk result (λ marks. marks ≡ spec.freed_of program.now sets.now func node.now) }
{
    let freed = sites_if(alloc, sets, func, freed_by(node))?;
    let made = malloc_sites(alloc, program, freed.as_slice())?;
    lives_of(alloc, made.as_slice())
}

/// The locations that a node changes.
fn changes_of(
    alloc: Global,
    program: &ProgramData,
    sets: &PointsTo,
    func: FuncId,
    at: NodeId,
    node: &Node,
) -> Result<Sequence<Mark>, AllocError>
    ensures { IfOk result (λ marks. marks ≡ spec.changes_of program.now sets.now func at node.now) }
{
    let mut marks = needed_if(alloc, changed_by(func, at, node))?;
    marks.append(written_of(alloc, sets, func, node)?)?;
    marks.append(freed_of(alloc, program, sets, func, node)?)?;
    Ok(marks)
}

/// The registers that a node sets.
fn set_by(alloc: Global, func: FuncId, node: &Node) -> Result<Sequence<Mark>, AllocError>
    ensures { IfOk result (λ marks. marks ≡ spec.wanted_of func (results_of node.now)) }
{
    let set = results(alloc, node)?;
    wanted_of(alloc, func, set.as_slice())
}

/// What a node is retained for.
fn causes_of(
    alloc: Global,
    program: &ProgramData,
    sets: &PointsTo,
    func: FuncId,
    at: NodeId,
    node: &Node,
) -> Result<Sequence<Mark>, AllocError>
    ensures { IfOk result (λ marks. marks ≡ spec.causes_of program.now sets.now func at node.now) }
{
    let mut marks = changes_of(alloc, program, sets, func, at, node)?;
    marks.append(holds_if(alloc, callee(node))?)?;
    marks.append(set_by(alloc, func, node)?)?;
    marks.append(returns_if(alloc, func, is_return(node))?)?;
    Ok(marks)
}

/// The registers that a node reads.
fn read_by(alloc: Global, func: FuncId, node: &Node) -> Result<Sequence<Mark>, AllocError>
    ensures { IfOk result (λ marks. marks ≡ spec.wanted_of func (reads node.now)) }
{
    let read = registers_read(alloc, node)?;
    wanted_of(alloc, func, read.as_slice())
}

/// The cells that a node reads.
fn cells_read(
    alloc: Global,
    sets: &PointsTo,
    func: FuncId,
    node: &Node,
) -> Result<Sequence<Mark>, AllocError>
    ensures { IfOk result (λ marks. marks ≡ spec.cells_of (spec.sites_if sets.now func (reads_at node.now))) }
{
    let cells = sites_if(alloc, sets, func, read_through(node))?;
    cells_of(alloc, cells.as_slice())
}

/// The lives of what a node accesses or frees.
fn lives_needed(
    alloc: Global,
    sets: &PointsTo,
    func: FuncId,
    node: &Node,
) -> Result<Sequence<Mark>, AllocError>
    ensures { IfOk result (λ marks. marks ≡ spec.lives_of (flat_map (spec.sites_of sets.now func) (needs_alive node.now))) }
{
    let pointers = used_alive(alloc, node)?;
    let alive = sites_of_all(alloc, sets, func, pointers.as_slice())?;
    lives_of(alloc, alive.as_slice())
}

/// What follows if a node is retained.
fn effects_of(
    alloc: Global,
    sets: &PointsTo,
    func: FuncId,
    node: &Node,
) -> Result<Sequence<Mark>, AllocError>
    ensures { IfOk result (λ marks. marks ≡ spec.effects_of sets.now func node.now) }
{
    let mut marks = Sequence::of_one(alloc, Mark::Holds(func))?;
    marks.append(read_by(alloc, func, node)?)?;
    marks.append(cells_read(alloc, sets, func, node)?)?;
    marks.append(lives_needed(alloc, sets, func, node)?)?;
    marks.append(input_if(alloc, reads_input(node))?)?;
    Ok(marks)
}

/// The callee's returns are retained where a call's register is wanted.
fn received(
    alloc: Global,
    func: FuncId,
    called: Option<FuncId>,
    register: Option<RegId>,
) -> Result<Sequence<Link>, AllocError>
    ensures { IfOk result (λ links. links ≡ spec.received func called register) }
{
    match (called, register) {
        (Some(called), Some(register)) => Sequence::of_one(
            alloc,
            Link {
                from: Mark::Wanted(func, register),
                to: Mark::Returns(called),
            },
        ),
        _ => Ok(Sequence::new(alloc)),
    }
}

fn all_from(alloc: Global, from: Mark, marks: &[Mark]) -> Result<Sequence<Link>, AllocError>
    ensures { IfOk result (λ links. links ≡ spec.all_from from marks.now) }
{
    let mut links = Vec::new(alloc);
    for to in marks {
        links.push(Link { from, to: *to })?;
    }
    Ok(Sequence::from_vec(links))
}

fn all_to(alloc: Global, to: Mark, marks: &[Mark]) -> Result<Sequence<Link>, AllocError>
    ensures { IfOk result (λ links. links ≡ spec.all_to to marks.now) }
{
    let mut links = Vec::new(alloc);
    for from in marks {
        links.push(Link { from: *from, to })?;
    }
    Ok(Sequence::from_vec(links))
}

/// What follows from that a node is retained.
fn to_effects(
    alloc: Global,
    sets: &PointsTo,
    func: FuncId,
    at: NodeId,
    node: &Node,
) -> Result<Sequence<Link>, AllocError>
    ensures { IfOk result (λ links. links ≡ spec.all_from (mark.Kept func at) (spec.effects_of sets.now func node.now)) }
{
    let effects = effects_of(alloc, sets, func, node)?;
    all_from(alloc, Mark::Kept(func, at), effects.as_slice())
}

/// What a node's being retained follows from.
fn from_causes(
    alloc: Global,
    program: &ProgramData,
    sets: &PointsTo,
    func: FuncId,
    at: NodeId,
    node: &Node,
) -> Result<Sequence<Link>, AllocError>
    ensures { IfOk result (λ links. links ≡ spec.all_to (mark.Kept func at) (spec.causes_of program.now sets.now func at node.now)) }
{
    let causes = causes_of(alloc, program, sets, func, at, node)?;
    all_to(alloc, Mark::Kept(func, at), causes.as_slice())
}

/// What follows from what by one node.
fn links_of(
    alloc: Global,
    program: &ProgramData,
    sets: &PointsTo,
    func: FuncId,
    at: NodeId,
    node: &Node,
) -> Result<Sequence<Link>, AllocError>
    ensures { IfOk result (λ links. links ≡ spec.links_of program.now sets.now func at node.now) }
{
    let mut links = received(alloc, func, callee(node), call_result(node))?;
    links.append(to_effects(alloc, sets, func, at, node)?)?;
    links.append(from_causes(alloc, program, sets, func, at, node)?)?;
    Ok(links)
}

/// What follows from what by the nodes of a function.
fn links_from(
    alloc: Global,
    program: &ProgramData,
    sets: &PointsTo,
    func: FuncId,
    nodes: &[Node],
) -> Result<Sequence<Link>, AllocError>
    requires { length nodes.now ≤ 2 ^ 32 }
    ensures { IfOk result (λ links. links ≡ spec.links_from program.now sets.now func 0 nodes.now) }
{
    let mut links = Sequence::new(alloc);
    for n in 0..nodes.len() {
        links.append(links_of(alloc, program, sets, func, NodeId(n as u32), &nodes[n])?)?;
    }
    Ok(links)
}

fn links_if(
    alloc: Global,
    looked: bool,
    program: &ProgramData,
    sets: &PointsTo,
    func: FuncId,
    nodes: &[Node],
) -> Result<Sequence<Link>, AllocError>
    requires { length nodes.now ≤ 2 ^ 32 }
    ensures { IfOk result (λ links. links ≡ spec.links_if looked program.now sets.now func nodes.now) }
{
    if looked {
        return links_from(alloc, program, sets, func, nodes);
    }
    Ok(Sequence::new(alloc))
}

/// What follows from what by the nodes of the functions of a set.
pub fn links(
    alloc: Global,
    program: &ProgramData,
    sets: &PointsTo,
    looked: &[bool],
) -> Result<Sequence<Link>, AllocError>
    requires whole { IsWhole program.now }
    requires looked { length looked.now ≡ length program.now.funcs }
    ensures { IfOk result (λ links. links ≡ spec.links program.now sets.now looked.now) }
{
    let mut links = Sequence::new(alloc);
    let funcs = program.funcs.as_slice();
    for f in 0..funcs.len() {
        let nodes = funcs[f].nodes.as_slice();
        links.append(links_if(alloc, looked[f], program, sets, FuncId(f as u32), nodes)?)?;
    }
    Ok(links)
}
