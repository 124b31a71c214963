//! The functions that change a location by themselves.
ghost use Rattle.std.specs.Prelude.{◌≡◌, ◌<◌, ◌≤◌, ◌^◌, length, IfOk, vec_len, Some};
ghost use Rattle.std.specs.List.{Contains, AllByRecursion as Each};
ghost use Rattle.flat_ir.specs.Machine as machine;
ghost use Rattle.flat_ir.specs.Whole.{IsWhole, OperandIn, operands_of};
ghost use Rattle.flat_ir.specs.Steps as steps;
ghost use Rattle.points_to.specs.Asked.{holder_in};
ghost use Rattle.points_to.specs.Points as points;
ghost use Rattle.points_to.specs.Sets.{ArePointsTo};
ghost use Rattle.mod_ref.specs.Changes as spec;
ghost use Rattle.mod_ref.specs.Callers.{func, AreOwn, ChangesItself, Frees, Tells, Writes};

use flat_ir::{Func, FuncId, Location, Node, NodeId, Operand, ProgramData, Site};
use points_to::PointsTo;
use std::alloc::{AllocError, Global};

/// What a node changes whatever its operands are.
pub fn changed_by(func: FuncId, at: NodeId, node: &Node) -> Option<Location>
    ensures { result ≡ spec.changed_by func at node.now }
{
    match node {
        Node::Alloca { .. } | Node::Malloc { .. } => Some(Location::Life(Site::Node(func, at))),
        Node::In { .. } => Some(Location::Input),
        Node::Put { .. } => Some(Location::Output),
        _ => None,
    }
}

/// The pointer that a node writes through.
pub fn written_through(node: &Node) -> Option<Operand>
    ensures { result ≡ spec.written_through node.now }
{
    match node {
        Node::Store { pointer, .. } => Some(*pointer),
        Node::Copy { to, .. } => Some(*to),
        _ => None,
    }
}

/// The pointer that a node frees.
pub fn freed_by(node: &Node) -> Option<Operand>
    ensures { result ≡ spec.freed_by node.now }
{
    match node {
        Node::Free { pointer, .. } => Some(*pointer),
        _ => None,
    }
}

fn has_site(sites: &[Site], site: Site) -> bool
    ensures { Tells result (Contains sites.now site) }
{
    'each: for found in sites {
        if *found == site {
            return true;
        }
    }
    false
}

fn is_site(a: Site, b: Site) -> bool
    ensures { Tells result (a ≡ b) }
{
    a == b
}

fn is_there(found: Option<Location>, location: Location) -> bool
    ensures { Tells result (found ≡ Some location) }
{
    found == Some(location)
}

/// Whether a pointer may point to objects of the site.
fn may_point(
    program: &ProgramData,
    sets: &PointsTo,
    from: FuncId,
    pointer: Operand,
    site: Site,
) -> bool
    requires whole { IsWhole program.now }
    requires sets { ArePointsTo program.now sets.now }
    requires operand { OperandIn (length program.now.globals) (length (machine.regs_of (machine.func_at program.now from))) pointer }
    ensures { Tells result (points.PointsTo program.now (holder_in from pointer) site) }
{
    match pointer {
        Operand::Reg(register) => has_site(sets.of_reg(from, register), site),
        Operand::Global { global, .. } => is_site(site, Site::Global(global)),
        Operand::Int(_) => false,
        Operand::Null => false,
    }
}

/// Whether a node writes through a pointer to the location.
fn writes(
    program: &ProgramData,
    sets: &PointsTo,
    from: FuncId,
    node: &Node,
    location: Location,
) -> bool
    requires whole { IsWhole program.now }
    requires sets { ArePointsTo program.now sets.now }
    requires operands { Each (OperandIn (length program.now.globals) (length (machine.regs_of (machine.func_at program.now from)))) (operands_of node.now) }
    ensures { Tells result (Writes program.now from node.now location) }
{
    let Location::Cells(site) = location else {
        return false;
    };
    match written_through(node) {
        Some(pointer) => may_point(program, sets, from, pointer, site),
        None => false,
    }
}

/// The nodes of a function, none where there is no such function.
pub fn nodes_of(program: &ProgramData, from: FuncId) -> &[Node]
    ensures { result.now ≡ machine.nodes_of (machine.func_at program.now from) }
{
    match program.funcs.get(from.0 as usize) {
        None => &[],
        Some(func) => func.nodes.as_slice(),
    }
}

fn is_malloc(node: &Node) -> bool
    ensures { result ≡ steps.is_malloc node.now }
{
    match node {
        Node::Malloc { .. } => true,
        _ => false,
    }
}

/// Whether the objects of a site may be freed.
pub fn is_malloc_site(program: &ProgramData, site: Site) -> bool
    ensures { result ≡ spec.is_malloc_site program.now site }
{
    match site {
        Site::Global(_) => false,
        Site::Node(func, node) => match nodes_of(program, func).get(node.0 as usize) {
            None => false,
            Some(node) => is_malloc(node),
        },
    }
}

/// Whether a node frees an object whose life the location is.
fn frees(
    program: &ProgramData,
    sets: &PointsTo,
    from: FuncId,
    node: &Node,
    location: Location,
) -> bool
    requires whole { IsWhole program.now }
    requires sets { ArePointsTo program.now sets.now }
    requires operands { Each (OperandIn (length program.now.globals) (length (machine.regs_of (machine.func_at program.now from)))) (operands_of node.now) }
    ensures { Tells result (Frees program.now from node.now location) }
{
    let Location::Life(site) = location else {
        return false;
    };
    if !is_malloc_site(program, site) {
        return false;
    }
    match freed_by(node) {
        Some(pointer) => may_point(program, sets, from, pointer, site),
        None => false,
    }
}

/// Whether a node changes the location by itself.
fn changes(
    program: &ProgramData,
    sets: &PointsTo,
    from: FuncId,
    at: NodeId,
    node: &Node,
    location: Location,
) -> bool
    requires whole { IsWhole program.now }
    requires sets { ArePointsTo program.now sets.now }
    requires here { machine.node_at program.now from at ≡ node.now }
    ensures { Tells result (spec.ChangesAt program.now from at location) }
{
    if is_there(changed_by(from, at, node), location) {
        return true;
    }
    if writes(program, sets, from, node, location) {
        return true;
    }
    frees(program, sets, from, node, location)
}

/// Whether a node of the function changes the location by itself.
fn changes_itself(program: &ProgramData, sets: &PointsTo, from: FuncId, location: Location) -> bool
    requires whole { IsWhole program.now }
    requires sets { ArePointsTo program.now sets.now }
    ensures { Tells result (ChangesItself program.now location from) }
{
    let nodes = nodes_of(program, from);
    'each: for n in 0..nodes.len() {
        if changes(program, sets, from, NodeId(n as u32), &nodes[n], location) {
            return true;
        }
    }
    false
}

/// The functions that change a location by themselves.
pub(crate) fn own(
    alloc: Global,
    program: &ProgramData,
    sets: &PointsTo,
    location: Location,
) -> Result<Vec<bool>, AllocError>
    requires whole { IsWhole program.now }
    requires sets { ArePointsTo program.now sets.now }
    ensures own { IfOk result (λ own. AreOwn program.now location own.items) }
    ensures len { IfOk result (λ own. vec_len own ≡ length program.now.funcs) }
{
    let mut own = Vec::new(alloc);
    'each: for f in 0..program.funcs.len() {
        own.push(changes_itself(program, sets, FuncId(f as u32), location))?;
    }
    Ok(own)
}
