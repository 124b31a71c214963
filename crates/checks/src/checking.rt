//! The first place where a condition fails.
ghost use Rattle.std.specs.Prelude.{◌↔◌, ◌<◌, ◌≤◌, ◌^◌, All, length, IfOk, IsTrue, MatchOption};
ghost use Rattle.std.specs.List.{Contains};
ghost use Rattle.checks.specs.Errors as spec;
ghost use Rattle.checks.specs.Laws.{FirstIsOne, NotBoth};
ghost use Rattle.checks.specs.Steps.{IsOwn, Tells, ReadsAt, CleanBelow, FoundAt};
ghost use Rattle.flow.specs.Paths.{node_of};

use crate::typed::is_typed;
use flat_ir::{CheckError, Func, FuncId, NodeId, Program, RegId};
use flow::{Undefined, first_undefined};
use std::alloc::{AllocError, Global};

fn is_among(nodes: &[NodeId], node: NodeId) -> bool
    ensures { IsTrue result ↔ Contains nodes.now node }
{
    nodes.contains(&node)
}

/// Whether types clash at a node.
fn clashes(funcs: &[Func], func: &Func, node: usize) -> bool
    requires there { node < length func.now.nodes }
    requires few { length func.now.nodes ≤ 2 ^ 32 }
    ensures { IsTrue result ↔ spec.IsClash funcs.now func.now (node_of node) }
{
    if is_among(func.clashes.as_slice(), NodeId(node as u32)) {
        return true;
    }
    let node = &func.nodes.as_slice()[node];
    !is_typed(funcs, func.regs.as_slice(), func.result, node)
}

/// The register of the first undefined place, if it stands at this node.
fn undefined_at(told: Option<Undefined>, node: u32) -> Option<RegId>
    ensures { ReadsAt told node result }
{
    match told {
        Some(first) => {
            if first.node.0 == node {
                Some(first.register)
            } else {
                None
            }
        }
        None => None,
    }
}

/// The first condition that fails at a node.
fn fails_at(
    funcs: &[Func],
    function: FuncId,
    func: &Func,
    node: usize,
    told: Option<Undefined>,
) -> Option<CheckError>
    requires there { node < length func.now.nodes }
    requires few { length func.now.nodes ≤ 2 ^ 32 }
    requires tells { Tells func.now told }
    requires below { CleanBelow funcs.now func.now node }
    ensures { FoundAt funcs.now function func.now node result }
{
    let at = NodeId(node as u32);
    if clashes(funcs, func, node) {
        return Some(CheckError::TypeClash { function, node: at });
    }
    match undefined_at(told, at.0) {
        Some(register) => {
            return Some(CheckError::Undefined {
                function,
                node: at,
                register,
            });
        }
        None => {}
    }
    if is_among(func.bad_edges.as_slice(), at) {
        return Some(CheckError::BadEdge { function, node: at });
    }
    None
}

/// The first node of a function at which a condition fails.
fn first_in(
    alloc: Global,
    funcs: &[Func],
    function: FuncId,
    func: &Func,
) -> Result<Option<CheckError>, AllocError>
    requires { IsOwn func.now }
    ensures { IfOk result (λ found. MatchOption found (spec.IsCleanFunc funcs.now func.now) (spec.IsFirstIn funcs.now function func.now)) }
{
    let told = first_undefined(alloc, func)?;
    for node in 0..func.nodes.len() {
        match fails_at(funcs, function, func, node, told) {
            Some(failed) => return Ok(Some(failed)),
            None => {}
        }
    }
    Ok(None)
}

/// The first of the functions in which a condition fails, and its first node.
fn first_among(alloc: Global, funcs: &[Func]) -> Result<Option<CheckError>, AllocError>
    requires own { All IsOwn funcs.now }
    requires few { length funcs.now ≤ 2 ^ 32 }
    ensures { IfOk result (λ found. MatchOption found (spec.IsChecked funcs.now) (spec.IsFirstOf funcs.now)) }
{
    for at in 0..funcs.len() {
        let found = first_in(alloc, funcs, FuncId(at as u32), &funcs[at])?;
        match found {
            Some(failed) => return Ok(Some(failed)),
            None => {}
        }
    }
    Ok(None)
}

/// The first place, by function and node, at which a program doesn't meet its conditions; `None` exactly where it meets
/// all of them. At one node a clash of types comes before a register that may not be set, and that before a bad edge;
/// of several registers the first in the order of the node's operands is told.
///
/// # Errors
///
/// `AllocError` if memory runs out.
pub fn check(alloc: Global, program: &Program) -> Result<Option<CheckError>, AllocError>
    ensures { IfOk result (λ found. MatchOption found (spec.IsChecked program.now.funcs) (spec.IsFirstOf program.now.funcs)) }
{
    first_among(alloc, program.parts().funcs.as_slice())
}

/// At most one place is the first at which a condition fails, and a program that meets all of them has none: so the
/// clause of `check` fixes its answer.
pub fn first_place_is_one()
    ensures one { FirstIsOne }
    ensures checked { NotBoth }
{}
