//! What the nodes of a function read, set and lead to, as lists.
ghost use Rattle.std.specs.Prelude.{◌≡◌, ◌∷◌, [], ◌++◌, map, IfOk};
ghost use Rattle.std.specs.List.{flat_map};
ghost use Rattle.std.specs.Option.{option_to_list};
ghost use Rattle.flat_ir.specs.Whole.{operands_of, results_of, successors_of};
ghost use Rattle.flow.specs.Flow.{reads, read_by};
ghost use Rattle.flow.specs.Paths.{row_of};

use flat_ir::{Func, GepPart, MoveSet, Node, NodeId, Operand, RegId, SwitchCase};
use plain_list::Sequence;
use std::alloc::{AllocError, Global};

/// The numbers of the nodes that a switch leads to.
fn switch_row(
    alloc: Global,
    cases: &[SwitchCase],
    default: NodeId,
) -> Result<Sequence<u32>, AllocError>
    ensures { IfOk result (λ row. row ≡ map (λ c. c.to.0) cases.now ++ default.0 ∷ []) }
{
    let mut row = Vec::new(alloc);
    for case in cases {
        row.push(case.to.0)?;
    }
    row.push(default.0)?;
    Ok(Sequence::from_vec(row))
}

/// The numbers of the nodes that a node leads to.
pub fn row(alloc: Global, node: &Node) -> Result<Sequence<u32>, AllocError>
    ensures { IfOk result (λ row. row ≡ row_of node.now) }
{
    match node {
        Node::Bin { next, .. }
        | Node::Cmp { next, .. }
        | Node::Cast { next, .. }
        | Node::Gep { next, .. }
        | Node::Select { next, .. }
        | Node::Alloca { next, .. }
        | Node::Malloc { next, .. }
        | Node::Free { next, .. }
        | Node::Load { next, .. }
        | Node::Store { next, .. }
        | Node::Copy { next, .. }
        | Node::In { next, .. }
        | Node::Put { next, .. }
        | Node::Call { next, .. }
        | Node::Moves { next, .. }
        | Node::Jump { next } => Sequence::of_one(alloc, next.0),
        Node::Branch { yes, no, .. } => Sequence::from_slice(alloc, &[yes.0, no.0]),
        Node::Switch { cases, default, .. } => switch_row(alloc, cases.as_slice(), *default),
        Node::Ret { .. }
        | Node::Exit { .. }
        | Node::Abort
        | Node::Assert { .. }
        | Node::Unreachable => { Ok(Sequence::new(alloc)) }
    }
}

/// The numbers of the nodes that each node leads to.
pub fn rows(alloc: Global, nodes: &[Node]) -> Result<Sequence<Sequence<u32>>, AllocError>
    ensures { IfOk result (λ rows. rows ≡ map row_of nodes.now) }
{
    let mut rows = Vec::new(alloc);
    for node in nodes {
        rows.push(row(alloc, node)?)?;
    }
    Ok(Sequence::from_vec(rows))
}

/// The register that is set, if there is one.
fn at_most_one(alloc: Global, register: Option<RegId>) -> Result<Sequence<RegId>, AllocError>
    ensures { IfOk result (λ registers. registers ≡ option_to_list register) }
{
    match register {
        Some(register) => Sequence::of_one(alloc, register),
        None => Ok(Sequence::new(alloc)),
    }
}

/// The registers that are set together.
fn moved(alloc: Global, sets: &[MoveSet]) -> Result<Sequence<RegId>, AllocError>
    ensures { IfOk result (λ registers. registers ≡ map (λ s. s.register) sets.now) }
{
    let mut registers = Vec::new(alloc);
    for set in sets {
        registers.push(set.register)?;
    }
    Ok(Sequence::from_vec(registers))
}

/// The registers that a node sets.
pub fn results(alloc: Global, node: &Node) -> Result<Sequence<RegId>, AllocError>
    ensures { IfOk result (λ registers. registers ≡ results_of node.now) }
{
    match node {
        Node::Bin { result, .. }
        | Node::Cmp { result, .. }
        | Node::Cast { result, .. }
        | Node::Gep { result, .. }
        | Node::Select { result, .. }
        | Node::Alloca { result, .. }
        | Node::Load { result, .. }
        | Node::In { result, .. } => Sequence::of_one(alloc, *result),
        Node::Malloc { result, .. } | Node::Call { result, .. } => at_most_one(alloc, *result),
        Node::Moves { sets, .. } => moved(alloc, sets.as_slice()),
        Node::Free { .. }
        | Node::Store { .. }
        | Node::Copy { .. }
        | Node::Put { .. }
        | Node::Jump { .. }
        | Node::Branch { .. }
        | Node::Switch { .. }
        | Node::Ret { .. }
        | Node::Exit { .. }
        | Node::Abort
        | Node::Assert { .. }
        | Node::Unreachable => Ok(Sequence::new(alloc)),
    }
}

/// The registers that each node sets.
pub fn results_of_each(
    alloc: Global,
    nodes: &[Node],
) -> Result<Sequence<Sequence<RegId>>, AllocError>
    ensures { IfOk result (λ each. each ≡ map results_of nodes.now) }
{
    let mut each = Vec::new(alloc);
    for node in nodes {
        each.push(results(alloc, node)?)?;
    }
    Ok(Sequence::from_vec(each))
}
