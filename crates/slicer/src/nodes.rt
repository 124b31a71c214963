//! What a node reads and whether it returns.
ghost use Rattle.std.specs.Prelude.{◌≡◌, IfOk};
ghost use Rattle.flat_ir.specs.Steps as steps;
ghost use Rattle.slices.specs.Nodes as spec;

use flat_ir::{Node, Operand, RegId};
use plain_list::Sequence;
use std::alloc::{AllocError, Global};

/// The pointer that a node reads through.
pub fn read_through(node: &Node) -> Option<Operand>
    ensures { result ≡ spec.read_through node.now }
{
    match node {
        Node::Load { pointer, .. } => Some(*pointer),
        Node::Copy { from, .. } => Some(*from),
        _ => None,
    }
}

/// The pointers whose objects a node needs alive.
pub fn used_alive(alloc: Global, node: &Node) -> Result<Sequence<Operand>, AllocError>
    ensures { IfOk result (λ pointers. pointers ≡ spec.used_alive node.now) }
{
    match node {
        Node::Load { pointer, .. } => Sequence::of_one(alloc, *pointer),
        Node::Store { pointer, .. } => Sequence::of_one(alloc, *pointer),
        Node::Copy { from, to, .. } => Sequence::from_slice(alloc, &[*from, *to]),
        Node::Free { pointer, .. } => Sequence::of_one(alloc, *pointer),
        _ => Ok(Sequence::new(alloc)),
    }
}

/// Whether a node reads a byte of the input.
pub fn reads_input(node: &Node) -> bool
    ensures { result ≡ spec.reads_input node.now }
{
    match node {
        Node::In { .. } => true,
        _ => false,
    }
}

/// Whether a node ends its frame.
pub fn is_return(node: &Node) -> bool
    ensures { result ≡ spec.is_return node.now }
{
    match node {
        Node::Ret { .. } => true,
        _ => false,
    }
}

/// The register that a call sets, if it sets one.
pub fn call_result(node: &Node) -> Option<RegId>
    ensures { result ≡ steps.call_result node.now }
{
    match node {
        Node::Call { result, .. } => *result,
        _ => None,
    }
}
