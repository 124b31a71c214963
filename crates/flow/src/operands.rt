//! The registers that a node reads.
ghost use Rattle.std.specs.Prelude.{◌≡◌, ◌∷◌, [], ◌++◌, map, OnOk, IfOk};
ghost use Rattle.std.specs.List.{flat_map};
ghost use Rattle.std.specs.Option.{option_to_list};
ghost use Rattle.flat_ir.specs.Whole.{operands_of, operands_of_part};
ghost use Rattle.flow.specs.Flow.{reads, read_by};

use flat_ir::{GepPart, MoveSet, Node, Operand, RegId};
use plain_list::Sequence;
use std::alloc::{AllocError, Global};

/// Adds the operand of a pointer's part.
fn push_part(operands: &mut Vec<Operand>, part: &GepPart) -> Result<(), AllocError>
    ensures { OnOk result (operands.new.items ≡ operands.old.items ++ operands_of_part part.now) }
{
    if let GepPart::Index { index, .. } = part {
        operands.push(*index)?;
    }
    Ok(())
}

/// A pointer, and the operands of its parts.
fn pointer_operands(
    alloc: Global,
    base: Operand,
    parts: &[GepPart],
) -> Result<Sequence<Operand>, AllocError>
    ensures { IfOk result (λ operands. operands ≡ base ∷ flat_map operands_of_part parts.now) }
{
    let mut operands = Vec::new(alloc);
    operands.push(base)?;
    for part in parts {
        push_part(&mut operands, part)?;
    }
    Ok(Sequence::from_vec(operands))
}

/// The values that registers are set to.
fn moved(alloc: Global, sets: &[MoveSet]) -> Result<Sequence<Operand>, AllocError>
    ensures { IfOk result (λ operands. operands ≡ map (λ s. s.value) sets.now) }
{
    let mut operands = Vec::new(alloc);
    for set in sets {
        operands.push(set.value)?;
    }
    Ok(Sequence::from_vec(operands))
}

/// The value that is returned, if there is one.
fn returned(alloc: Global, value: Option<Operand>) -> Result<Sequence<Operand>, AllocError>
    ensures { IfOk result (λ operands. operands ≡ option_to_list value) }
{
    match value {
        Some(value) => Sequence::of_one(alloc, value),
        None => Ok(Sequence::new(alloc)),
    }
}

/// The operands of a node, in the order written.
fn operands(alloc: Global, node: &Node) -> Result<Sequence<Operand>, AllocError>
    ensures { IfOk result (λ operands. operands ≡ operands_of node.now) }
{
    match node {
        Node::Bin { a, b, .. } | Node::Cmp { a, b, .. } => Sequence::from_slice(alloc, &[*a, *b]),
        Node::Gep { base, parts, .. } => pointer_operands(alloc, *base, parts.as_slice()),
        Node::Select {
            condition,
            a,
            b,
            ..
        } => Sequence::from_slice(alloc, &[*condition, *a, *b]),
        Node::Store { value, pointer, .. } => Sequence::from_slice(alloc, &[*value, *pointer]),
        Node::Copy { from, to, .. } => Sequence::from_slice(alloc, &[*from, *to]),
        Node::Call { args, .. } | Node::Assert { args } => args.copy(alloc),
        Node::Moves { sets, .. } => moved(alloc, sets.as_slice()),
        Node::Ret { value } => returned(alloc, *value),
        Node::Cast { a, .. } => Sequence::of_one(alloc, *a),
        Node::Malloc { size, .. } => Sequence::of_one(alloc, *size),
        Node::Free { pointer, .. } | Node::Load { pointer, .. } => {
            Sequence::of_one(alloc, *pointer)
        }
        Node::Put { value, .. } | Node::Switch { value, .. } => Sequence::of_one(alloc, *value),
        Node::Branch { condition, .. } => Sequence::of_one(alloc, *condition),
        Node::Exit { status } => Sequence::of_one(alloc, *status),
        Node::Alloca { .. }
        | Node::In { .. }
        | Node::Jump { .. }
        | Node::Abort
        | Node::Unreachable => Ok(Sequence::new(alloc)),
    }
}

/// Adds the register that an operand reads.
fn push_read(registers: &mut Vec<RegId>, operand: &Operand) -> Result<(), AllocError>
    ensures { OnOk result (registers.new.items ≡ registers.old.items ++ read_by operand.now) }
{
    if let Operand::Reg(register) = operand {
        registers.push(*register)?;
    }
    Ok(())
}

/// The registers that operands read, in their order.
fn registers_in(alloc: Global, operands: &[Operand]) -> Result<Sequence<RegId>, AllocError>
    ensures { IfOk result (λ registers. registers ≡ flat_map read_by operands.now) }
{
    let mut registers = Vec::new(alloc);
    for operand in operands {
        push_read(&mut registers, operand)?;
    }
    Ok(Sequence::from_vec(registers))
}

/// The registers that a node reads, in the order of its operands.
pub fn registers_read(alloc: Global, node: &Node) -> Result<Sequence<RegId>, AllocError>
    ensures { IfOk result (λ registers. registers ≡ reads node.now) }
{
    let operands = operands(alloc, node)?;
    registers_in(alloc, operands.as_slice())
}
