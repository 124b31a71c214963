//! The parts that the bodies are made of.
ghost use Rattle.std.specs.Prelude.{◌≡◌, ◌<◌, ◌^◌, IfOk};
ghost use Rattle.bitnum.specs.Number.{IsWidth};
ghost use Rattle.prelude.specs.Shapes as spec;

use bitnum::Num;
use flat_ir::{Func, GepPart, MoveSet, Node, NodeId, Operand, RegId, RegType};
use plain_list::Sequence;
use std::alloc::{AllocError, Global};

pub fn reg(register: u32) -> Operand
    ensures { result ≡ spec.reg register }
{
    Operand::Reg(RegId(register))
}

/// A number of so many bits.
pub fn int(width: u8, bits: u64) -> Operand
    requires width_is { IsWidth width }
    requires fits { bits < 2 ^ width }
    ensures { result ≡ spec.int width bits }
{
    Operand::Int(Num::new(width, bits))
}

/// So many bytes behind a pointer.
pub fn behind(
    alloc: Global,
    base: Operand,
    count: Operand,
    register: u32,
    next: u32,
) -> Result<Node, AllocError>
    ensures { IfOk result (λ node. node ≡ spec.behind base count register next) }
{
    let part = GepPart::Index {
        scale: 1,
        index: count,
    };
    Ok(Node::Gep {
        base,
        parts: Sequence::of_one(alloc, part)?,
        result: RegId(register),
        next: NodeId(next),
    })
}

/// What a phi has on one edge.
pub fn moves(alloc: Global, register: u32, value: Operand, next: u32) -> Result<Node, AllocError>
    ensures { IfOk result (λ node. node ≡ spec.moves register value next) }
{
    let set = MoveSet {
        register: RegId(register),
        value,
    };
    Ok(Node::Moves {
        sets: Sequence::of_one(alloc, set)?,
        next: NodeId(next),
    })
}

/// An empty name for each register.
fn no_names(alloc: Global, regs: &[RegType]) -> Result<Sequence<Sequence<u8>>, AllocError>
    ensures { IfOk result (λ names. names ≡ spec.no_names regs.now) }
{
    let mut names = Vec::new(alloc);
    for _reg in regs {
        names.push(Sequence::new(alloc))?;
    }
    Ok(Sequence::from_vec(names))
}

/// A function whose registers have no names, the parameters first among them.
pub fn func(
    alloc: Global,
    name: &[u8],
    params: u32,
    regs: &[RegType],
    returned: Option<RegType>,
    nodes: Vec<Node>,
) -> Result<Func, AllocError>
    ensures { IfOk result (λ f. f ≡ spec.func name.now params regs.now returned nodes.items) }
{
    Ok(Func {
        name: Sequence::from_slice(alloc, name)?,
        params,
        regs: Sequence::from_slice(alloc, regs)?,
        reg_names: no_names(alloc, regs)?,
        result: returned,
        nodes: Sequence::from_vec(nodes),
        clashes: Sequence::new(alloc),
        bad_edges: Sequence::new(alloc),
    })
}
