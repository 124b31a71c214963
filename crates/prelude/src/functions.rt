//! The functions that have a body.
ghost use Rattle.std.specs.Prelude.{◌≡◌, ◌<◌, Some, slice_get, IfOk};
ghost use Rattle.prelude.specs.Functions as spec;
ghost use Rattle.prelude.specs.Prelude.{functions as all};

use crate::copying::{memcpy, memcpy_intrinsic, memset, memset_intrinsic};
use crate::shapes::{behind, func, int, moves, reg};
use bitnum::{BinOp, Pred};
use flat_ir::{CastOp, Func, FuncId, Node, NodeId, Operand, RegId, RegType};
use std::alloc::{AllocError, Global};

fn getchar(alloc: Global) -> Result<Func, AllocError>
    ensures { IfOk result (λ f. f ≡ spec.getchar) }
{
    let nodes = vec![in alloc;
        Node::In {
            result: RegId(0),
            next: NodeId(1)
        },
        Node::Ret {
            value: Some(reg(0))
        },
    ]?;
    let int = RegType::Int(32);
    func(alloc, b"getchar", 0, &[int], Some(int), nodes)
}

fn putchar(alloc: Global) -> Result<Func, AllocError>
    ensures { IfOk result (λ f. f ≡ spec.putchar) }
{
    let nodes = vec![in alloc;
        Node::Put {
            value: reg(0),
            next: NodeId(1)
        },
        Node::Bin {
            op: BinOp::And,
            a: reg(0),
            b: int(32, 255),
            result: RegId(1),
            next: NodeId(2)
        },
        Node::Ret {
            value: Some(reg(1))
        },
    ]?;
    let int = RegType::Int(32);
    func(alloc, b"putchar", 1, &[int, int], Some(int), nodes)
}

fn puts_nodes(alloc: Global) -> Result<Vec<Node>, AllocError>
    ensures { IfOk result (λ nodes. nodes.items ≡ spec.puts_nodes) }
{
    let next_byte = behind(alloc, reg(1), int(64, 1), 5, 7)?;
    let from_start = moves(alloc, 1, reg(0), 1)?;
    let from_byte = moves(alloc, 1, reg(5), 1)?;
    let nodes = vec![in alloc;
        Node::Jump { next: NodeId(10) },
        Node::Load {
            pointer: reg(1),
            result: RegId(2),
            next: NodeId(2)
        },
        Node::Cmp {
            pred: Pred::Eq,
            a: reg(2),
            b: int(8, 0),
            result: RegId(3),
            next: NodeId(3)
        },
        Node::Branch {
            condition: reg(3),
            yes: NodeId(8),
            no: NodeId(4)
        },
        Node::Cast {
            op: CastOp::Zext,
            a: reg(2),
            result: RegId(4),
            next: NodeId(5)
        },
        Node::Put {
            value: reg(4),
            next: NodeId(6)
        },
        next_byte,
        Node::Jump { next: NodeId(11) },
        Node::Put {
            value: int(32, 10),
            next: NodeId(9)
        },
        Node::Ret {
            value: Some(int(32, 0))
        },
        from_start,
        from_byte,
    ]?;
    Ok(nodes)
}

fn puts(alloc: Global) -> Result<Func, AllocError>
    ensures { IfOk result (λ f. f ≡ spec.puts) }
{
    let nodes = puts_nodes(alloc)?;
    let int = RegType::Int(32);
    let regs = [
        RegType::Ptr,
        RegType::Ptr,
        RegType::Int(8),
        RegType::Int(1),
        int,
        RegType::Ptr,
    ];
    func(alloc, b"puts", 1, &regs, Some(int), nodes)
}

fn calloc_nodes(alloc: Global) -> Result<Vec<Node>, AllocError>
    ensures { IfOk result (λ nodes. nodes.items ≡ spec.calloc_nodes) }
{
    let nodes = vec![in alloc;
        Node::Cmp {
            pred: Pred::Ugt,
            a: reg(0),
            b: int(64, 65536),
            result: RegId(2),
            next: NodeId(1)
        },
        Node::Cmp {
            pred: Pred::Ugt,
            a: reg(1),
            b: int(64, 65536),
            result: RegId(3),
            next: NodeId(2)
        },
        Node::Bin {
            op: BinOp::Or,
            a: reg(2),
            b: reg(3),
            result: RegId(4),
            next: NodeId(3)
        },
        Node::Branch {
            condition: reg(4),
            yes: NodeId(4),
            no: NodeId(5)
        },
        Node::Ret {
            value: Some(Operand::Null)
        },
        Node::Bin {
            op: BinOp::Mul,
            a: reg(0),
            b: reg(1),
            result: RegId(5),
            next: NodeId(6)
        },
        Node::Malloc {
            size: reg(5),
            result: Some(RegId(6)),
            next: NodeId(7)
        },
        Node::Ret {
            value: Some(reg(6))
        },
    ]?;
    Ok(nodes)
}

fn calloc(alloc: Global) -> Result<Func, AllocError>
    ensures { IfOk result (λ f. f ≡ spec.calloc) }
{
    let nodes = calloc_nodes(alloc)?;
    let regs = [
        RegType::Int(64),
        RegType::Int(64),
        RegType::Int(1),
        RegType::Int(1),
        RegType::Int(1),
        RegType::Int(64),
        RegType::Ptr,
    ];
    func(alloc, b"calloc", 2, &regs, Some(RegType::Ptr), nodes)
}

/// The function with this place in the order of the prelude, which `find` tells. No function of the prelude calls one, so
/// that its own number in a program, `_first`, stands in none of its nodes.
///
/// # Errors
///
/// `AllocError` if memory runs out.
pub fn prelude_func(alloc: Global, index: u32, _first: FuncId) -> Result<Func, AllocError>
    requires { index < 8 }
    ensures { IfOk result (λ f. slice_get all index ≡ Some f) }
{
    match index {
        0 => getchar(alloc),
        1 => putchar(alloc),
        2 => puts(alloc),
        3 => memset(alloc),
        4 => memcpy(alloc),
        5 => calloc(alloc),
        6 => memcpy_intrinsic(alloc),
        _ => memset_intrinsic(alloc),
    }
}
