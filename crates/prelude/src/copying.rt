//! The functions that copy and set memory, byte after byte.
ghost use Rattle.std.specs.Prelude.{◌≡◌, IfOk};
ghost use Rattle.prelude.specs.Copying as spec;

use crate::shapes::{behind, func, int, moves, reg};
use bitnum::{BinOp, Pred};
use flat_ir::{CastOp, Func, Node, NodeId, RegId, RegType};
use std::alloc::{AllocError, Global};

fn memset_nodes(alloc: Global) -> Result<Vec<Node>, AllocError>
    ensures { IfOk result (λ nodes. nodes.items ≡ spec.memset_nodes) }
{
    let to = behind(alloc, reg(0), reg(4), 6, 5)?;
    let from_start = moves(alloc, 4, int(64, 0), 2)?;
    let from_byte = moves(alloc, 4, reg(7), 2)?;
    let nodes = vec![in alloc;
        Node::Cast {
            op: CastOp::Trunc,
            a: reg(1),
            result: RegId(3),
            next: NodeId(1)
        },
        Node::Jump { next: NodeId(9) },
        Node::Cmp {
            pred: Pred::Ult,
            a: reg(4),
            b: reg(2),
            result: RegId(5),
            next: NodeId(3)
        },
        Node::Branch {
            condition: reg(5),
            yes: NodeId(4),
            no: NodeId(8)
        },
        to,
        Node::Store {
            value: reg(3),
            pointer: reg(6),
            next: NodeId(6)
        },
        Node::Bin {
            op: BinOp::Add,
            a: reg(4),
            b: int(64, 1),
            result: RegId(7),
            next: NodeId(7)
        },
        Node::Jump { next: NodeId(10) },
        Node::Ret {
            value: Some(reg(0))
        },
        from_start,
        from_byte,
    ]?;
    Ok(nodes)
}

pub fn memset(alloc: Global) -> Result<Func, AllocError>
    ensures { IfOk result (λ f. f ≡ spec.memset) }
{
    let nodes = memset_nodes(alloc)?;
    let regs = [
        RegType::Ptr,
        RegType::Int(32),
        RegType::Int(64),
        RegType::Int(8),
        RegType::Int(64),
        RegType::Int(1),
        RegType::Ptr,
        RegType::Int(64),
    ];
    func(alloc, b"memset", 3, &regs, Some(RegType::Ptr), nodes)
}

fn memcpy_nodes(alloc: Global) -> Result<Vec<Node>, AllocError>
    ensures { IfOk result (λ nodes. nodes.items ≡ spec.memcpy_nodes) }
{
    let to = behind(alloc, reg(0), reg(3), 5, 4)?;
    let from = behind(alloc, reg(1), reg(3), 6, 5)?;
    let from_start = moves(alloc, 3, int(64, 0), 1)?;
    let from_byte = moves(alloc, 3, reg(7), 1)?;
    let nodes = vec![in alloc;
        Node::Jump { next: NodeId(9) },
        Node::Cmp {
            pred: Pred::Ult,
            a: reg(3),
            b: reg(2),
            result: RegId(4),
            next: NodeId(2)
        },
        Node::Branch {
            condition: reg(4),
            yes: NodeId(3),
            no: NodeId(8)
        },
        to,
        from,
        Node::Copy {
            from: reg(6),
            to: reg(5),
            next: NodeId(6)
        },
        Node::Bin {
            op: BinOp::Add,
            a: reg(3),
            b: int(64, 1),
            result: RegId(7),
            next: NodeId(7)
        },
        Node::Jump { next: NodeId(10) },
        Node::Ret {
            value: Some(reg(0))
        },
        from_start,
        from_byte,
    ]?;
    Ok(nodes)
}

pub fn memcpy(alloc: Global) -> Result<Func, AllocError>
    ensures { IfOk result (λ f. f ≡ spec.memcpy) }
{
    let nodes = memcpy_nodes(alloc)?;
    let regs = [
        RegType::Ptr,
        RegType::Ptr,
        RegType::Int(64),
        RegType::Int(64),
        RegType::Int(1),
        RegType::Ptr,
        RegType::Ptr,
        RegType::Int(64),
    ];
    func(alloc, b"memcpy", 3, &regs, Some(RegType::Ptr), nodes)
}

fn memcpy_intrinsic_nodes(alloc: Global) -> Result<Vec<Node>, AllocError>
    ensures { IfOk result (λ nodes. nodes.items ≡ spec.memcpy_intrinsic_nodes) }
{
    let to = behind(alloc, reg(0), reg(4), 6, 4)?;
    let from = behind(alloc, reg(1), reg(4), 7, 5)?;
    let from_start = moves(alloc, 4, int(64, 0), 1)?;
    let from_byte = moves(alloc, 4, reg(8), 1)?;
    let nodes = vec![in alloc;
        Node::Jump { next: NodeId(9) },
        Node::Cmp {
            pred: Pred::Ult,
            a: reg(4),
            b: reg(2),
            result: RegId(5),
            next: NodeId(2)
        },
        Node::Branch {
            condition: reg(5),
            yes: NodeId(3),
            no: NodeId(8)
        },
        to,
        from,
        Node::Copy {
            from: reg(7),
            to: reg(6),
            next: NodeId(6)
        },
        Node::Bin {
            op: BinOp::Add,
            a: reg(4),
            b: int(64, 1),
            result: RegId(8),
            next: NodeId(7)
        },
        Node::Jump { next: NodeId(10) },
        Node::Ret { value: None },
        from_start,
        from_byte,
    ]?;
    Ok(nodes)
}

pub fn memcpy_intrinsic(alloc: Global) -> Result<Func, AllocError>
    ensures { IfOk result (λ f. f ≡ spec.memcpy_intrinsic) }
{
    let nodes = memcpy_intrinsic_nodes(alloc)?;
    let regs = [
        RegType::Ptr,
        RegType::Ptr,
        RegType::Int(64),
        RegType::Int(1),
        RegType::Int(64),
        RegType::Int(1),
        RegType::Ptr,
        RegType::Ptr,
        RegType::Int(64),
    ];
    func(alloc, b"llvm.memcpy.p0.p0.i64", 4, &regs, None, nodes)
}

fn memset_intrinsic_nodes(alloc: Global) -> Result<Vec<Node>, AllocError>
    ensures { IfOk result (λ nodes. nodes.items ≡ spec.memset_intrinsic_nodes) }
{
    let to = behind(alloc, reg(0), reg(4), 6, 4)?;
    let from_start = moves(alloc, 4, int(64, 0), 1)?;
    let from_byte = moves(alloc, 4, reg(7), 1)?;
    let nodes = vec![in alloc;
        Node::Jump { next: NodeId(8) },
        Node::Cmp {
            pred: Pred::Ult,
            a: reg(4),
            b: reg(2),
            result: RegId(5),
            next: NodeId(2)
        },
        Node::Branch {
            condition: reg(5),
            yes: NodeId(3),
            no: NodeId(7)
        },
        to,
        Node::Store {
            value: reg(1),
            pointer: reg(6),
            next: NodeId(5)
        },
        Node::Bin {
            op: BinOp::Add,
            a: reg(4),
            b: int(64, 1),
            result: RegId(7),
            next: NodeId(6)
        },
        Node::Jump { next: NodeId(9) },
        Node::Ret { value: None },
        from_start,
        from_byte,
    ]?;
    Ok(nodes)
}

pub fn memset_intrinsic(alloc: Global) -> Result<Func, AllocError>
    ensures { IfOk result (λ f. f ≡ spec.memset_intrinsic) }
{
    let nodes = memset_intrinsic_nodes(alloc)?;
    let regs = [
        RegType::Ptr,
        RegType::Int(8),
        RegType::Int(64),
        RegType::Int(1),
        RegType::Int(64),
        RegType::Int(1),
        RegType::Ptr,
        RegType::Int(64),
    ];
    func(alloc, b"llvm.memset.p0.i64", 4, &regs, None, nodes)
}
