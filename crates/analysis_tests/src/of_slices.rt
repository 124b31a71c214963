//! The slice of a small program: a loop in front of a store, where what the store writes doesn't depend on the loop; main returns what was stored.
ghost use Rattle.std.specs.Prelude.{◌≡◌, ◌<◌, [], replicate, IfOk};
ghost use Rattle.slicer.specs.Locations.{IsLocationOf};
ghost use Rattle.analysis_tests.specs.Sample.{sample, sample_func, sample_global, sample_main};

use bitnum::{BinOp, Num, Pred};
use flat_ir::{
    Func, FuncId, GlobalVar, Kept, Location, MoveSet, Next, Node, NodeId, Operand, Program,
    ProgramData, RegId, RegType, Residual, Site,
};
use plain_list::Sequence;
use points_to::points_to;
use slicer::slice;
use std::alloc::{AllocError, Global};

fn the_global(alloc: Global) -> GlobalVar
    ensures { result ≡ sample_global }
{
    GlobalVar {
        name: Sequence::new(alloc),
        size: 4,
        init: Sequence::new(alloc),
    }
}

fn no_names(alloc: Global, count: usize) -> Result<Sequence<Sequence<u8>>, AllocError>
    ensures { IfOk result (λ names. names ≡ replicate count []) }
{
    let mut names = Vec::new(alloc);
    for _ in 0..count {
        names.push(Sequence::new(alloc))?;
    }
    Ok(Sequence::from_vec(names))
}

fn the_func(alloc: Global) -> Result<Func, AllocError>
    ensures { IfOk result (λ f. f ≡ sample_func) }
{
    let mut nodes = Sequence::of_one(alloc, Node::Jump { next: NodeId(6) })?;
    nodes.push(Node::Bin {
        op: BinOp::Add,
        a: Operand::Reg(RegId(0)),
        b: Operand::Int(Num::new(32, 1)),
        result: RegId(1),
        next: NodeId(2),
    })?;
    nodes.push(Node::Cmp {
        pred: Pred::Ult,
        a: Operand::Reg(RegId(1)),
        b: Operand::Int(Num::new(32, 1000)),
        result: RegId(2),
        next: NodeId(3),
    })?;
    nodes.push(Node::Branch {
        condition: Operand::Reg(RegId(2)),
        yes: NodeId(7),
        no: NodeId(4),
    })?;
    nodes.push(Node::Store {
        value: Operand::Int(Num::new(32, 7)),
        pointer: Operand::Global {
            global: 0,
            offset: 0,
        },
        next: NodeId(5),
    })?;
    nodes.push(Node::Ret { value: None })?;
    nodes.push(Node::Moves {
        sets: Sequence::of_one(
            alloc,
            MoveSet {
                register: RegId(0),
                value: Operand::Int(Num::new(32, 0)),
            },
        )?,
        next: NodeId(1),
    })?;
    nodes.push(Node::Moves {
        sets: Sequence::of_one(
            alloc,
            MoveSet {
                register: RegId(0),
                value: Operand::Reg(RegId(1)),
            },
        )?,
        next: NodeId(1),
    })?;
    Ok(Func {
        name: Sequence::new(alloc),
        params: 0,
        regs: Sequence::from_slice(
            alloc,
            &[RegType::Int(32), RegType::Int(32), RegType::Int(1)],
        )?,
        reg_names: no_names(alloc, 3)?,
        result: None,
        nodes,
        clashes: Sequence::new(alloc),
        bad_edges: Sequence::new(alloc),
    })
}

fn the_main(alloc: Global) -> Result<Func, AllocError>
    ensures { IfOk result (λ f. f ≡ sample_main) }
{
    let mut nodes = Sequence::of_one(
        alloc,
        Node::Call {
            callee: FuncId(0),
            args: Sequence::new(alloc),
            result: None,
            next: NodeId(1),
        },
    )?;
    nodes.push(Node::Load {
        pointer: Operand::Global {
            global: 0,
            offset: 0,
        },
        result: RegId(0),
        next: NodeId(2),
    })?;
    nodes.push(Node::Ret {
        value: Some(Operand::Reg(RegId(0))),
    })?;
    Ok(Func {
        name: Sequence::new(alloc),
        params: 0,
        regs: Sequence::of_one(alloc, RegType::Int(32))?,
        reg_names: no_names(alloc, 1)?,
        result: Some(RegType::Int(32)),
        nodes,
        clashes: Sequence::new(alloc),
        bad_edges: Sequence::new(alloc),
    })
}

fn the_parts(alloc: Global) -> Result<ProgramData, AllocError>
    ensures { IfOk result (λ p. p ≡ sample) }
{
    let mut funcs = Sequence::of_one(alloc, the_func(alloc)?)?;
    funcs.push(the_main(alloc)?)?;
    Ok(ProgramData {
        globals: Sequence::of_one(alloc, the_global(alloc))?,
        funcs,
        main: FuncId(1),
        defined: 2,
    })
}

#[tactic(auto, using(crate::proofs::Samples::sample_is_whole))]
fn the_program(alloc: Global) -> Result<Program, AllocError>
    ensures { IfOk result (λ p. p ≡ sample) }
{
    Program::new(alloc, the_parts(alloc)?)
}

/// The nexts of a node, none where it isn't retained.
fn nexts(kept: &Kept, node: usize) -> &[Next] {
    match kept.nexts.as_slice().get(node) {
        Some(Some(nexts)) => nexts.as_slice(),
        _ => &[],
    }
}

fn the_slice(alloc: Global, f: FuncId, at: Location) -> Result<Residual, AllocError>
    requires func { f.0 < 2 }
    requires at { IsLocationOf sample at }
{
    let program = the_program(alloc)?;
    let sets = points_to(alloc, &program)?;
    slice(alloc, &program, &sets, f, at)
}

// What main returns needs its load, the call that stores, and in the callee the store.
#[test]
fn a_result_needs_a_callees_store(rt: HostRuntime) -> Result<(), AllocError> {
    let alloc = rt.alloc();
    let residual = the_slice(alloc, FuncId(1), Location::Result)?;
    match residual.funcs.as_slice().get(1) {
        Some(kept) => {
            assert_eq!(rt; kept.start, Next::Node(NodeId(0)));
            assert_eq!(rt; nexts(kept, 0), [Next::Node(NodeId(1))].as_slice());
            assert_eq!(rt; nexts(kept, 1), [Next::Node(NodeId(2))].as_slice());
            assert_eq!(rt; nexts(kept, 2), [Next::End].as_slice());
        }
        None => assert!(rt; false),
    }
    match residual.funcs.as_slice().get(0) {
        Some(kept) => {
            assert_eq!(rt; kept.start, Next::Node(NodeId(4)));
            assert_eq!(rt; nexts(kept, 4), [Next::End].as_slice());
        }
        None => assert!(rt; false),
    }
    Ok(())
}
