//! Slices: `slice STEPS FUNCTIONS` makes a program of so many functions, each of so many additions that each stand behind a branch, and
//! prints how many nodes the slice of main for the global that they store to retains.
ghost use Rattle.std.specs.Prelude.{◌≡◌, ◌<◌, ◌≤◌, ◌++◌, [], ◌∷◌, replicate, IfOk, OnOk};
ghost use Rattle.bench_programs.specs.Stepping as spec;

use crate::words::{number, refused};
use bitnum::{BinOp, Num};
use flat_ir::{
    Func, FuncId, GlobalVar, Kept, Location, Node, NodeId, Operand, Program, ProgramData, RegId,
    RegType, Site,
};
use plain_list::Sequence;
use points_to::points_to;
use slicer::slice;
use std::alloc::{AllocError, Global};
use std::io;

/// How many steps, or functions, there are at most.
const MOST: u32 = 1000000;

fn push_steps(nodes: &mut Vec<Node>, steps: u32) -> Result<(), AllocError>
    requires few { steps ≤ 1000000 }
    requires none { nodes.old.items ≡ [] }
    ensures { OnOk result (nodes.new.items ≡ spec.steps steps) }
{
    for k in 0..steps {
        nodes.push(Node::Branch {
            condition: Operand::Int(Num::new(1, 1)),
            yes: NodeId(2 * k + 1),
            no: NodeId(2 * k + 2),
        })?;
        nodes.push(Node::Bin {
            op: BinOp::Add,
            a: Operand::Reg(RegId(0)),
            b: Operand::Int(Num::new(32, 1)),
            result: RegId(0),
            next: NodeId(2 * k + 2),
        })?;
    }
    Ok(())
}

fn stepping(alloc: Global, steps: u32) -> Result<Func, AllocError>
    requires few { steps ≤ 1000000 }
    ensures { IfOk result (λ func. func ≡ spec.stepping steps) }
{
    let mut nodes = Vec::new(alloc);
    push_steps(&mut nodes, steps)?;
    nodes.push(Node::Store {
        value: Operand::Reg(RegId(0)),
        pointer: Operand::Global {
            global: 0,
            offset: 0,
        },
        next: NodeId(2 * steps + 1),
    })?;
    nodes.push(Node::Ret { value: None })?;
    Ok(Func {
        name: Sequence::new(alloc),
        params: 0,
        regs: Sequence::of_one(alloc, RegType::Int(32))?,
        reg_names: Sequence::of_one(alloc, Sequence::new(alloc))?,
        result: None,
        nodes: Sequence::from_vec(nodes),
        clashes: Sequence::new(alloc),
        bad_edges: Sequence::new(alloc),
    })
}

fn push_calls(nodes: &mut Vec<Node>, alloc: Global, functions: u32) -> Result<(), AllocError>
    requires few { functions ≤ 1000000 }
    requires none { nodes.old.items ≡ [] }
    ensures { OnOk result (nodes.new.items ≡ spec.calls functions) }
{
    for k in 0..functions {
        nodes.push(Node::Call {
            callee: FuncId(k),
            args: Sequence::new(alloc),
            result: None,
            next: NodeId(k + 1),
        })?;
    }
    Ok(())
}

fn calling(alloc: Global, functions: u32) -> Result<Func, AllocError>
    requires few { functions ≤ 1000000 }
    ensures { IfOk result (λ func. func ≡ spec.calling functions) }
{
    let mut nodes = Vec::new(alloc);
    push_calls(&mut nodes, alloc, functions)?;
    nodes.push(Node::Ret {
        value: Some(Operand::Int(Num::new(32, 0))),
    })?;
    Ok(Func {
        name: Sequence::new(alloc),
        params: 0,
        regs: Sequence::new(alloc),
        reg_names: Sequence::new(alloc),
        result: Some(RegType::Int(32)),
        nodes: Sequence::from_vec(nodes),
        clashes: Sequence::new(alloc),
        bad_edges: Sequence::new(alloc),
    })
}

fn push_functions(
    funcs: &mut Vec<Func>,
    alloc: Global,
    steps: u32,
    functions: u32,
) -> Result<(), AllocError>
    requires few { steps ≤ 1000000 }
    requires none { funcs.old.items ≡ [] }
    ensures { OnOk result (funcs.new.items ≡ replicate functions (spec.stepping steps)) }
{
    for _ in 0..functions {
        funcs.push(stepping(alloc, steps)?)?;
    }
    Ok(())
}

fn the_global(alloc: Global) -> GlobalVar
    ensures { result ≡ spec.the_global }
{
    GlobalVar {
        name: Sequence::new(alloc),
        size: 4,
        init: Sequence::new(alloc),
    }
}

fn parts_of(alloc: Global, steps: u32, functions: u32) -> Result<ProgramData, AllocError>
    requires steps { steps ≤ 1000000 }
    requires functions { functions ≤ 1000000 }
    ensures { IfOk result (λ parts. parts ≡ spec.program steps functions) }
{
    let mut funcs = Vec::new(alloc);
    push_functions(&mut funcs, alloc, steps, functions)?;
    funcs.push(calling(alloc, functions)?)?;
    Ok(ProgramData {
        globals: Sequence::of_one(alloc, the_global(alloc))?,
        funcs: Sequence::from_vec(funcs),
        main: FuncId(functions),
        defined: functions + 1,
    })
}

fn program_of(alloc: Global, steps: u32, functions: u32) -> Result<Program, AllocError>
    requires steps { steps ≤ 1000000 }
    requires functions { functions ≤ 1000000 }
    ensures { IfOk result (λ program. program ≡ spec.program steps functions) }
{
    Program::new(alloc, parts_of(alloc, steps, functions)?)
}

fn count_in(kept: &Kept) -> usize {
    kept.nexts
        .as_slice()
        .iter()
        .filter(|nexts| nexts.is_some())
        .count()
}

fn run(alloc: Global, steps: u32, functions: u32) -> Result<u64, AllocError>
    requires steps { steps ≤ 1000000 }
    requires functions { functions ≤ 1000000 }
{
    let program = program_of(alloc, steps, functions)?;
    let sets = points_to(alloc, &program)?;
    let at = Location::Cells(Site::Global(0));
    let residual = slice(alloc, &program, &sets, FuncId(functions), at)?;
    let mut count: u64 = 0;
    for kept in residual.funcs.as_slice() {
        count = count.wrapping_add(count_in(kept) as u64);
    }
    Ok(count)
}

pub(crate) fn timed(rt: &HostRuntime, words: &[String]) -> io::Result<()> {
    let (Some(steps), Some(functions)) = (number(words, 0), number(words, 1)) else {
        return refused(rt);
    };
    if steps > MOST {
        return println!(rt; "there are to be at most {MOST} steps");
    }
    if functions > MOST {
        return println!(rt; "there are to be at most {MOST} functions");
    }
    match run(rt.alloc(), steps, functions) {
        Ok(count) => println!(rt; "{count} nodes are retained"),
        Err(_) => println!(rt; "no memory"),
    }
}
