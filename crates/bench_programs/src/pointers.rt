//! Points-to sets: `points_to SITES CHOICES` makes a program of so many objects and so many choices between pointers, and prints how many
//! sites its last register has.
ghost use Rattle.std.specs.Prelude.{◌≡◌, ◌<◌, ◌≤◌, ◌+◌, ◌++◌, [], replicate, IfOk, OnOk};
ghost use Rattle.flat_ir.specs.declared.nodes.RegType.TheVariants as kind;
ghost use Rattle.bench_programs.specs.Choosing as spec;

use crate::words::{number, refused};
use bitnum::Num;
use flat_ir::{Func, FuncId, Node, NodeId, Operand, Program, ProgramData, RegId, RegType};
use plain_list::Sequence;
use points_to::points_to;
use std::alloc::{AllocError, Global};
use std::io;

/// How many objects, or choices, there are at most.
const MOST: u32 = 1000000;

fn push_makers(nodes: &mut Vec<Node>, sites: u32) -> Result<(), AllocError>
    requires few { sites < 2000000 }
    requires none { nodes.old.items ≡ [] }
    ensures { OnOk result (nodes.new.items ≡ spec.makers sites) }
{
    for k in 0..sites {
        nodes.push(Node::Alloca {
            size: 4,
            result: RegId(k),
            next: NodeId(k + 1),
        })?;
    }
    Ok(())
}

fn push_choosers(nodes: &mut Vec<Node>, sites: u32, choices: u32) -> Result<(), AllocError>
    requires some { 0 < sites }
    requires few { sites < 2000000 }
    requires choices { choices < 2000000 }
    ensures { OnOk result (nodes.new.items ≡ nodes.old.items ++ spec.choosers sites choices) }
{
    for k in 0..choices {
        nodes.push(Node::Select {
            condition: Operand::Int(Num::new(32, 1)),
            a: Operand::Reg(RegId(sites + k - 1)),
            b: Operand::Reg(RegId(sites + k - sites)),
            result: RegId(sites + k),
            next: NodeId(sites + k + 1),
        })?;
    }
    Ok(())
}

fn regs_of(alloc: Global, count: u32) -> Result<Sequence<RegType>, AllocError>
    ensures { IfOk result (λ regs. regs ≡ replicate count kind.Ptr) }
{
    let mut regs = Vec::new(alloc);
    for _ in 0..count {
        regs.push(RegType::Ptr)?;
    }
    Ok(Sequence::from_vec(regs))
}

fn names_of(alloc: Global, count: u32) -> Result<Sequence<Sequence<u8>>, AllocError>
    ensures { IfOk result (λ names. names ≡ replicate count []) }
{
    let mut names = Vec::new(alloc);
    for _ in 0..count {
        names.push(Sequence::new(alloc))?;
    }
    Ok(Sequence::from_vec(names))
}

fn main_of(alloc: Global, sites: u32, choices: u32) -> Result<Func, AllocError>
    requires some { 0 < sites }
    requires few { sites < 2000000 }
    requires choices { choices < 2000000 }
    ensures { IfOk result (λ main. main ≡ spec.choosing_main sites choices) }
{
    let mut nodes = Vec::new(alloc);
    push_makers(&mut nodes, sites)?;
    push_choosers(&mut nodes, sites, choices)?;
    nodes.push(Node::Ret {
        value: Some(Operand::Int(Num::new(32, 0))),
    })?;
    Ok(Func {
        name: Sequence::new(alloc),
        params: 0,
        regs: regs_of(alloc, sites + choices)?,
        reg_names: names_of(alloc, sites + choices)?,
        result: Some(RegType::Int(32)),
        nodes: Sequence::from_vec(nodes),
        clashes: Sequence::new(alloc),
        bad_edges: Sequence::new(alloc),
    })
}

fn parts_of(alloc: Global, sites: u32, choices: u32) -> Result<ProgramData, AllocError>
    requires some { 0 < sites }
    requires few { sites < 2000000 }
    requires choices { choices < 2000000 }
    ensures { IfOk result (λ parts. parts ≡ spec.choosing sites choices) }
{
    Ok(ProgramData {
        globals: Sequence::new(alloc),
        funcs: Sequence::of_one(alloc, main_of(alloc, sites, choices)?)?,
        main: FuncId(0),
        defined: 1,
    })
}

/// The program of so many objects and choices.
pub(crate) fn program_of(alloc: Global, sites: u32, choices: u32) -> Result<Program, AllocError>
    requires some { 0 < sites }
    requires few { sites < 2000000 }
    requires choices { choices < 2000000 }
{
    Program::new(alloc, parts_of(alloc, sites, choices)?)
}

fn run(alloc: Global, sites: u32, choices: u32) -> Result<usize, AllocError>
    requires some { 0 < sites }
    requires few { sites < 2000000 }
    requires choices { choices < 2000000 }
{
    let sets = points_to(alloc, &program_of(alloc, sites, choices)?)?;
    Ok(sets.of_reg(FuncId(0), RegId(sites + choices - 1)).len())
}

pub(crate) fn timed(rt: &HostRuntime, words: &[String]) -> io::Result<()> {
    let (Some(sites), Some(choices)) = (number(words, 0), number(words, 1)) else {
        return refused(rt);
    };
    if sites == 0 {
        return println!(rt; "there are to be objects");
    }
    if sites > MOST {
        return println!(rt; "there are to be at most {MOST} objects");
    }
    if choices > MOST {
        return println!(rt; "there are to be at most {MOST} choices");
    }
    match run(rt.alloc(), sites, choices) {
        Ok(count) => println!(rt; "the last register has {count} sites"),
        Err(_) => println!(rt; "no memory"),
    }
}
