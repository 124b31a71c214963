//! Calls.
ghost use Rattle.std.specs.Prelude.{◌≡◌, ◌++◌, List, ℕ, map, drop, All, IfOk, OnOk};
ghost use Rattle.flat_ir.specs.declared.names.NodeId.{NodeId as Place};
ghost use Rattle.flat_ir.specs.declared.names.RegId.{RegId as Register};
ghost use Rattle.std.specs.Prelude.{Option};
ghost use Rattle.flat_ir.specs.declared.nodes.Node.TheVariants as node;
ghost use Rattle.flat_ir.specs.Machine.{value_in, entered as spec_entered};
ghost use Rattle.flat_ir.specs.Registers.{zero_of};
ghost use Rattle.flat_ir.specs.Whole.{IsWhole, IsWidth};
ghost use Rattle.concrete_machine.specs.Frames.{frame_of};
ghost use Rattle.concrete_machine.specs.Standing.{Attempts};

use crate::frames::{null, step_here, value_of};
use crate::machine::{Frame, Led, Machine};
use bitnum::Num;
use flat_ir::{
    ConcreteValue, FrameName, FuncId, Node, NodeId, Operand, ProgramData, RegType, nodes_of,
    types_of,
};
use std::alloc::{AllocError, Global};
use std::mem;

// The value that a register starts with.
fn zero(of: RegType) -> ConcreteValue
    requires { IsWidth of }
    ensures { result ≡ zero_of of }
{
    match of {
        RegType::Ptr => null(),
        RegType::Int(width) => ConcreteValue::Int(Num::new(width, 0)),
    }
}

fn add_zeros(regs: &mut Vec<ConcreteValue>, types: &[RegType]) -> Result<(), AllocError>
    requires { All IsWidth types.now }
    ensures { OnOk result (regs.new.items ≡ regs.old.items ++ map zero_of types.now) }
{
    for kind in types {
        regs.push(zero(*kind))?;
    }
    Ok(())
}

fn no_counts(alloc: Global, nodes: &[Node]) -> Result<Vec<u64>, AllocError>
    ensures { IfOk result (λ counts. counts.items ≡ map (λ n. 0) nodes.now) }
{
    let mut counts = Vec::new(alloc);
    for _node in nodes {
        counts.push(0)?;
    }
    Ok(counts)
}

// What is behind the first n elements.
fn rest_of(types: &[RegType], n: usize) -> &[RegType]
    ensures { result.now ≡ drop n types.now }
{
    if n <= types.len() { &types[n..] } else { &[] }
}

/// The frame that a call makes: its arguments are the first registers.
pub(crate) fn entered(
    alloc: Global,
    program: &ProgramData,
    func: FuncId,
    args: Vec<ConcreteValue>,
    name: FrameName,
) -> Result<Frame, AllocError>
    requires { IsWhole program.now }
    ensures { IfOk result (λ f. frame_of f ≡ spec_entered program.now func args.items name) }
{
    let mut regs = args;
    let types = rest_of(types_of(program, func), regs.len());
    add_zeros(&mut regs, types)?;
    let counts = no_counts(alloc, nodes_of(program, func))?;
    Ok(Frame {
        func,
        node: NodeId(0),
        regs,
        name,
        counts,
    })
}

// The values of the arguments.
fn values_of(
    alloc: Global,
    frame: &Frame,
    args: &[Operand],
) -> Result<Vec<ConcreteValue>, AllocError>
    ensures { IfOk result (λ values. values.items ≡ map (value_in (frame_of frame.now)) args.now) }
{
    let mut values = Vec::new(alloc);
    for operand in args {
        values.push(value_of(frame, operand)?)?;
    }
    Ok(values)
}

impl Machine {
    /// Enters a function.
    pub(crate) fn call(
        &mut self,
        program: &ProgramData,
        callee: FuncId,
        args: &[Operand],
    ) -> Result<Led, AllocError>
        requires { IsWhole program.now }
        ensures { IfOk result (λ led. (register : Option Register) (next : Place) (input : List ℕ) → Attempts program.now input (node.Call callee args.now register next) self.old self.new led) }
    {
        let values = values_of(self.alloc, &self.frame, args)?;
        let step = step_here(&self.frame);
        let name = self.frame.name.called(self.alloc, step)?;
        let frame = entered(self.alloc, program, callee, values, name)?;
        let caller = mem::replace(&mut self.frame, frame);
        self.callers.push(caller)?;
        Ok(Led::On)
    }
}
