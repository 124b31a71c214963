//! Returns, which end the objects of their frame.
ghost use Rattle.std.specs.Prelude.{◌≡◌, ◌≤◌, ◌^◌, ℕ, List, true, length, slice_get, unwrap_or, IfOk, OnOk};
ghost use Rattle.std.specs.Option.{option_map, option_copied};
ghost use Rattle.flat_ir.specs.declared.nodes.Node.TheVariants as node;
ghost use Rattle.flat_ir.specs.MadeNames.{is_alloca, object_of as spec_object_of, count_at};
ghost use Rattle.flat_ir.specs.Machine.{value_in, node_at};
ghost use Rattle.flat_ir.specs.Steps as spec;
ghost use Rattle.flat_ir.specs.Whole.{IsWhole};
ghost use Rattle.concrete_machine.specs.Ending.{AddsAll, KeepsOf, KeepsAll, result_in, next_in};
ghost use Rattle.concrete_machine.specs.Frames.{frame_of};
ghost use Rattle.concrete_machine.specs.Standing.{Attempts};
ghost use Rattle.concrete_machine.specs.Suiting.{Keeps};

use crate::frames::{number, set_if, value_of};
use crate::machine::{Frame, Led, Machine};
use concrete_memory::Store;
use flat_ir::{
    CallStep, ConcreteValue, Node, NodeId, ObjectName, Operand, ProgramData, RegId, node_in,
    nodes_of,
};
use std::alloc::AllocError;

// What the frame's node made when it was executed for the k-th time.
fn object_of(frame: &Frame, node: NodeId, count: u64) -> Result<ObjectName, AllocError>
    ensures { IfOk result (λ x. x ≡ spec_object_of (frame_of frame.now) node count) }
{
    let made = CallStep {
        func: frame.func,
        node,
        count,
    };
    let frame = frame.name.copy()?;
    Ok(ObjectName::Made { frame, made })
}

// Ends what a node of the frame made, which was executed so often.
fn end_all_of(store: &mut Store, frame: &Frame, node: NodeId, count: u64) -> Result<(), AllocError>
    requires { KeepsOf store.old (frame_of frame.now) node count }
    ensures { OnOk result (AddsAll store.old store.new (spec.frees_of_node (frame_of frame.now) node count 1)) }
{
    for before in 0..count {
        let name = object_of(frame, node, before + 1)?;
        store.end(&name);
    }
    Ok(())
}

// How often the frame has executed a node.
fn count_of(frame: &Frame, node: NodeId) -> u64
    ensures { result ≡ count_at (frame_of frame.now) node }
{
    match frame.counts.get(node.0 as usize) {
        Some(count) => *count,
        None => 0,
    }
}

// Ends what the node at a place made, if it is an alloca.
fn end_at(store: &mut Store, frame: &Frame, at: NodeId, node: &Node) -> Result<(), AllocError>
    requires { is_alloca node.now ≡ true → KeepsOf store.old (frame_of frame.now) at (count_at (frame_of frame.now) at) }
    ensures { OnOk result (AddsAll store.old store.new (spec.frees_at (frame_of frame.now) at (count_at (frame_of frame.now) at) node.now)) }
{
    match node {
        Node::Alloca { .. } => end_all_of(store, frame, at, count_of(frame, at)),
        _ => Ok(()),
    }
}

// Ends what the nodes of the frame's function made, by node and then by count.
fn end_objects(store: &mut Store, frame: &Frame, nodes: &[Node]) -> Result<(), AllocError>
    requires few { length nodes.now ≤ 2 ^ 32 }
    requires keeps { KeepsAll store.old (frame_of frame.now) nodes.now }
    ensures { OnOk result (AddsAll store.old store.new (spec.frees_from (frame_of frame.now) 0 nodes.now)) }
{
    for (place, node) in nodes.iter().enumerate() {
        end_at(store, frame, NodeId(place as u32), node)?;
    }
    Ok(())
}

// The value that a frame returns, if there is one.
fn returned(frame: &Frame, value: &Option<Operand>) -> Result<Option<ConcreteValue>, AllocError>
    ensures { IfOk result (λ v. v ≡ option_map (value_in (frame_of frame.now)) value.now) }
{
    match value {
        None => Ok(None),
        Some(operand) => Ok(Some(value_of(frame, operand)?)),
    }
}

// The low byte of what main returns.
fn low_byte(value: &Option<ConcreteValue>) -> u8
    ensures { result ≡ spec.low_byte value.now }
{
    match value {
        None => 0,
        Some(value) => (number(value).bits() % 256) as u8,
    }
}

// Where a call puts its result, and where it goes on.
fn result_of(node: Option<&Node>) -> Option<RegId>
    ensures { result ≡ result_in (option_copied node.entry) }
{
    match node {
        Some(Node::Call { result, .. }) => *result,
        _ => None,
    }
}

fn next_of(node: Option<&Node>) -> NodeId
    ensures { result ≡ next_in (option_copied node.entry) }
{
    match node {
        Some(Node::Call { next, .. }) => *next,
        _ => NodeId(0),
    }
}

fn set_result(frame: &mut Frame, register: Option<RegId>, value: Option<ConcreteValue>)
    ensures { frame_of frame.new ≡ spec.set_result register value (frame_of frame.old) }
{
    if let Some(value) = value {
        set_if(frame, register, value);
    }
}

// A frame behind its call, with the result.
fn resumed(program: &ProgramData, mut frame: Frame, value: Option<ConcreteValue>) -> Frame
    ensures { frame_of result ≡ spec.resumed (node_at program.now frame.func frame.node) value (frame_of frame) }
{
    let call = node_in(program, frame.func, frame.node);
    set_result(&mut frame, result_of(call), value);
    frame.node = next_of(call);
    frame
}

impl Machine {
    /// Ends the newest frame, and the run where it is main's first.
    pub(crate) fn ret(
        &mut self,
        program: &ProgramData,
        value: &Option<Operand>,
    ) -> Result<Led, AllocError>
        requires whole { IsWhole program.now }
        requires keeps { Keeps program.now self.old.store (frame_of self.old.frame) }
        ensures { IfOk result (λ led. (input : List ℕ) → Attempts program.now input (node.Ret value.now) self.old self.new led) }
    {
        let value = returned(&self.frame, value)?;
        let nodes = nodes_of(program, self.frame.func);
        end_objects(&mut self.store, &self.frame, nodes)?;
        match self.callers.pop() {
            None => Ok(Led::Exited(low_byte(&value))),
            Some(caller) => {
                self.frame = resumed(program, caller, value);
                Ok(Led::On)
            }
        }
    }
}
