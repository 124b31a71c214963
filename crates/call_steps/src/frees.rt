//! What a frame frees as it ends.
ghost use Rattle.std.specs.Prelude.{◌≡◌, slice_get, unwrap_or, IfOk, OnOk};
ghost use Rattle.flat_ir.specs.declared.names.ObjectName.TheVariants as object;
ghost use Rattle.sym_states.specs.Attempts as attempts;
ghost use Rattle.state_sides.specs.Views.{context_of, state_seen};
ghost use Rattle.call_steps.specs.Frees.{with_frees};

use decider::Decide;
use flat_ir::{CallStep, Node, NodeId, ObjectName};
use places::Home;
use state_sides::{Machine, State, nodes_of};
use std::alloc::AllocError;
use sym_bytes::Entry;
use sym_states::Frame;
use write_log::{Memory, SymMemory};

// What the frame's node made when it was executed for the count-th time.
fn object_of<H: Home>(frame: &Frame<H>, node: NodeId, count: u64) -> Result<ObjectName, AllocError>
    ensures { IfOk result (λ x. x ≡ object.Made frame.now.name (record { func = frame.now.func; node = node; count = count })) }
{
    let func = frame.func();
    let made = CallStep { func, node, count };
    let frame = frame.name().copy()?;
    Ok(ObjectName::Made { frame, made })
}

// Frees what a node of the frame made, which was executed so often.
fn free_all_of<H: Home, K: SymMemory>(
    memory: &mut Memory<H, K>,
    frame: &Frame<H>,
    node: NodeId,
    count: u64,
) -> Result<(), AllocError>
    ensures { OnOk result (memory.new ≡ with_frees (attempts.frees_of_node frame.now node.0 count 1) memory.old) }
{
    'counts: for before in 0..count {
        let made = object_of(frame, node, before + 1)?;
        K::append(memory, Entry::free(made))?;
    }
    Ok(())
}

// Frees what the node at a place made, if it is an alloca.
fn free_at<H: Home, K: SymMemory>(
    memory: &mut Memory<H, K>,
    frame: &Frame<H>,
    place: usize,
    node: &Node,
) -> Result<(), AllocError>
    ensures { OnOk result (memory.new ≡ with_frees (attempts.frees_at frame.now place (unwrap_or (slice_get frame.now.counts place) 0) node.now) memory.old) }
{
    let Node::Alloca { .. } = node else {
        return Ok(());
    };
    match u32::try_from(place) {
        Ok(number) => free_all_of(memory, frame, NodeId(number), frame.count(place)),
        Err(_) => Err(AllocError),
    }
}

// Frees what the nodes of the frame's function made, by node and then by count.
fn free_from<H: Home, K: SymMemory>(
    memory: &mut Memory<H, K>,
    frame: &Frame<H>,
    nodes: &[Node],
) -> Result<(), AllocError>
    ensures { OnOk result (memory.new ≡ with_frees (attempts.frees_from frame.now 0 nodes.now) memory.old) }
{
    let mut place = 0;
    'nodes: for node in nodes {
        free_at(memory, frame, place, node)?;
        place += 1;
    }
    Ok(())
}

/// The state whose frame ends: what the frame's allocas made is freed, by node and then by count.
///
/// # Errors
///
/// No memory, or a node past its bound.
pub fn ended<H: Home, K: SymMemory, D: Decide>(
    machine: &Machine<'_, H, D>,
    mut state: State<H, K>,
) -> Result<State<H, K>, AllocError>
    ensures { IfOk result (λ s. state_seen s ≡ attempts.ended (context_of machine.now.scope) (state_seen state)) }
{
    let nodes = nodes_of(machine.scope.program, state.frame.func());
    free_from(&mut state.memory, &state.frame, nodes)?;
    Ok(state)
}
