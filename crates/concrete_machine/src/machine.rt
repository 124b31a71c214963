//! The machine and its frames.
use concrete_memory::Store;
use flat_ir::{ConcreteValue, FaultKind, FrameName, FuncId, NodeId};
use plain_list::Sequence;
use std::alloc::Global;

/// A function at a node, its registers, its name, and how often it has executed each node.
#[derive(Drop)]
pub(crate) struct Frame {
    pub(crate) func: FuncId,
    pub(crate) node: NodeId,
    pub(crate) regs: Vec<ConcreteValue>,
    pub(crate) name: FrameName,
    pub(crate) counts: Vec<u64>,
}

/// The newest frame, those that called it, the oldest first, memory, how much of the input was read, and what was written
/// out.
#[derive(Drop)]
pub(crate) struct Machine {
    pub(crate) alloc: Global,
    pub(crate) frame: Frame,
    pub(crate) callers: Vec<Frame>,
    pub(crate) store: Store,
    pub(crate) position: usize,
    pub(crate) output: Sequence<u8>,
}

/// Where one step leads: the run goes on, or it is over with a status, or with a fault of the frame's node.
#[derive(Clone, Copy, Debug)]
pub(crate) enum Led {
    On,
    Exited(u8),
    Faulted(FaultKind),
}
