//! What a slice collects, and what follows from what.
use flat_ir::{FuncId, Location, NodeId, RegId};

/// A fact of a slice: a node is retained, a location is needed, a retained node reads a register, a function's returns are retained,
/// a function has a retained node.
#[derive(Clone, Copy)]
pub enum Mark {
    Kept(FuncId, NodeId),
    Needed(Location),
    Wanted(FuncId, RegId),
    Returns(FuncId),
    Holds(FuncId),
}

/// The second fact follows from the first.
#[derive(Clone, Copy)]
pub struct Link {
    pub from: Mark,
    pub to: Mark,
}
