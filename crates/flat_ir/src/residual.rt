//! What is left of a program when a slice of it is executed alone.
use crate::NodeId;
use plain_list::Sequence;

/// Where a residual run goes on: at a retained node, at the end of the frame, or nowhere, since no retained node
/// can be met.
#[derive(Clone, Copy, Debug, PartialEq, Eq)]
pub enum Next {
    Node(NodeId),
    End,
    Never,
}

/// The retained nodes of a function: where its entry leads, and for each of its nodes `None` if the node isn't
/// retained, else where each of its successors leads, in their order.
#[derive(Drop)]
pub struct Kept {
    pub start: Next,
    pub nexts: Sequence<Option<Sequence<Next>>>,
}

/// The retained nodes of each function of a program, in their order.
#[derive(Drop)]
pub struct Residual {
    pub funcs: Sequence<Kept>,
}
