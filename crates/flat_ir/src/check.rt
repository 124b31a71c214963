//! Why a program is refused.
use crate::{FuncId, NodeId, RegId};

/// The first node, by function and node, at which a check of a program fails.
#[derive(Clone, Copy, Debug, PartialEq, Eq)]
pub enum CheckError {
    /// On some path from the entry to the node no node before it defines the register, which the node reads.
    Undefined {
        function: FuncId,
        node: NodeId,
        register: RegId,
    },
    /// An operand, argument or result doesn't have the type that the node or its callee needs.
    TypeClash {
        function: FuncId,
        node: NodeId,
    },
    /// An edge goes to the first block, or the labels of a phi aren't the predecessors of its block.
    BadEdge {
        function: FuncId,
        node: NodeId,
    },
}
