//! A place where a register may be read before it is set.
use flat_ir::{NodeId, RegId};

/// A node, and a register that it reads though on some path nothing has set it.
#[derive(Clone, Copy, Debug, PartialEq, Eq)]
pub struct Undefined {
    pub node: NodeId,
    pub register: RegId,
}
