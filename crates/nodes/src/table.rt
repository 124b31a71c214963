ghost use Rattle.std.specs.Prelude.{◌≡◌, ◌<◌, ℕ, false, List, [], length, slice_index_or, IfOk};
ghost use Rattle.nodes.specs.declared.table.Node.TheVariants.{Constant};
ghost use Rattle.nodes.specs.Nodes.{bit_of, bits_of, bit_at, IsAbove, IsTable, Grows};

use indexmap::IndexSet;
use std::alloc::{AllocError, Global};
use std::marker::Model;

/// A bit expression over the nodes below it.
#[derive(Clone, Copy, PartialEq, Eq, Hash)]
pub enum Node {
    Constant(bool),
    Input(u16),
    Not(usize),
    And(usize, usize),
    Xor(usize, usize),
}

/// Nodes, each of them once.
#[derive(Drop)]
pub struct Table {
    nodes: IndexSet<Node>,
}

impl Model for Table {
    ghost use Rattle.std.specs.Prelude.{List};
    ghost use Rattle.std.specs.Coded.{coded_list};
    ghost use Rattle.nodes.specs.declared.table.Node.{Node};
    ghost use Rattle.nodes.specs.contracts.table.Node as node;
    ghost use Rattle.nodes.specs.Nodes.{IsTable};

    ghost Value = { List Node };

    ghost coded = { coded_list node.the_row.coded };

    ghost view = { λ t. t.nodes.keys };

    ghost invariant = { λ t. IsTable t.nodes.keys };
}

impl Table {
    pub fn new(alloc: Global) -> Table
        ensures { result ≡ [] }
    {
        Table {
            nodes: IndexSet::new(alloc),
        }
    }

    pub fn len(&self) -> usize
        ensures len { result ≡ length self.now }
        ensures table { IsTable self.now }
    {
        self.nodes.len()
    }

    /// The node at a place.
    pub fn node(&self, k: usize) -> Node
        requires { k < length self.now }
        ensures node { result ≡ slice_index_or self.now k (Constant false) }
        ensures bit { bit_at self.now k ≡ bit_of (bits_of self.now) result }
        ensures above { IsAbove k result }
    {
        match self.nodes.get_index(k) {
            Some(node) => *node,
            None => Node::Constant(false),
        }
    }

    /// The place of a node, which is new at most once.
    pub(crate) fn place(&mut self, node: Node) -> Result<usize, AllocError>
        requires { IsAbove (length self.old) node }
        ensures within { IfOk result (λ k. k < length self.new) }
        ensures bit { IfOk result (λ k. bit_at self.new k ≡ bit_of (bits_of self.old) node) }
        ensures grows { Grows self.old self.new }
    {
        let (k, _) = self.nodes.insert_full(node)?;
        Ok(k)
    }
}
