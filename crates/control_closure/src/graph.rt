//! Graphs.
ghost use Rattle.std.specs.Prelude.{◌≡◌, ◌<◌, ℕ, [], length, slice_index_or};
ghost use Rattle.std.specs.List.{Contains};
ghost use Rattle.control_closure.specs.Met.{IsGraph};
ghost use Rattle.control_closure.specs.Tells.{Tells};

use plain_list::Sequence;

/// Whether each number lies below a bound.
fn are_below(numbers: &[u32], bound: usize) -> bool
    ensures { Tells result ((k : ℕ) → Contains numbers.now k → k < bound) }
{
    for number in numbers {
        if *number as usize >= bound {
            return false;
        }
    }
    true
}

/// A graph whose nodes are numbers from 0: the successors of each.
#[derive(Drop)]
pub struct Graph {
    pub succ: Sequence<Sequence<u32>>,
}

impl Graph {
    /// How many nodes there are.
    pub fn len(&self) -> usize
        ensures { result ≡ length self.now.succ }
    {
        self.succ.len()
    }

    /// The nodes that an edge leads to from a node.
    pub fn successors(&self, node: usize) -> &[u32]
        requires { node < length self.now.succ }
        ensures { result.now ≡ slice_index_or self.now.succ node [] }
    {
        self.succ.as_slice()[node].as_slice()
    }

    /// Whether each successor is a node.
    pub fn is_graph(&self) -> bool
        ensures { Tells result (IsGraph self.now.succ) }
    {
        for node in 0..self.len() {
            if !are_below(self.successors(node), self.len()) {
                return false;
            }
        }
        true
    }
}
