//! Nodes by the tests that they don't pass.
ghost use Rattle.std.specs.Prelude.{◌≡◌, IfOk};
ghost use Rattle.ir_programs.specs.Fits as spec;

use flat_ir::NodeId;
use plain_list::Sequence;
use std::alloc::{AllocError, Global};
use tree_nodes::narrow;

/// The numbers of the places at which a list has false. One that 32 bits don't hold is none that memory holds.
pub fn where_false(alloc: Global, tests: &[bool]) -> Result<Sequence<NodeId>, AllocError>
    ensures { IfOk result (λ nodes. nodes ≡ spec.where_false 0 tests.now) }
{
    let mut nodes = Sequence::new(alloc);
    'places: for place in 0..tests.len() {
        if !tests[place] {
            nodes.push(NodeId(narrow(place)?))?;
        }
    }
    Ok(nodes)
}
