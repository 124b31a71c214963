//! Bad edges: a branch to the first block, and phis whose labels aren't exactly the predecessors of their block.
ghost use Rattle.std.specs.Prelude.{◌≡◌, ◌++◌, ◌∷◌, [], Bool, true, map, IfOk};
ghost use Rattle.ir_programs.specs.Edges as spec;
ghost use Rattle.ir_tree.specs.declared.instructions.Instruction.{Instruction};

use crate::marked::where_false;
use crate::phis::{are_phis_right, leads_to};
use flat_ir::NodeId;
use ir_tree::instructions::{Block, Instruction};
use ir_tree::module::FunctionDefinition;
use plain_list::Sequence;
use std::alloc::{AllocError, Global};
use tree_nodes::label_of;

/// Whether a block doesn't lead to the first one.
fn leads_right(function: &FunctionDefinition, block: &Block) -> bool
    ensures { result ≡ spec.leads_right function.now block.now }
{
    match function.blocks.as_slice() {
        [] => true,
        [first, ..] => !leads_to(&block.terminator.form, label_of(first)),
    }
}

/// Puts for each node of a block whether its edges are good: the first stands for the phis, the last for the branch.
fn push_nodes(
    tests: &mut Vec<bool>,
    phis: bool,
    instructions: &[Instruction],
    branch: bool,
) -> Result<(), AllocError>
    ensures { IfOk result (λ u. tests.new.items ≡ tests.old.items ++ spec.with_first phis (map (λ (i : Instruction). true) instructions.now ++ branch ∷ [])) }
{
    let mut first = phis;
    'each: for _ in instructions {
        tests.push(first)?;
        first = true;
    }
    tests.push(first && branch)?;
    Ok(())
}

fn push_block(
    alloc: Global,
    tests: &mut Vec<bool>,
    function: &FunctionDefinition,
    block: &Block,
) -> Result<(), AllocError>
    ensures { IfOk result (λ u. tests.new.items ≡ tests.old.items ++ spec.block_edges_right function.now block.now) }
{
    let phis = are_phis_right(alloc, function, block)?;
    let branch = leads_right(function, block);
    push_nodes(tests, phis, block.instructions.as_slice(), branch)
}

/// The nodes of a function whose edges are bad: a terminator that leads to the first block, and the first node of a block whose
/// phis don't have exactly its predecessors as their labels.
pub fn bad_edges_of(
    alloc: Global,
    function: &FunctionDefinition,
) -> Result<Sequence<NodeId>, AllocError>
    ensures { IfOk result (λ nodes. nodes ≡ spec.bad_edges_of function.now) }
{
    let mut tests = Vec::new(alloc);
    let blocks = function.blocks.as_slice();
    for block in blocks {
        push_block(alloc, &mut tests, function, block)?;
    }
    where_false(alloc, tests.as_slice())
}
