//! The nodes of functions.
ghost use Rattle.std.specs.Prelude.{◌≡◌, ◌++◌, ◌∷◌, [], ◌+◌, IfOk, IsTrue, length, map};
ghost use Rattle.std.specs.List.{flat_map, list_all};
ghost use Rattle.ir_programs.specs.Flow as flow;
ghost use Rattle.ir_programs.specs.Nodes as spec;
ghost use Rattle.ir_programs.specs.Readable.{is_readable_block, is_readable_function};

use crate::edges::push_edges;
use crate::flow::{node_count, size_of_block};
use crate::instructions::push_instructions;
use crate::names::counted_on;
use crate::scope::{Scope, Whole};
use crate::terminators::{behind_block, terminator_node};
use flat_ir::Node;
use ir_programs::{locals_of, register_names};
use ir_tree::instructions::Block;
use ir_tree::module::FunctionDefinition;
use plain_list::Sequence;
use std::alloc::{AllocError, Global};

/// The nodes of a block, the first of which has a number, its first edge's node having number `k`; and the number behind them.
fn push_block<'a>(
    alloc: Global,
    scope: &Scope<'a>,
    nodes: &mut Vec<Node>,
    first: u32,
    k: u32,
    block: &'a Block,
) -> Result<u32, AllocError>
    requires { IsTrue (is_readable_block block.now) }
    ensures nodes { IfOk result (λ n. nodes.new.items ≡ nodes.old.items ++ (spec.instruction_nodes scope.now.whole.now.tree.now scope.now.function.now first block.now.instructions ++ spec.terminator_node scope.now.whole.now.tree.now scope.now.function.now k block.now.terminator.form ∷ [])) }
    ensures behind { IfOk result (λ n. n ≡ first + flow.size_of_block block.now) }
{
    push_instructions(alloc, scope, nodes, first, block.instructions.as_slice())?;
    let node = terminator_node(alloc, scope, k, &block.terminator.form)?;
    nodes.push(node)?;
    counted_on(first, size_of_block(block)?)
}

/// The nodes of all blocks.
fn push_blocks(alloc: Global, scope: &Scope, nodes: &mut Vec<Node>) -> Result<(), AllocError>
    requires { IsTrue (list_all is_readable_block scope.now.function.now.blocks) }
    ensures { IfOk result (λ u. nodes.new.items ≡ nodes.old.items ++ spec.nodes_from scope.now.whole.now.tree.now scope.now.function.now 0 (flow.node_count scope.now.function.now.blocks) scope.now.function.now.blocks) }
{
    let blocks = scope.function.blocks.as_slice();
    let mut first = 0;
    let mut edge = node_count(blocks)?;
    for block in blocks {
        first = push_block(alloc, scope, nodes, first, edge, block)?;
        edge = behind_block(scope.function, edge, block)?;
    }
    Ok(())
}

/// The nodes of all edges into blocks with phis.
fn push_all_edges(alloc: Global, scope: &Scope, nodes: &mut Vec<Node>) -> Result<(), AllocError>
    requires { IsTrue (list_all is_readable_block scope.now.function.now.blocks) }
    ensures { IfOk result (λ u. nodes.new.items ≡ nodes.old.items ++ map (spec.edge_node scope.now.whole.now.tree.now scope.now.function.now) (flow.edges_of scope.now.function.now)) }
{
    let blocks = scope.function.blocks.as_slice();
    for block in blocks {
        push_edges(alloc, scope, nodes, block)?;
    }
    Ok(())
}

/// The nodes of a function that was read: those of its blocks in the order of the text, and behind them one for each edge into
/// a block with phis.
pub fn nodes_of(
    alloc: Global,
    whole: &Whole,
    function: &FunctionDefinition,
) -> Result<Sequence<Node>, AllocError>
    requires { IsTrue (is_readable_function function.now) }
    ensures { IfOk result (λ nodes. nodes ≡ spec.nodes_of whole.now.tree.now function.now) }
{
    let locals = locals_of(alloc, function)?;
    let registers = register_names(alloc, locals.as_slice())?;
    let scope = Scope {
        whole,
        function,
        registers: registers.as_slice(),
    };
    let mut nodes = Vec::new(alloc);
    push_blocks(alloc, &scope, &mut nodes)?;
    push_all_edges(alloc, &scope, &mut nodes)?;
    Ok(Sequence::from_vec(nodes))
}
