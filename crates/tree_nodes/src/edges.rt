//! The nodes of edges into blocks with phis.
ghost use Rattle.std.specs.Prelude.{◌≡◌, ◌++◌, ◌∷◌, [], IfOk, IsTrue, map};
ghost use Rattle.std.specs.List.{list_all};
ghost use Rattle.ir_programs.specs.Flow as flow;
ghost use Rattle.ir_programs.specs.Locals as locals;
ghost use Rattle.ir_programs.specs.Nodes as spec;
ghost use Rattle.ir_programs.specs.Operands.{operand_of as operand_in};
ghost use Rattle.ir_programs.specs.Parts.{case_label, register_type as type_in, targets, written};
ghost use Rattle.ir_programs.specs.Readable.{has_widths, is_readable_block, is_readable_phi, is_readable_value};
ghost use Rattle.tree_nodes.specs.Edges.{edge_sets_of, target_nodes};

use crate::flow::{label_of, phis_of, start_of, value_from};
use crate::operands::{operand_of, register_of};
use crate::scope::Scope;
use flat_ir::{MoveSet, Node, NodeId, Operand};
use ir_programs::register_type;
use ir_tree::constants::Value;
use ir_tree::instructions::{Block, Case, Phi, TerminatorForm};
use ir_tree::types::Name;
use plain_list::Sequence;
use std::alloc::{AllocError, Global};

/// What a phi has on an edge.
fn set_value(scope: &Scope, phi: &Phi, value: &Value) -> Result<Operand, AllocError>
    requires phi { IsTrue (has_widths phi.now.kind) }
    requires value { IsTrue (is_readable_value value.now) }
    ensures { IfOk result (λ o. o ≡ operand_in scope.now.whole.now.tree.now scope.now.function.now (written (type_in phi.now.kind) value.now)) }
{
    operand_of(scope, register_type(&phi.kind), value)
}

fn push_set(
    scope: &Scope,
    sets: &mut Vec<MoveSet>,
    source: &[u8],
    phi: &Phi,
) -> Result<(), AllocError>
    requires { IsTrue (is_readable_phi phi.now) }
    ensures { IfOk result (λ u. sets.new.items ≡ sets.old.items ++ spec.set_to scope.now.whole.now.tree.now scope.now.function.now phi.now (flow.value_from source.now phi.now.incoming)) }
{
    match value_from(source, phi.incoming.as_slice()) {
        Some(value) => {
            let value = set_value(scope, phi, value)?;
            let register = register_of(scope, phi.result.text.as_slice())?;
            sets.push(MoveSet { register, value })?;
            Ok(())
        }
        None => Ok(()),
    }
}

/// All phis of a block are set at once, but those that have no value on the edge.
fn edge_sets(
    alloc: Global,
    scope: &Scope,
    source: &[u8],
    phis: &[Phi],
) -> Result<Sequence<MoveSet>, AllocError>
    requires { IsTrue (list_all is_readable_phi phis.now) }
    ensures { IfOk result (λ sets. sets ≡ edge_sets_of scope.now.whole.now.tree.now scope.now.function.now source.now phis.now) }
{
    let mut sets = Vec::new(alloc);
    for phi in phis {
        push_set(scope, &mut sets, source, phi)?;
    }
    Ok(Sequence::from_vec(sets))
}

/// The node of an edge into a block with these phis.
fn edge_node(
    alloc: Global,
    scope: &Scope,
    source: &[u8],
    target: &[u8],
    phis: &[Phi],
) -> Result<Node, AllocError>
    requires readable { IsTrue (list_all is_readable_block scope.now.function.now.blocks) }
    requires phis { phis.now ≡ flow.phis_of scope.now.function.now target.now }
    ensures { IfOk result (λ node. node ≡ spec.edge_node scope.now.whole.now.tree.now scope.now.function.now (record { source = source.now; target = target.now })) }
{
    Ok(Node::Moves {
        sets: edge_sets(alloc, scope, source, phis)?,
        next: NodeId(start_of(scope.function, target)?),
    })
}

/// The node of an edge, if its block has phis.
fn push_edge(
    alloc: Global,
    scope: &Scope,
    nodes: &mut Vec<Node>,
    source: &[u8],
    to: &Name,
) -> Result<(), AllocError>
    requires { IsTrue (list_all is_readable_block scope.now.function.now.blocks) }
    ensures { IfOk result (λ u. nodes.new.items ≡ nodes.old.items ++ target_nodes scope.now.whole.now.tree.now scope.now.function.now source.now (to.now ∷ [])) }
{
    let target = to.text.as_slice();
    match phis_of(scope.function, target) {
        [] => Ok(()),
        phis => {
            let node = edge_node(alloc, scope, source, target, phis)?;
            nodes.push(node)?;
            Ok(())
        }
    }
}

fn push_cases(
    alloc: Global,
    scope: &Scope,
    nodes: &mut Vec<Node>,
    source: &[u8],
    cases: &[Case],
) -> Result<(), AllocError>
    requires { IsTrue (list_all is_readable_block scope.now.function.now.blocks) }
    ensures { IfOk result (λ u. nodes.new.items ≡ nodes.old.items ++ target_nodes scope.now.whole.now.tree.now scope.now.function.now source.now (map case_label cases.now)) }
{
    for case in cases {
        push_edge(alloc, scope, nodes, source, &case.label)?;
    }
    Ok(())
}

fn push_targets(
    alloc: Global,
    scope: &Scope,
    nodes: &mut Vec<Node>,
    block: &Block,
) -> Result<(), AllocError>
    requires { IsTrue (list_all is_readable_block scope.now.function.now.blocks) }
    ensures { IfOk result (λ u. nodes.new.items ≡ nodes.old.items ++ target_nodes scope.now.whole.now.tree.now scope.now.function.now (locals.label_of block.now) (targets block.now.terminator.form)) }
{
    let source = label_of(block);
    match &block.terminator.form {
        TerminatorForm::Return(_) | TerminatorForm::Unreachable => Ok(()),
        TerminatorForm::Jump(to) => push_edge(alloc, scope, nodes, source, to),
        TerminatorForm::Branch {
            if_true,
            if_false,
            ..
        } => {
            push_edge(alloc, scope, nodes, source, if_true)?;
            push_edge(alloc, scope, nodes, source, if_false)
        }
        TerminatorForm::Switch { default, cases, .. } => {
            push_cases(alloc, scope, nodes, source, cases.as_slice())?;
            push_edge(alloc, scope, nodes, source, default)
        }
    }
}

/// The nodes of the edges from a block, in the order of its successors.
pub(crate) fn push_edges(
    alloc: Global,
    scope: &Scope,
    nodes: &mut Vec<Node>,
    block: &Block,
) -> Result<(), AllocError>
    requires { IsTrue (list_all is_readable_block scope.now.function.now.blocks) }
    ensures { IfOk result (λ u. nodes.new.items ≡ nodes.old.items ++ map (spec.edge_node scope.now.whole.now.tree.now scope.now.function.now) (flow.block_edges scope.now.function.now block.now)) }
{
    push_targets(alloc, scope, nodes, block)
}
