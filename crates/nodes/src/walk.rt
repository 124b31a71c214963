ghost use Rattle.std.specs.Prelude.{◌≡◌, ◌<◌, ◌++◌, [], ◌∷◌, ℕ, true, false, length, flat_map, slice_set, MatchOption, OnOk};
ghost use Rattle.gates.specs.Clauses.{gates_of, met_after};
ghost use Rattle.nodes.specs.Nodes.{bit_at, IsTable};
ghost use Rattle.nodes.specs.Names as spec;
ghost use Rattle.nodes.specs.Names.{bits_at, is_done, node_of, AreDone, AreWithin, IsNaming, IsUndone};

use crate::table::{Node, Table};
use std::alloc::{AllocError, Global};

/// The first operand of a place that is not done.
fn undone(table: &Table, k: usize, done: &[bool]) -> Option<usize>
    requires within { k < length table.now }
    requires table { IsTable table.now }
    requires sized { length done.now ≡ length table.now }
    ensures { MatchOption result (AreDone done.now (node_of table.now k)) (IsUndone done.now (node_of table.now k)) }
{
    match table.node(k) {
        Node::Constant(_) | Node::Input(_) => None,
        Node::Not(a) => { if done[a] { None } else { Some(a) } }
        Node::And(a, b) | Node::Xor(a, b) => {
            if !done[a] {
                Some(a)
            } else if !done[b] {
                Some(b)
            } else {
                None
            }
        }
    }
}

/// Whether the node is one that has clauses.
fn is_gate(node: Node) -> bool
    ensures { result ≡ spec.is_gate node }
{
    matches!(node, Node::And(_, _) | Node::Xor(_, _))
}

/// Numbers the place, if it is a gate. Its operands are done, and now it is.
fn finish(
    table: &Table,
    k: usize,
    done: &mut [bool],
    names: &mut Vec<usize>,
) -> Result<(), AllocError>
    requires table { IsTable table.now }
    requires within { k < length table.now }
    requires naming { IsNaming table.now done.old names.old.items }
    requires operands { AreDone done.old (node_of table.now k) }
    requires undone { is_done done.old k ≡ false }
    ensures done { OnOk result (done.new ≡ slice_set done.old k true) }
    ensures naming { OnOk result (IsNaming table.now done.new names.new.items) }
    ensures met { OnOk result (bits_at table.now names.new.items ≡ met_after (bits_at table.now names.old.items) (gates_of (bit_at table.now k))) }
{
    let gate = is_gate(table.node(k));
    if gate {
        names.push(k)?;
    }
    done[k] = true;
    Ok(())
}

/// Numbers the gates of an expression that have no number: left before right before itself. The
/// places that wait for their operands stand in a list, not on the stack.
fn visit(
    alloc: Global,
    table: &Table,
    first: usize,
    done: &mut [bool],
    names: &mut Vec<usize>,
) -> Result<(), AllocError>
    requires table { IsTable table.now }
    requires within { first < length table.now }
    requires naming { IsNaming table.now done.old names.old.items }
    ensures naming { OnOk result (IsNaming table.now done.new names.new.items) }
    ensures met { OnOk result (bits_at table.now names.new.items ≡ met_after (bits_at table.now names.old.items) (gates_of (bit_at table.now first))) }
{
    if done[first] {
        return Ok(());
    }
    let mut waiting: Vec<usize> = Vec::new(alloc);
    let mut k = first;
    loop {
        match undone(table, k, done) {
            Some(operand) => {
                waiting.push(k)?;
                k = operand;
            }
            None => {
                finish(table, k, done, names)?;
                match waiting.pop() {
                    Some(above) => k = above,
                    None => return Ok(()),
                }
            }
        }
    }
}

/// Numbers the gates of the conjuncts, in order. `names` has the places that have a number, each
/// at its number, and `done` the places all of whose gates have one. The memory is that of the
/// gates, and the stack is not used.
pub fn visit_all(
    alloc: Global,
    table: &Table,
    conjuncts: &[usize],
    done: &mut [bool],
    names: &mut Vec<usize>,
) -> Result<(), AllocError>
    requires within { AreWithin table.now conjuncts.now }
    requires naming { IsNaming table.now done.old names.old.items }
    ensures naming { OnOk result (IsNaming table.now done.new names.new.items) }
    ensures met { OnOk result (bits_at table.now names.new.items ≡ met_after (bits_at table.now names.old.items) (flat_map gates_of (bits_at table.now conjuncts.now))) }
{
    let _len = table.len();
    for &k in conjuncts {
        visit(alloc, table, k, done, names)?;
    }
    Ok(())
}
