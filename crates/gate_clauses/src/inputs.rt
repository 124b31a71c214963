ghost use Rattle.std.specs.Prelude.{◌≡◌, ◌<◌, ℕ, false, None, length, map, replicate, IfOk, List};
ghost use Rattle.gates.specs.Bits.{Bit, input};
ghost use Rattle.gates.specs.Clauses.{inputs_of};
ghost use Rattle.nodes.specs.Nodes.{IsTable};
ghost use Rattle.nodes.specs.Names.{bits_at, node_of, AreWithin};
ghost use Rattle.gate_clauses.specs.Marks.{ArePlaces, Marks, MarksOperands, position, Notes};

use nodes::{Node, Table};
use std::alloc::{AllocError, Global};

/// How many bits 64 bytes of input have.
const INPUT_BITS: usize = 512;

/// Marks the operands of a place.
fn mark_operands(table: &Table, k: usize, marks: &mut [bool])
    requires within { k < length table.now }
    requires table { IsTable table.now }
    requires sized { length marks.old ≡ length table.now }
    ensures { MarksOperands (node_of table.now k) marks.old marks.new }
{
    match table.node(k) {
        Node::Constant(_) | Node::Input(_) => {}
        Node::Not(a) => marks[a] = true,
        Node::And(a, b) | Node::Xor(a, b) => {
            marks[a] = true;
            marks[b] = true;
        }
    }
}

/// Marks the conjuncts.
fn mark_conjuncts(
    alloc: Global,
    table: &Table,
    conjuncts: &[usize],
) -> Result<Vec<bool>, AllocError>
    requires { AreWithin table.now conjuncts.now }
    ensures { IfOk result (λ marks. Marks table.now (bits_at table.now conjuncts.now) (length table.now) marks.items) }
{
    let mut marks = unmarked(alloc, table.len())?;
    for &k in conjuncts {
        marks[k] = true;
    }
    Ok(marks)
}

/// As many marks as there are places, none set.
pub(crate) fn unmarked(alloc: Global, len: usize) -> Result<Vec<bool>, AllocError>
    ensures { IfOk result (λ marks. marks.items ≡ replicate len false) }
{
    let mut marks = Vec::new(alloc);
    for _ in 0..len {
        marks.push(false)?;
    }
    Ok(marks)
}

/// Marks all places that the conjuncts read. An operand stands below its node, so one pass
/// from the last place down is enough.
fn mark_read(alloc: Global, table: &Table, conjuncts: &[usize]) -> Result<Vec<bool>, AllocError>
    requires { AreWithin table.now conjuncts.now }
    ensures { IfOk result (λ marks. Marks table.now (bits_at table.now conjuncts.now) 0 marks.items) }
{
    let mut marks = mark_conjuncts(alloc, table, conjuncts)?;
    mark_down(table, marks.as_mut_slice());
    Ok(marks)
}

/// Hands each mark down to the operands.
fn mark_down(table: &Table, marks: &mut [bool])
    requires { length marks.old ≡ length table.now }
    ensures { (c : List Bit) → Marks table.now c (length table.now) marks.old → Marks table.now c 0 marks.new }
{
    let mut k = table.len();
    while k > 0 {
        k -= 1;
        if marks[k] {
            mark_operands(table, k, marks);
        }
    }
}

/// The place of each marked input bit.
fn input_places(
    alloc: Global,
    table: &Table,
    marks: &[bool],
) -> Result<Vec<Option<usize>>, AllocError>
    requires { length marks.now ≡ length table.now }
    ensures places { IfOk result (λ places. ArePlaces table.now marks.now (length table.now) places.items) }
    ensures table { IsTable table.now }
{
    let len = table.len();
    let mut places = no_places(alloc)?;
    for k in 0..len {
        if marks[k] {
            note_input(table.node(k), k, &mut places);
        }
    }
    Ok(places)
}

/// Room for the place of each input bit.
fn no_places(alloc: Global) -> Result<Vec<Option<usize>>, AllocError>
    ensures { IfOk result (λ places. places.items ≡ replicate 512 None) }
{
    let mut places = Vec::new(alloc);
    for _ in 0..INPUT_BITS {
        places.push(None)?;
    }
    Ok(places)
}

/// Notes the place of an input bit.
fn note_input(node: Node, k: usize, places: &mut Vec<Option<usize>>)
    requires { length places.old.items ≡ 512 }
    ensures { Notes node k places.old.items places.new.items }
{
    if let Node::Input(j) = node {
        let j = usize::from(j);
        if j < INPUT_BITS {
            places[j] = Some(k);
        }
    }
}

/// The input bits that the conjuncts read, in their order: their places, and what they are.
#[derive(Drop)]
pub(crate) struct Inputs {
    pub(crate) names: Vec<usize>,
    pub(crate) bits: Vec<(u8, u8)>,
}

/// The input bits that occur in the conjuncts, byte after byte, the most significant bit first.
pub(crate) fn inputs_at(
    alloc: Global,
    table: &Table,
    conjuncts: &[usize],
) -> Result<Inputs, AllocError>
    requires { AreWithin table.now conjuncts.now }
    ensures within { IfOk result (λ r. AreWithin table.now r.names.items) }
    ensures names { IfOk result (λ r. bits_at table.now r.names.items ≡ map input (inputs_of (bits_at table.now conjuncts.now))) }
    ensures bits { IfOk result (λ r. r.bits.items ≡ map position (inputs_of (bits_at table.now conjuncts.now))) }
{
    let marks = mark_read(alloc, table, conjuncts)?;
    let places = input_places(alloc, table, &marks)?;
    let mut names = Vec::new(alloc);
    let mut bits = Vec::new(alloc);
    for j in 0..INPUT_BITS {
        if let Some(k) = places[j] {
            names.push(k)?;
            bits.push(((j / 8) as u8, (7 - j % 8) as u8))?;
        }
    }
    Ok(Inputs { names, bits })
}
