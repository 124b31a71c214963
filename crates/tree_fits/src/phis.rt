//! Phis, and the blocks that lead to theirs.
ghost use Rattle.std.specs.Prelude.{◌≡◌, ◌++◌, ◌∷◌, [], ◌||◌, not, map, IfOk};
ghost use Rattle.std.specs.List.{list_all};
ghost use Rattle.ir_programs.specs.Edges as spec;
ghost use Rattle.ir_programs.specs.Parts as parts;
ghost use Rattle.ir_programs.specs.Texts.{among, texts};
ghost use Rattle.ir_tree.specs.Texts.{same};

use crate::spelled::same_value;
use ir_programs::{is_known, is_same};
use ir_tree::instructions::{Block, Case, Incoming, Phi, TerminatorForm};
use ir_tree::module::FunctionDefinition;
use ir_tree::types::Name;
use plain_list::Sequence;
use std::alloc::{AllocError, Global};
use tree_nodes::label_of;

fn is_case(cases: &[Case], name: &[u8]) -> bool
    ensures { result ≡ among name.now (texts (map parts.case_label cases.now)) }
{
    'each: for case in cases {
        if is_same(case.label.text.as_slice(), name) {
            return true;
        }
    }
    false
}

#[tactic(auto, using(crate::proofs::Leading::among_cases))]
fn is_case_or(cases: &[Case], default: &Name, name: &[u8]) -> bool
    ensures { result ≡ among name.now (texts (map parts.case_label cases.now ++ default.now ∷ [])) }
{
    is_case(cases, name) || is_same(default.text.as_slice(), name)
}

/// Whether a terminator leads to the block with this label.
pub fn leads_to(form: &TerminatorForm, name: &[u8]) -> bool
    ensures { result ≡ among name.now (texts (parts.targets form.now)) }
{
    match form {
        TerminatorForm::Return(_) | TerminatorForm::Unreachable => false,
        TerminatorForm::Jump(to) => is_same(to.text.as_slice(), name),
        TerminatorForm::Branch {
            if_true,
            if_false,
            ..
        } => is_same(if_true.text.as_slice(), name) || is_same(if_false.text.as_slice(), name),
        TerminatorForm::Switch { default, cases, .. } => {
            is_case_or(cases.as_slice(), default, name)
        }
    }
}

/// The labels of the blocks that lead to a block.
fn predecessors(
    alloc: Global,
    function: &FunctionDefinition,
    name: &[u8],
) -> Result<Sequence<Sequence<u8>>, AllocError>
    ensures { IfOk result (λ labels. labels ≡ spec.predecessors function.now name.now) }
{
    let mut labels = Sequence::new(alloc);
    let blocks = function.blocks.as_slice();
    'each: for block in blocks {
        if leads_to(&block.terminator.form, name) {
            labels.push(Sequence::from_slice(alloc, label_of(block))?)?;
        }
    }
    Ok(labels)
}

fn is_label(incoming: &[Incoming], name: &[u8]) -> bool
    ensures { result ≡ among name.now (texts (map parts.incoming_label incoming.now)) }
{
    'each: for value in incoming {
        if is_same(value.label.text.as_slice(), name) {
            return true;
        }
    }
    false
}

/// Whether each label of a phi is one of those.
fn are_labels_known(incoming: &[Incoming], sources: &[Sequence<u8>]) -> bool
    ensures { result ≡ list_all (λ l. among l sources.now) (texts (map parts.incoming_label incoming.now)) }
{
    'each: for value in incoming {
        if !is_known(value.label.text.as_slice(), sources) {
            return false;
        }
    }
    true
}

/// Whether each of those is a label of the phi.
fn are_all_labels(sources: &[Sequence<u8>], incoming: &[Incoming]) -> bool
    ensures { result ≡ list_all (λ l. among l (texts (map parts.incoming_label incoming.now))) sources.now }
{
    'each: for source in sources {
        if !is_label(incoming, source.as_slice()) {
            return false;
        }
    }
    true
}

/// Whether two labels are two, or their values are written alike.
fn agree(alloc: Global, one: &Incoming, other: &Incoming) -> Result<bool, AllocError>
    ensures { IfOk result (λ b. b ≡ (not (same one.now.label.text other.now.label.text) || spec.same_value one.now.value other.now.value)) }
{
    if !is_same(one.label.text.as_slice(), other.label.text.as_slice()) {
        return Ok(true);
    }
    same_value(alloc, &one.value, &other.value)
}

fn agrees_with(alloc: Global, one: &Incoming, others: &[Incoming]) -> Result<bool, AllocError>
    ensures { IfOk result (λ b. b ≡ list_all (λ other. not (same one.now.label.text other.label.text) || spec.same_value one.now.value other.value) others.now) }
{
    'each: for other in others {
        if !agree(alloc, one, other)? {
            return Ok(false);
        }
    }
    Ok(true)
}

/// Whether a label that is repeated has the same value.
fn all_agree(alloc: Global, incoming: &[Incoming]) -> Result<bool, AllocError>
    ensures { IfOk result (λ b. b ≡ spec.agree incoming.now) }
{
    'places: for place in 0..incoming.len() {
        if !agrees_with(alloc, &incoming[place], &incoming[place + 1..])? {
            return Ok(false);
        }
    }
    Ok(true)
}

/// Whether the labels of a phi are exactly those of the blocks that lead to it.
fn is_phi_of(alloc: Global, sources: &[Sequence<u8>], phi: &Phi) -> Result<bool, AllocError>
    ensures { IfOk result (λ b. b ≡ spec.is_phi_of sources.now phi.now) }
{
    let incoming = phi.incoming.as_slice();
    if !are_labels_known(incoming, sources) {
        return Ok(false);
    }
    if !are_all_labels(sources, incoming) {
        return Ok(false);
    }
    all_agree(alloc, incoming)
}

fn are_phis_of(alloc: Global, sources: &[Sequence<u8>], phis: &[Phi]) -> Result<bool, AllocError>
    ensures { IfOk result (λ b. b ≡ list_all (spec.is_phi_of sources.now) phis.now) }
{
    'each: for phi in phis {
        if !is_phi_of(alloc, sources, phi)? {
            return Ok(false);
        }
    }
    Ok(true)
}

/// Whether the labels of each phi of a block are exactly its predecessors.
pub fn are_phis_right(
    alloc: Global,
    function: &FunctionDefinition,
    block: &Block,
) -> Result<bool, AllocError>
    ensures { IfOk result (λ b. b ≡ spec.are_phis_right function.now block.now) }
{
    let phis = block.phis.as_slice();
    if phis.is_empty() {
        return Ok(true);
    }
    let sources = predecessors(alloc, function, label_of(block))?;
    are_phis_of(alloc, sources.as_slice(), phis)
}
