//! The labels and the called names of a function, in the order of the text.
ghost use Rattle.std.specs.Prelude.{◌≡◌, ◌++◌, ◌∷◌, [], map, IfOk};
ghost use Rattle.std.specs.List.{flat_map};
ghost use Rattle.ir_programs.specs.Locals.{label_of as label_in, labels_of as labels_in};
ghost use Rattle.ir_programs.specs.Parts as spec;

use crate::locals::{copied, copied_or_none};
use ir_tree::instructions::{Block, Case, Incoming, Instruction, Operation, Phi, TerminatorForm};
use ir_tree::module::FunctionDefinition;
use ir_tree::types::Name;
use plain_list::Sequence;
use std::alloc::{AllocError, Global};

fn push_name(alloc: Global, names: &mut Vec<Name>, name: &Name) -> Result<(), AllocError>
    ensures { IfOk result (λ u. names.new.items ≡ names.old.items ++ name.now ∷ []) }
{
    names.push(copied(alloc, name)?)?;
    Ok(())
}

fn push_cases(alloc: Global, names: &mut Vec<Name>, cases: &[Case]) -> Result<(), AllocError>
    ensures { IfOk result (λ u. names.new.items ≡ names.old.items ++ map spec.case_label cases.now) }
{
    for case in cases {
        push_name(alloc, names, &case.label)?;
    }
    Ok(())
}

fn push_targets(
    alloc: Global,
    names: &mut Vec<Name>,
    form: &TerminatorForm,
) -> Result<(), AllocError>
    ensures { IfOk result (λ u. names.new.items ≡ names.old.items ++ spec.targets form.now) }
{
    match form {
        TerminatorForm::Return(_) | TerminatorForm::Unreachable => Ok(()),
        TerminatorForm::Jump(to) => push_name(alloc, names, to),
        TerminatorForm::Branch {
            if_true,
            if_false,
            ..
        } => {
            push_name(alloc, names, if_true)?;
            push_name(alloc, names, if_false)
        }
        TerminatorForm::Switch { default, cases, .. } => {
            push_cases(alloc, names, cases.as_slice())?;
            push_name(alloc, names, default)
        }
    }
}

fn push_incoming(
    alloc: Global,
    names: &mut Vec<Name>,
    incoming: &[Incoming],
) -> Result<(), AllocError>
    ensures { IfOk result (λ u. names.new.items ≡ names.old.items ++ map spec.incoming_label incoming.now) }
{
    for value in incoming {
        push_name(alloc, names, &value.label)?;
    }
    Ok(())
}

fn push_phis(alloc: Global, names: &mut Vec<Name>, phis: &[Phi]) -> Result<(), AllocError>
    ensures { IfOk result (λ u. names.new.items ≡ names.old.items ++ flat_map spec.phi_labels phis.now) }
{
    for phi in phis {
        push_incoming(alloc, names, phi.incoming.as_slice())?;
    }
    Ok(())
}

fn push_labels(alloc: Global, names: &mut Vec<Name>, block: &Block) -> Result<(), AllocError>
    ensures { IfOk result (λ u. names.new.items ≡ names.old.items ++ spec.block_labels block.now) }
{
    push_phis(alloc, names, block.phis.as_slice())?;
    push_targets(alloc, names, &block.terminator.form)
}

/// The labels that a function uses: block by block those of its phis and where its terminator leads.
pub fn function_labels(
    alloc: Global,
    function: &FunctionDefinition,
) -> Result<Vec<Name>, AllocError>
    ensures { IfOk result (λ names. names.items ≡ spec.function_labels function.now) }
{
    let mut names = Vec::new(alloc);
    let blocks = function.blocks.as_slice();
    for block in blocks {
        push_labels(alloc, &mut names, block)?;
    }
    Ok(names)
}

fn push_callee(
    alloc: Global,
    names: &mut Vec<Name>,
    instruction: &Instruction,
) -> Result<(), AllocError>
    ensures { IfOk result (λ u. names.new.items ≡ names.old.items ++ spec.instruction_callees instruction.now) }
{
    match &instruction.operation {
        Operation::Call { callee, .. } => push_name(alloc, names, callee),
        _ => Ok(()),
    }
}

fn push_callees(
    alloc: Global,
    names: &mut Vec<Name>,
    instructions: &[Instruction],
) -> Result<(), AllocError>
    ensures { IfOk result (λ u. names.new.items ≡ names.old.items ++ flat_map spec.instruction_callees instructions.now) }
{
    for instruction in instructions {
        push_callee(alloc, names, instruction)?;
    }
    Ok(())
}

/// The names that a function calls.
pub fn function_callees(
    alloc: Global,
    function: &FunctionDefinition,
) -> Result<Vec<Name>, AllocError>
    ensures { IfOk result (λ names. names.items ≡ spec.function_callees function.now) }
{
    let mut names = Vec::new(alloc);
    let blocks = function.blocks.as_slice();
    for block in blocks {
        push_callees(alloc, &mut names, block.instructions.as_slice())?;
    }
    Ok(names)
}

fn label_of(alloc: Global, block: &Block) -> Result<Sequence<u8>, AllocError>
    ensures { IfOk result (λ text. text ≡ label_in block.now) }
{
    let Name { text, at: _ } = copied_or_none(alloc, &block.label)?;
    Ok(text)
}

/// The names of a function's blocks.
pub fn labels_of(
    alloc: Global,
    function: &FunctionDefinition,
) -> Result<Vec<Sequence<u8>>, AllocError>
    ensures { IfOk result (λ labels. labels.items ≡ labels_in function.now) }
{
    let mut labels = Vec::new(alloc);
    let blocks = function.blocks.as_slice();
    for block in blocks {
        labels.push(label_of(alloc, block)?)?;
    }
    Ok(labels)
}
