//! The values of a tree, one behind the other.
ghost use Rattle.std.specs.Prelude.{◌≡◌, ◌++◌, ◌∷◌, [], map, IfOk};
ghost use Rattle.std.specs.List.{flat_map};
ghost use Rattle.flat_ir.specs.declared.nodes.RegType.TheVariants.{Int};
ghost use Rattle.ir_programs.specs.Parts as spec;
ghost use Rattle.tree_constants.specs.Values.{lent, bare, values_of_phi, values_of_instruction, values_of_block};

use ir_tree::constants::{Constant, Value};
use ir_tree::instructions::{Block, Index, Instruction, Operation, Phi, TerminatorForm, Typed};
use ir_tree::module::{FunctionDefinition, GlobalDefinition, IrTree};
use std::alloc::{AllocError, Global};

fn push<'a>(values: &mut Vec<&'a Value>, value: &'a Value) -> Result<(), AllocError>
    ensures { IfOk result (λ u. lent values.new.items ≡ lent values.old.items ++ value.now ∷ []) }
{
    values.push(value)?;
    Ok(())
}

fn push_typed<'a>(values: &mut Vec<&'a Value>, typed: &'a [Typed]) -> Result<(), AllocError>
    ensures { IfOk result (λ u. lent values.new.items ≡ lent values.old.items ++ bare (map spec.typed typed.now)) }
{
    for one in typed {
        push(values, &one.value)?;
    }
    Ok(())
}

fn push_indices<'a>(values: &mut Vec<&'a Value>, indices: &'a [Index]) -> Result<(), AllocError>
    ensures { IfOk result (λ u. lent values.new.items ≡ lent values.old.items ++ bare (map (λ i. spec.written (Int i.width) i.value) indices.now)) }
{
    for index in indices {
        push(values, &index.value)?;
    }
    Ok(())
}

fn push_operation<'a>(
    values: &mut Vec<&'a Value>,
    operation: &'a Operation,
) -> Result<(), AllocError>
    ensures { IfOk result (λ u. lent values.new.items ≡ lent values.old.items ++ bare (spec.operation_values operation.now)) }
{
    match operation {
        Operation::Alloca { .. } => Ok(()),
        Operation::Cast { value, .. } => push(values, value),
        Operation::Load { pointer, .. } => push(values, pointer),
        Operation::Binary { a, b, .. } => push_two(values, a, b),
        Operation::Compare { a, b, .. } => push_two(values, a, b),
        Operation::Store { value, pointer, .. } => push_two(values, value, pointer),
        Operation::Select { condition, a, b } => {
            push(values, condition)?;
            push_two(values, &a.value, &b.value)
        }
        Operation::GetElementPtr {
            pointer,
            indices,
            ..
        } => {
            push(values, pointer)?;
            push_indices(values, indices.as_slice())
        }
        Operation::Call { arguments, .. } => push_typed(values, arguments.as_slice()),
    }
}

fn push_two<'a>(values: &mut Vec<&'a Value>, a: &'a Value, b: &'a Value) -> Result<(), AllocError>
    ensures { IfOk result (λ u. lent values.new.items ≡ lent values.old.items ++ a.now ∷ b.now ∷ []) }
{
    push(values, a)?;
    push(values, b)
}

fn push_phi<'a>(values: &mut Vec<&'a Value>, phi: &'a Phi) -> Result<(), AllocError>
    ensures { IfOk result (λ u. lent values.new.items ≡ lent values.old.items ++ values_of_phi phi.now) }
{
    let all = phi.incoming.as_slice();
    for incoming in all {
        push(values, &incoming.value)?;
    }
    Ok(())
}

fn push_phis<'a>(values: &mut Vec<&'a Value>, phis: &'a [Phi]) -> Result<(), AllocError>
    ensures { IfOk result (λ u. lent values.new.items ≡ lent values.old.items ++ flat_map values_of_phi phis.now) }
{
    for phi in phis {
        push_phi(values, phi)?;
    }
    Ok(())
}

fn push_instructions<'a>(
    values: &mut Vec<&'a Value>,
    instructions: &'a [Instruction],
) -> Result<(), AllocError>
    ensures { IfOk result (λ u. lent values.new.items ≡ lent values.old.items ++ flat_map values_of_instruction instructions.now) }
{
    for instruction in instructions {
        push_operation(values, &instruction.operation)?;
    }
    Ok(())
}

fn push_terminator<'a>(
    values: &mut Vec<&'a Value>,
    form: &'a TerminatorForm,
) -> Result<(), AllocError>
    ensures { IfOk result (λ u. lent values.new.items ≡ lent values.old.items ++ bare (spec.terminator_values form.now)) }
{
    match form {
        TerminatorForm::Return(Some(typed)) => push(values, &typed.value),
        TerminatorForm::Branch { condition, .. } => push(values, condition),
        TerminatorForm::Switch { value, .. } => push(values, value),
        TerminatorForm::Return(None) | TerminatorForm::Jump(_) | TerminatorForm::Unreachable => {
            Ok(())
        }
    }
}

fn push_block<'a>(values: &mut Vec<&'a Value>, block: &'a Block) -> Result<(), AllocError>
    ensures { IfOk result (λ u. lent values.new.items ≡ lent values.old.items ++ values_of_block block.now) }
{
    push_phis(values, block.phis.as_slice())?;
    push_instructions(values, block.instructions.as_slice())?;
    push_terminator(values, &block.terminator.form)
}

fn push_blocks<'a>(values: &mut Vec<&'a Value>, blocks: &'a [Block]) -> Result<(), AllocError>
    ensures { IfOk result (λ u. lent values.new.items ≡ lent values.old.items ++ flat_map values_of_block blocks.now) }
{
    for block in blocks {
        push_block(values, block)?;
    }
    Ok(())
}

fn push_function<'a>(
    values: &mut Vec<&'a Value>,
    function: &'a FunctionDefinition,
) -> Result<(), AllocError>
    ensures { IfOk result (λ u. lent values.new.items ≡ lent values.old.items ++ spec.function_values function.now) }
{
    push_blocks(values, function.blocks.as_slice())
}

fn push_functions<'a>(
    values: &mut Vec<&'a Value>,
    functions: &'a [FunctionDefinition],
) -> Result<(), AllocError>
    ensures { IfOk result (λ u. lent values.new.items ≡ lent values.old.items ++ flat_map spec.function_values functions.now) }
{
    for function in functions {
        push_function(values, function)?;
    }
    Ok(())
}

#[cycle(constants)]
fn push_constant<'a>(values: &mut Vec<&'a Value>, constant: &'a Constant) -> Result<(), AllocError>
    ensures { IfOk result (λ u. lent values.new.items ≡ lent values.old.items ++ spec.constant_values constant.now) }
{
    match constant {
        Constant::Value { value, .. } => push(values, value),
        Constant::Bytes { .. } => Ok(()),
        Constant::Array { elements, .. } => push_constants(values, elements.as_slice()),
        Constant::Struct { fields, .. } => push_constants(values, fields.as_slice()),
    }
}

#[cycle(constants)]
fn push_constants<'a>(
    values: &mut Vec<&'a Value>,
    constants: &'a [Constant],
) -> Result<(), AllocError>
    ensures { IfOk result (λ u. lent values.new.items ≡ lent values.old.items ++ flat_map spec.constant_values constants.now) }
{
    for constant in constants {
        push_constant(values, constant)?;
    }
    Ok(())
}

fn push_globals<'a>(
    values: &mut Vec<&'a Value>,
    globals: &'a [GlobalDefinition],
) -> Result<(), AllocError>
    ensures { IfOk result (λ u. lent values.new.items ≡ lent values.old.items ++ flat_map (λ g. spec.constant_values g.value) globals.now) }
{
    for global in globals {
        push_constant(values, &global.value)?;
    }
    Ok(())
}

/// The values of a function.
pub fn values_of_function<'a>(
    alloc: Global,
    function: &'a FunctionDefinition,
) -> Result<Vec<&'a Value>, AllocError>
    ensures { IfOk result (λ values. lent values.items ≡ spec.function_values function.now) }
{
    let mut values = Vec::new(alloc);
    push_function(&mut values, function)?;
    Ok(values)
}

/// The values of a tree: those of its globals' constants, and then those of its functions.
pub fn values_of_tree<'a>(alloc: Global, tree: &'a IrTree) -> Result<Vec<&'a Value>, AllocError>
    ensures { IfOk result (λ values. lent values.items ≡ spec.module_values tree.now) }
{
    let mut values = Vec::new(alloc);
    push_globals(&mut values, tree.globals.as_slice())?;
    push_functions(&mut values, tree.functions.as_slice())?;
    Ok(values)
}
