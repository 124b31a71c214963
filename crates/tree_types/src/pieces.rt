//! The types that stand in a tree, each in one piece.
ghost use Rattle.std.specs.Prelude.{◌≡◌, ◌++◌, ◌∷◌, [], map, List, IfOk};
ghost use Rattle.std.specs.List.{flat_map};
ghost use Rattle.ir_programs.specs.Parts as spec;
ghost use Rattle.ir_tree.specs.declared.types.IrType.{IrType};
ghost use Rattle.ir_tree.specs.declared.instructions.TerminatorForm.TheVariants as terminators;
ghost use Rattle.tree_types.specs.Asked as asked;

use ir_tree::constants::{Constant, GepLevel, Value, ValueForm};
use ir_tree::instructions::{
    Block, Incoming, Index, Instruction, Operation, Phi, TerminatorForm, Typed,
};
use ir_tree::module::{FunctionDefinition, GlobalDefinition, IrTree, TypeDefinition};
use ir_tree::types::IrType;
use std::alloc::{AllocError, Global};

pub fn push_type<'a>(types: &mut Vec<&'a IrType>, kind: &'a IrType) -> Result<(), AllocError>
    ensures { IfOk result (λ u. map (λ r. r.now) types.new.items ≡ map (λ r. r.now) types.old.items ++ kind.now ∷ []) }
{
    types.push(kind)?;
    Ok(())
}

fn push_definitions<'a>(
    types: &mut Vec<&'a IrType>,
    definitions: &'a [TypeDefinition],
) -> Result<(), AllocError>
    ensures { IfOk result (λ u. map (λ r. r.now) types.new.items ≡ map (λ r. r.now) types.old.items ++ map (λ d. d.kind) definitions.now) }
{
    'each: for definition in definitions {
        push_type(types, &definition.kind)?;
    }
    Ok(())
}

fn push_levels<'a>(types: &mut Vec<&'a IrType>, levels: &'a [GepLevel]) -> Result<(), AllocError>
    ensures { IfOk result (λ u. map (λ r. r.now) types.new.items ≡ map (λ r. r.now) types.old.items ++ map (λ l. l.source) levels.now) }
{
    'each: for level in levels {
        push_type(types, &level.source)?;
    }
    Ok(())
}

/// The types that a value steps over.
fn push_value<'a>(types: &mut Vec<&'a IrType>, value: &'a Value) -> Result<(), AllocError>
    ensures { IfOk result (λ u. map (λ r. r.now) types.new.items ≡ map (λ r. r.now) types.old.items ++ spec.value_types value.now) }
{
    match &value.form {
        ValueForm::Gep(gep) => push_levels(types, gep.levels.as_slice()),
        _ => Ok(()),
    }
}

/// The types of memory that an operation writes.
fn push_written<'a>(types: &mut Vec<&'a IrType>, operation: &'a Operation) -> Result<(), AllocError>
    ensures { IfOk result (λ u. map (λ r. r.now) types.new.items ≡ map (λ r. r.now) types.old.items ++ spec.operation_types operation.now) }
{
    match operation {
        Operation::Alloca { kind } => push_type(types, kind),
        Operation::GetElementPtr { source, .. } => push_type(types, source),
        _ => Ok(()),
    }
}

fn push_written_in_block<'a>(
    types: &mut Vec<&'a IrType>,
    instructions: &'a [Instruction],
) -> Result<(), AllocError>
    ensures { IfOk result (λ u. map (λ r. r.now) types.new.items ≡ map (λ r. r.now) types.old.items ++ flat_map (λ i. spec.operation_types i.operation) instructions.now) }
{
    'each: for instruction in instructions {
        push_written(types, &instruction.operation)?;
    }
    Ok(())
}

fn push_written_in_blocks<'a>(
    types: &mut Vec<&'a IrType>,
    blocks: &'a [Block],
) -> Result<(), AllocError>
    ensures { IfOk result (λ u. map (λ r. r.now) types.new.items ≡ map (λ r. r.now) types.old.items ++ flat_map (λ b. flat_map (λ i. spec.operation_types i.operation) b.instructions) blocks.now) }
{
    'each: for block in blocks {
        push_written_in_block(types, block.instructions.as_slice())?;
    }
    Ok(())
}

fn push_written_in_functions<'a>(
    types: &mut Vec<&'a IrType>,
    functions: &'a [FunctionDefinition],
) -> Result<(), AllocError>
    ensures { IfOk result (λ u. map (λ r. r.now) types.new.items ≡ map (λ r. r.now) types.old.items ++ flat_map (spec.function_types) functions.now) }
{
    'each: for function in functions {
        push_written_in_blocks(types, function.blocks.as_slice())?;
    }
    Ok(())
}

#[cycle(constants)]
fn push_constant<'a>(types: &mut Vec<&'a IrType>, constant: &'a Constant) -> Result<(), AllocError>
    ensures { IfOk result (λ u. map (λ r. r.now) types.new.items ≡ map (λ r. r.now) types.old.items ++ spec.constant_types constant.now) }
{
    match constant {
        Constant::Value { kind, value: _ } => push_type(types, kind),
        Constant::Bytes {
            kind,
            at: _,
            bytes: _,
        } => push_type(types, kind),
        Constant::Array {
            kind,
            at: _,
            elements,
        } => {
            push_type(types, kind)?;
            push_constants(types, elements.as_slice())
        }
        Constant::Struct {
            kind,
            at: _,
            fields,
            packed: _,
        } => {
            push_type(types, kind)?;
            push_constants(types, fields.as_slice())
        }
    }
}

#[cycle(constants)]
fn push_constants<'a>(
    types: &mut Vec<&'a IrType>,
    constants: &'a [Constant],
) -> Result<(), AllocError>
    ensures { IfOk result (λ u. map (λ r. r.now) types.new.items ≡ map (λ r. r.now) types.old.items ++ flat_map (λ ts. ts) (map spec.constant_types constants.now)) }
{
    'each: for constant in constants {
        push_constant(types, constant)?;
    }
    Ok(())
}

#[cycle(within)]
fn push_within_constant<'a>(
    types: &mut Vec<&'a IrType>,
    constant: &'a Constant,
) -> Result<(), AllocError>
    ensures { IfOk result (λ u. map (λ r. r.now) types.new.items ≡ map (λ r. r.now) types.old.items ++ asked.constant_within constant.now) }
{
    match constant {
        Constant::Value { kind: _, value } => push_value(types, value),
        Constant::Bytes {
            kind: _,
            at: _,
            bytes: _,
        } => Ok(()),
        Constant::Array {
            kind: _,
            at: _,
            elements,
        } => { push_within_constants(types, elements.as_slice()) }
        Constant::Struct {
            kind: _,
            at: _,
            fields,
            packed: _,
        } => { push_within_constants(types, fields.as_slice()) }
    }
}

#[cycle(within)]
fn push_within_constants<'a>(
    types: &mut Vec<&'a IrType>,
    constants: &'a [Constant],
) -> Result<(), AllocError>
    ensures { IfOk result (λ u. map (λ r. r.now) types.new.items ≡ map (λ r. r.now) types.old.items ++ flat_map (λ ts. ts) (map asked.constant_within constants.now)) }
{
    'each: for constant in constants {
        push_within_constant(types, constant)?;
    }
    Ok(())
}

fn push_globals<'a>(
    types: &mut Vec<&'a IrType>,
    globals: &'a [GlobalDefinition],
) -> Result<(), AllocError>
    ensures { IfOk result (λ u. map (λ r. r.now) types.new.items ≡ map (λ r. r.now) types.old.items ++ flat_map (λ g. spec.constant_types g.value) globals.now) }
{
    'each: for global in globals {
        push_constant(types, &global.value)?;
    }
    Ok(())
}

fn push_within_globals<'a>(
    types: &mut Vec<&'a IrType>,
    globals: &'a [GlobalDefinition],
) -> Result<(), AllocError>
    ensures { IfOk result (λ u. map (λ r. r.now) types.new.items ≡ map (λ r. r.now) types.old.items ++ flat_map (λ g. asked.constant_within g.value) globals.now) }
{
    'each: for global in globals {
        push_within_constant(types, &global.value)?;
    }
    Ok(())
}

fn push_incoming<'a>(
    types: &mut Vec<&'a IrType>,
    incoming: &'a [Incoming],
) -> Result<(), AllocError>
    ensures { IfOk result (λ u. map (λ r. r.now) types.new.items ≡ map (λ r. r.now) types.old.items ++ flat_map (λ i. spec.value_types i.value) incoming.now) }
{
    'each: for way in incoming {
        push_value(types, &way.value)?;
    }
    Ok(())
}

fn push_indices<'a>(types: &mut Vec<&'a IrType>, indices: &'a [Index]) -> Result<(), AllocError>
    ensures { IfOk result (λ u. map (λ r. r.now) types.new.items ≡ map (λ r. r.now) types.old.items ++ flat_map (λ i. spec.value_types i.value) indices.now) }
{
    'each: for index in indices {
        push_value(types, &index.value)?;
    }
    Ok(())
}

fn push_arguments<'a>(types: &mut Vec<&'a IrType>, arguments: &'a [Typed]) -> Result<(), AllocError>
    ensures { IfOk result (λ u. map (λ r. r.now) types.new.items ≡ map (λ r. r.now) types.old.items ++ flat_map (λ a. spec.value_types a.value) arguments.now) }
{
    'each: for argument in arguments {
        push_value(types, &argument.value)?;
    }
    Ok(())
}

fn push_phis<'a>(types: &mut Vec<&'a IrType>, phis: &'a [Phi]) -> Result<(), AllocError>
    ensures { IfOk result (λ u. map (λ r. r.now) types.new.items ≡ map (λ r. r.now) types.old.items ++ flat_map (asked.phi_within) phis.now) }
{
    'each: for phi in phis {
        push_incoming(types, phi.incoming.as_slice())?;
    }
    Ok(())
}

fn push_both<'a>(types: &mut Vec<&'a IrType>, a: &'a Value, b: &'a Value) -> Result<(), AllocError>
    ensures { IfOk result (λ u. map (λ r. r.now) types.new.items ≡ map (λ r. r.now) types.old.items ++ (spec.value_types a.now ++ spec.value_types b.now)) }
{
    push_value(types, a)?;
    push_value(types, b)
}

/// The types within the values of an operation.
fn push_operation<'a>(
    types: &mut Vec<&'a IrType>,
    operation: &'a Operation,
) -> Result<(), AllocError>
    ensures { IfOk result (λ u. map (λ r. r.now) types.new.items ≡ map (λ r. r.now) types.old.items ++ asked.operation_within operation.now) }
{
    match operation {
        Operation::Binary { a, b, .. } => push_both(types, a, b),
        Operation::Compare { a, b, .. } => push_both(types, a, b),
        Operation::Cast { value, .. } => push_value(types, value),
        Operation::Select { condition, a, b } => {
            push_value(types, condition)?;
            push_both(types, &a.value, &b.value)
        }
        Operation::Alloca { kind: _ } => Ok(()),
        Operation::Load { pointer, .. } => push_value(types, pointer),
        Operation::Store { value, pointer, .. } => push_both(types, value, pointer),
        Operation::GetElementPtr {
            pointer,
            indices,
            ..
        } => {
            push_value(types, pointer)?;
            push_indices(types, indices.as_slice())
        }
        Operation::Call { arguments, .. } => push_arguments(types, arguments.as_slice()),
    }
}

fn push_instructions<'a>(
    types: &mut Vec<&'a IrType>,
    instructions: &'a [Instruction],
) -> Result<(), AllocError>
    ensures { IfOk result (λ u. map (λ r. r.now) types.new.items ≡ map (λ r. r.now) types.old.items ++ flat_map (λ i. asked.operation_within i.operation) instructions.now) }
{
    'each: for instruction in instructions {
        push_operation(types, &instruction.operation)?;
    }
    Ok(())
}

fn push_returned<'a>(
    types: &mut Vec<&'a IrType>,
    value: &'a Option<Typed>,
) -> Result<(), AllocError>
    ensures { IfOk result (λ u. map (λ r. r.now) types.new.items ≡ map (λ r. r.now) types.old.items ++ asked.terminator_within (terminators.Return value.now)) }
{
    match value {
        Some(typed) => push_value(types, &typed.value),
        None => Ok(()),
    }
}

fn push_terminator<'a>(
    types: &mut Vec<&'a IrType>,
    form: &'a TerminatorForm,
) -> Result<(), AllocError>
    ensures { IfOk result (λ u. map (λ r. r.now) types.new.items ≡ map (λ r. r.now) types.old.items ++ asked.terminator_within form.now) }
{
    match form {
        TerminatorForm::Return(value) => push_returned(types, value),
        TerminatorForm::Branch { condition, .. } => push_value(types, condition),
        TerminatorForm::Switch { value, .. } => push_value(types, value),
        TerminatorForm::Jump(_) | TerminatorForm::Unreachable => Ok(()),
    }
}

fn push_block<'a>(types: &mut Vec<&'a IrType>, block: &'a Block) -> Result<(), AllocError>
    ensures { IfOk result (λ u. map (λ r. r.now) types.new.items ≡ map (λ r. r.now) types.old.items ++ asked.block_within block.now) }
{
    push_phis(types, block.phis.as_slice())?;
    push_instructions(types, block.instructions.as_slice())?;
    push_terminator(types, &block.terminator.form)
}

fn push_blocks<'a>(types: &mut Vec<&'a IrType>, blocks: &'a [Block]) -> Result<(), AllocError>
    ensures { IfOk result (λ u. map (λ r. r.now) types.new.items ≡ map (λ r. r.now) types.old.items ++ flat_map (asked.block_within) blocks.now) }
{
    'each: for block in blocks {
        push_block(types, block)?;
    }
    Ok(())
}

fn push_functions<'a>(
    types: &mut Vec<&'a IrType>,
    functions: &'a [FunctionDefinition],
) -> Result<(), AllocError>
    ensures { IfOk result (λ u. map (λ r. r.now) types.new.items ≡ map (λ r. r.now) types.old.items ++ flat_map (asked.function_within) functions.now) }
{
    'each: for function in functions {
        push_blocks(types, function.blocks.as_slice())?;
    }
    Ok(())
}

/// The types of a tree, each in one piece: those of its definitions, of its constants and of memory in its functions, and those
/// that its values step over.
pub fn pieces_of<'a>(alloc: Global, tree: &'a IrTree) -> Result<Vec<&'a IrType>, AllocError>
    ensures { IfOk result (λ types. map (λ r. r.now) types.items ≡ asked.pieces tree.now) }
{
    let mut types = Vec::new(alloc);
    push_definitions(&mut types, tree.types.as_slice())?;
    push_globals(&mut types, tree.globals.as_slice())?;
    push_written_in_functions(&mut types, tree.functions.as_slice())?;
    push_within_globals(&mut types, tree.globals.as_slice())?;
    push_functions(&mut types, tree.functions.as_slice())?;
    Ok(types)
}
