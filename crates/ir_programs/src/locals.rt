//! The names of a function, in the order of the text, and the types of its registers.
ghost use Rattle.std.specs.Prelude.{◌≡◌, ◌++◌, map, IfOk};
ghost use Rattle.std.specs.List.{flat_map};
ghost use Rattle.ir_programs.specs.Locals as spec;
ghost use Rattle.ir_programs.specs.Parts.{register_type as type_of_register};
ghost use Rattle.ir_programs.specs.Texts.{name_or_none};

use flat_ir::RegType;
use ir_tree::instructions::{Block, Instruction, Operation, Phi};
use ir_tree::module::{FunctionDefinition, Parameter};
use ir_tree::types::{IrType, Name};
use plain_list::Sequence;
use std::alloc::{AllocError, Global};

/// A name of a function, and the type of its register; a block's name has none.
#[derive(Drop)]
pub struct Local {
    pub name: Name,
    pub register: Option<RegType>,
}

/// The type of a register or a value: a number of so many bits, or a pointer.
pub fn register_type(kind: &IrType) -> RegType
    ensures { result ≡ type_of_register kind.now }
{
    match kind {
        IrType::Int(width) => RegType::Int(*width),
        _ => RegType::Ptr,
    }
}

/// The type that an operation gives.
pub fn result_type(operation: &Operation) -> RegType
    ensures { result ≡ spec.result_type operation.now }
{
    match operation {
        Operation::Binary { width, .. } => RegType::Int(*width),
        Operation::Compare { .. } | Operation::Store { .. } => RegType::Int(1),
        Operation::Cast { to, .. } => RegType::Int(*to),
        Operation::Select { a, .. } => register_type(&a.kind),
        Operation::Alloca { .. } | Operation::GetElementPtr { .. } => RegType::Ptr,
        Operation::Load { kind, .. } => register_type(kind),
        Operation::Call { result, .. } => call_type(result),
    }
}

/// The type of a call's register. A name in front of a call of a void function has one bit.
fn call_type(returned: &Option<IrType>) -> RegType
    ensures { result ≡ spec.call_type returned.now }
{
    match returned {
        Some(kind) => register_type(kind),
        None => RegType::Int(1),
    }
}

/// A copy of the name.
pub fn copied(alloc: Global, name: &Name) -> Result<Name, AllocError>
    ensures { IfOk result (λ copy. copy ≡ name.now) }
{
    Ok(Name {
        text: name.text.copy(alloc)?,
        at: name.at,
    })
}

/// The name; where a tree that wasn't read leaves it out, the empty one.
pub fn copied_or_none(alloc: Global, name: &Option<Name>) -> Result<Name, AllocError>
    ensures { IfOk result (λ copy. copy ≡ name_or_none name.now) }
{
    match name {
        Some(name) => copied(alloc, name),
        None => Ok(Name {
            text: Sequence::new(alloc),
            at: 0,
        }),
    }
}

fn push_parameters(
    alloc: Global,
    locals: &mut Vec<Local>,
    parameters: &[Parameter],
) -> Result<(), AllocError>
    ensures { IfOk result (λ u. locals.new.items ≡ locals.old.items ++ map spec.parameter_local parameters.now) }
{
    for parameter in parameters {
        let name = copied_or_none(alloc, &parameter.name)?;
        let register = Some(register_type(&parameter.kind));
        locals.push(Local { name, register })?;
    }
    Ok(())
}

fn push_phis(alloc: Global, locals: &mut Vec<Local>, phis: &[Phi]) -> Result<(), AllocError>
    ensures { IfOk result (λ u. locals.new.items ≡ locals.old.items ++ map spec.phi_local phis.now) }
{
    for phi in phis {
        let name = copied(alloc, &phi.result)?;
        let register = Some(register_type(&phi.kind));
        locals.push(Local { name, register })?;
    }
    Ok(())
}

fn push_result(
    alloc: Global,
    locals: &mut Vec<Local>,
    instruction: &Instruction,
) -> Result<(), AllocError>
    ensures { IfOk result (λ u. locals.new.items ≡ locals.old.items ++ spec.instruction_locals instruction.now) }
{
    let kind = result_type(&instruction.operation);
    match &instruction.result {
        Some(name) => {
            let name = copied(alloc, name)?;
            let register = Some(kind);
            locals.push(Local { name, register })?;
            Ok(())
        }
        None => Ok(()),
    }
}

fn push_results(
    alloc: Global,
    locals: &mut Vec<Local>,
    instructions: &[Instruction],
) -> Result<(), AllocError>
    ensures { IfOk result (λ u. locals.new.items ≡ locals.old.items ++ flat_map spec.instruction_locals instructions.now) }
{
    for instruction in instructions {
        push_result(alloc, locals, instruction)?;
    }
    Ok(())
}

fn push_block(alloc: Global, locals: &mut Vec<Local>, block: &Block) -> Result<(), AllocError>
    ensures { IfOk result (λ u. locals.new.items ≡ locals.old.items ++ spec.block_locals block.now) }
{
    let name = copied_or_none(alloc, &block.label)?;
    let register = None;
    locals.push(Local { name, register })?;
    push_phis(alloc, locals, block.phis.as_slice())?;
    push_results(alloc, locals, block.instructions.as_slice())
}

/// The names of a function, in the order of the text: its parameters, and block by block the block's own and what its phis
/// and instructions set.
pub fn locals_of(alloc: Global, function: &FunctionDefinition) -> Result<Vec<Local>, AllocError>
    ensures { IfOk result (λ locals. locals.items ≡ spec.locals_of function.now) }
{
    let mut locals = Vec::new(alloc);
    push_parameters(alloc, &mut locals, function.header.parameters.as_slice())?;
    let blocks = function.blocks.as_slice();
    for block in blocks {
        push_block(alloc, &mut locals, block)?;
    }
    Ok(locals)
}
