//! Calls, instructions and blocks.
ghost use Rattle.std.specs.Prelude.{◌≡◌, ◌++◌, ◌||◌, not, map, IfOk};
ghost use Rattle.std.specs.Option.{is_some};
ghost use Rattle.std.specs.List.{flat_map};
ghost use Rattle.ir_programs.specs.Fits as spec;
ghost use Rattle.ir_programs.specs.Parts as parts;

use crate::operations::{operation_values_fit, terminator_values_fit};
use crate::signatures::{argument_types, is_signature, result_type_of};
use crate::steps::all_steps_fit;
use crate::values::Place;
use ir_tree::instructions::{Block, Instruction, Operation, Typed};
use ir_tree::types::{IrType, Name};
use std::alloc::{AllocError, Global};

/// Whether a call has a name only where it has a result.
fn is_named_right(name: &Option<Name>, returned: &Option<IrType>) -> bool
    ensures { result ≡ (is_some returned.now || not (is_some name.now)) }
{
    returned.is_some() || name.is_none()
}

/// Whether a call has the types of its callee, and a name only where there is a result.
fn call_fits(
    alloc: Global,
    place: &Place,
    name: &Option<Name>,
    returned: &Option<IrType>,
    callee: &[u8],
    arguments: &[Typed],
) -> Result<bool, AllocError>
    ensures { IfOk result (λ b. b ≡ spec.call_fits place.now.tree.now name.now returned.now callee.now (map parts.typed arguments.now)) }
{
    let params = argument_types(alloc, arguments)?;
    let kind = result_type_of(returned);
    if !is_signature(alloc, place.tree, params.as_slice(), kind, callee)? {
        return Ok(false);
    }
    Ok(is_named_right(name, returned))
}

fn operation_fits(
    alloc: Global,
    place: &Place,
    name: &Option<Name>,
    operation: &Operation,
) -> Result<bool, AllocError>
    ensures { IfOk result (λ b. b ≡ spec.operation_fits place.now.tree.now place.now.function.now name.now operation.now) }
{
    match operation {
        Operation::GetElementPtr {
            source,
            indices,
            ..
        } => Ok(all_steps_fit(place, source, indices.as_slice())),
        Operation::Call {
            result: returned,
            callee,
            arguments,
        } => {
            let callee = callee.text.as_slice();
            call_fits(alloc, place, name, returned, callee, arguments.as_slice())
        }
        _ => Ok(true),
    }
}

fn instruction_fits(
    alloc: Global,
    place: &Place,
    instruction: &Instruction,
) -> Result<bool, AllocError>
    ensures { IfOk result (λ b. b ≡ spec.instruction_fits place.now.tree.now place.now.function.now instruction.now) }
{
    if !operation_values_fit(place, &instruction.operation) {
        return Ok(false);
    }
    operation_fits(alloc, place, &instruction.result, &instruction.operation)
}

fn push_instructions(
    alloc: Global,
    tests: &mut Vec<bool>,
    place: &Place,
    instructions: &[Instruction],
) -> Result<(), AllocError>
    ensures { IfOk result (λ u. tests.new.items ≡ tests.old.items ++ map (spec.instruction_fits place.now.tree.now place.now.function.now) instructions.now) }
{
    'each: for instruction in instructions {
        tests.push(instruction_fits(alloc, place, instruction)?)?;
    }
    Ok(())
}

fn push_block(
    alloc: Global,
    tests: &mut Vec<bool>,
    place: &Place,
    block: &Block,
) -> Result<(), AllocError>
    ensures { IfOk result (λ u. tests.new.items ≡ tests.old.items ++ spec.block_fits place.now.tree.now place.now.function.now block.now) }
{
    push_instructions(alloc, tests, place, block.instructions.as_slice())?;
    tests.push(terminator_values_fit(place, &block.terminator.form))?;
    Ok(())
}

/// Puts for each instruction and terminator whether its types fit.
pub fn push_blocks(
    alloc: Global,
    tests: &mut Vec<bool>,
    place: &Place,
    blocks: &[Block],
) -> Result<(), AllocError>
    ensures { IfOk result (λ u. tests.new.items ≡ tests.old.items ++ flat_map (spec.block_fits place.now.tree.now place.now.function.now) blocks.now) }
{
    'each: for block in blocks {
        push_block(alloc, tests, place, block)?;
    }
    Ok(())
}
