//! The first refusal of a tree.
ghost use Rattle.std.specs.Prelude.{◌≡◌, None, IfOk, IsTrue};
ghost use Rattle.std.specs.List.{flat_map, list_all};
ghost use Rattle.ir_programs.specs.declared.refusals.Cause.TheVariants.{UnknownName, DuplicateName, WrongNumber};
ghost use Rattle.ir_programs.specs.Answers.{refusals};
ghost use Rattle.ir_programs.specs.Causes as causes;
ghost use Rattle.ir_programs.specs.Locals.{repeated_locals, wrong_numbers, locals_of as locals_in};
ghost use Rattle.ir_programs.specs.Readable.{is_readable, is_readable_function};
ghost use Rattle.ir_programs.specs.Refusals.{first};
ghost use Rattle.ir_resolve.specs.Telling.{told_of};
ghost use Rattle.tree_types.specs.Rooms.{AreRooms};

use crate::callees::callees_told;
use crate::cases::all_cases_told;
use crate::functions::{all_labels_told, all_numbers_told, all_repeats_told};
use crate::mains::mains_told;
use crate::names::names_told;
use ir_programs::{Refusal, locals_of, register_names};
use ir_tree::layouts::Room;
use ir_tree::module::{FunctionDefinition, IrTree};
use std::alloc::{AllocError, Global};
use tree_constants::{constants_told, registers_told, values_told};
use tree_types::types_told;

fn function_registers_told(
    alloc: Global,
    told: Option<Refusal>,
    function: &FunctionDefinition,
) -> Result<Option<Refusal>, AllocError>
    ensures { IfOk result (λ now. now ≡ told_of UnknownName told (causes.unknown_registers function.now)) }
{
    let locals = locals_of(alloc, function)?;
    let names = register_names(alloc, locals.as_slice())?;
    registers_told(alloc, told, function, names.as_slice())
}

fn all_registers_told(
    alloc: Global,
    told: Option<Refusal>,
    functions: &[FunctionDefinition],
) -> Result<Option<Refusal>, AllocError>
    ensures { IfOk result (λ now. now ≡ told_of UnknownName told (flat_map causes.unknown_registers functions.now)) }
{
    let mut now = told;
    'each: for function in functions {
        now = function_registers_told(alloc, now, function)?;
    }
    Ok(now)
}

/// What is told once functions are looked at one by one.
fn functions_told(
    alloc: Global,
    told: Option<Refusal>,
    functions: &[FunctionDefinition],
) -> Result<Option<Refusal>, AllocError>
    requires { IsTrue (list_all is_readable_function functions.now) }
    ensures { IfOk result (λ now. now ≡ told_of WrongNumber (told_of DuplicateName (told_of DuplicateName (told_of UnknownName (told_of UnknownName told (flat_map causes.unknown_registers functions.now)) (flat_map causes.unknown_labels functions.now)) (flat_map repeated_locals functions.now)) (flat_map causes.duplicate_cases functions.now)) (flat_map (λ f. wrong_numbers 0 (locals_in f)) functions.now)) }
{
    let registers = all_registers_told(alloc, told, functions)?;
    let labels = all_labels_told(alloc, registers, functions)?;
    let repeats = all_repeats_told(alloc, labels, functions)?;
    let cases = all_cases_told(repeats, functions);
    all_numbers_told(alloc, cases, functions)
}

/// The same of the functions of a tree.
fn tree_functions_told(
    alloc: Global,
    told: Option<Refusal>,
    tree: &IrTree,
) -> Result<Option<Refusal>, AllocError>
    requires { IsTrue (list_all is_readable_function tree.now.functions) }
    ensures { IfOk result (λ now. now ≡ told_of WrongNumber (told_of DuplicateName (told_of DuplicateName (told_of UnknownName (told_of UnknownName told (flat_map causes.unknown_registers tree.now.functions)) (flat_map causes.unknown_labels tree.now.functions)) (flat_map repeated_locals tree.now.functions)) (flat_map causes.duplicate_cases tree.now.functions)) (causes.numbers_out_of_turn tree.now)) }
{
    functions_told(alloc, told, tree.functions.as_slice())
}

/// The first refusal of a tree that was read, if there is one.
#[tactic(auto, using(crate::proofs::Reading::functions_readable))]
pub fn first_refusal(
    alloc: Global,
    tree: &IrTree,
    rooms: &[Option<Room>],
) -> Result<Option<Refusal>, AllocError>
    requires rooms { AreRooms tree.now.types rooms.now }
    requires readable { IsTrue (is_readable tree.now) }
    ensures { IfOk result (λ told. told ≡ first (refusals tree.now)) }
{
    let types = types_told(alloc, None, tree, rooms)?;
    let values = values_told(alloc, types, tree)?;
    let constants = constants_told(values, tree);
    let functions = tree_functions_told(alloc, constants, tree)?;
    let names = names_told(alloc, functions, tree)?;
    let callees = callees_told(alloc, names, tree)?;
    Ok(mains_told(callees, tree))
}
