//! What is told of each function.
ghost use Rattle.std.specs.Prelude.{◌≡◌, IfOk};
ghost use Rattle.std.specs.List.{flat_map};
ghost use Rattle.ir_programs.specs.declared.refusals.Cause.TheVariants.{UnknownName, DuplicateName, WrongNumber};
ghost use Rattle.ir_programs.specs.Causes as causes;
ghost use Rattle.ir_programs.specs.Locals as locals;
ghost use Rattle.ir_resolve.specs.Telling.{told_of};

use ir_programs::{Refusal, labels_told, locals_of, numbers_told, repeats_told};
use ir_tree::module::FunctionDefinition;
use std::alloc::{AllocError, Global};

/// What is told once the labels that functions use are looked at.
pub fn all_labels_told(
    alloc: Global,
    told: Option<Refusal>,
    functions: &[FunctionDefinition],
) -> Result<Option<Refusal>, AllocError>
    ensures { IfOk result (λ now. now ≡ told_of UnknownName told (flat_map causes.unknown_labels functions.now)) }
{
    let mut now = told;
    'each: for function in functions {
        now = labels_told(alloc, now, function)?;
    }
    Ok(now)
}

fn function_repeats_told(
    alloc: Global,
    told: Option<Refusal>,
    function: &FunctionDefinition,
) -> Result<Option<Refusal>, AllocError>
    ensures { IfOk result (λ now. now ≡ told_of DuplicateName told (locals.repeated_locals function.now)) }
{
    let names = locals_of(alloc, function)?;
    Ok(repeats_told(told, function.header.name.at, names.as_slice()))
}

/// What is told once the names within functions are looked at that stand twice.
pub fn all_repeats_told(
    alloc: Global,
    told: Option<Refusal>,
    functions: &[FunctionDefinition],
) -> Result<Option<Refusal>, AllocError>
    ensures { IfOk result (λ now. now ≡ told_of DuplicateName told (flat_map locals.repeated_locals functions.now)) }
{
    let mut now = told;
    'each: for function in functions {
        now = function_repeats_told(alloc, now, function)?;
    }
    Ok(now)
}

fn function_numbers_told(
    alloc: Global,
    told: Option<Refusal>,
    function: &FunctionDefinition,
) -> Result<Option<Refusal>, AllocError>
    ensures { IfOk result (λ now. now ≡ told_of WrongNumber told (locals.wrong_numbers 0 (locals.locals_of function.now))) }
{
    let names = locals_of(alloc, function)?;
    let names = names.as_slice();
    if names.len() >= 1 << 62 {
        return Err(AllocError);
    }
    numbers_told(alloc, told, names)
}

/// What is told once the numbers within functions are looked at that stand for names.
pub fn all_numbers_told(
    alloc: Global,
    told: Option<Refusal>,
    functions: &[FunctionDefinition],
) -> Result<Option<Refusal>, AllocError>
    ensures { IfOk result (λ now. now ≡ told_of WrongNumber told (flat_map (λ f. locals.wrong_numbers 0 (locals.locals_of f)) functions.now)) }
{
    let mut now = told;
    'each: for function in functions {
        now = function_numbers_told(alloc, now, function)?;
    }
    Ok(now)
}
