//! Names that are called.
ghost use Rattle.std.specs.Prelude.{◌≡◌, not, IfOk};
ghost use Rattle.std.specs.List.{flat_map};
ghost use Rattle.ir_programs.specs.declared.refusals.Cause.TheVariants.{UnknownFunction};
ghost use Rattle.ir_programs.specs.Causes.{unknown_functions};
ghost use Rattle.ir_programs.specs.Parts.{function_callees as callees_in};
ghost use Rattle.ir_programs.specs.Texts.{places_where};
ghost use Rattle.ir_programs.specs.Uses as spec;
ghost use Rattle.ir_resolve.specs.Telling.{told_of};

use crate::telling::noted_if;
use ir_programs::{Cause, Refusal, function_callees};
use ir_tree::module::{FunctionDefinition, IrTree};
use ir_tree::types::Name;
use std::alloc::{AllocError, Global};
use tree_constants::is_function;

fn unknown_told(told: Option<Refusal>, tree: &IrTree, names: &[Name]) -> Option<Refusal>
    ensures { result ≡ told_of UnknownFunction told (places_where (λ n. not (spec.is_function tree.now n.text)) names.now) }
{
    let mut now = told;
    'each: for name in names {
        let fails = !is_function(tree, name.text.as_slice());
        now = noted_if(now, Cause::UnknownFunction, name.at, fails);
    }
    now
}

fn function_told(
    alloc: Global,
    told: Option<Refusal>,
    tree: &IrTree,
    function: &FunctionDefinition,
) -> Result<Option<Refusal>, AllocError>
    ensures { IfOk result (λ now. now ≡ told_of UnknownFunction told (places_where (λ n. not (spec.is_function tree.now n.text)) (callees_in function.now))) }
{
    let names = function_callees(alloc, function)?;
    Ok(unknown_told(told, tree, names.as_slice()))
}

fn functions_told(
    alloc: Global,
    told: Option<Refusal>,
    tree: &IrTree,
    functions: &[FunctionDefinition],
) -> Result<Option<Refusal>, AllocError>
    ensures { IfOk result (λ now. now ≡ told_of UnknownFunction told (flat_map (λ f. places_where (λ n. not (spec.is_function tree.now n.text)) (callees_in f)) functions.now)) }
{
    let mut now = told;
    'each: for function in functions {
        now = function_told(alloc, now, tree, function)?;
    }
    Ok(now)
}

/// What is told once the names that are called are looked at: each is to be that of a function of the module or a known one.
pub fn callees_told(
    alloc: Global,
    told: Option<Refusal>,
    tree: &IrTree,
) -> Result<Option<Refusal>, AllocError>
    ensures { IfOk result (λ now. now ≡ told_of UnknownFunction told (unknown_functions tree.now)) }
{
    functions_told(alloc, told, tree, tree.functions.as_slice())
}
