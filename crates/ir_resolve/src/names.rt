//! The names of globals and functions.
ghost use Rattle.std.specs.Prelude.{◌≡◌, ◌++◌, ◌&&◌, nat_lt, map, IfOk};
ghost use Rattle.ir_tree.specs.Texts.{same};
ghost use Rattle.ir_programs.specs.declared.refusals.Cause.TheVariants.{DuplicateName, ReservedName};
ghost use Rattle.ir_programs.specs.Causes.{duplicate_globals, reserved_names};
ghost use Rattle.ir_programs.specs.Texts.{places_where};
ghost use Rattle.ir_programs.specs.Uses as spec;
ghost use Rattle.ir_resolve.specs.Telling.{told_of};

use crate::telling::noted_if;
use ir_programs::{Cause, Refusal, copied, is_same};
use ir_tree::module::{FunctionDefinition, GlobalDefinition, IrTree};
use ir_tree::types::Name;
use std::alloc::{AllocError, Global};
use tree_constants::is_reserved;

fn push_globals(
    alloc: Global,
    names: &mut Vec<Name>,
    globals: &[GlobalDefinition],
) -> Result<(), AllocError>
    ensures { IfOk result (λ u. names.new.items ≡ names.old.items ++ map (λ g. g.name) globals.now) }
{
    'each: for global in globals {
        names.push(copied(alloc, &global.name)?)?;
    }
    Ok(())
}

fn push_functions(
    alloc: Global,
    names: &mut Vec<Name>,
    functions: &[FunctionDefinition],
) -> Result<(), AllocError>
    ensures { IfOk result (λ u. names.new.items ≡ names.old.items ++ map (λ f. f.header.name) functions.now) }
{
    'each: for function in functions {
        names.push(copied(alloc, &function.header.name)?)?;
    }
    Ok(())
}

/// The names of globals and functions, which share one space.
fn names_of(alloc: Global, tree: &IrTree) -> Result<Vec<Name>, AllocError>
    ensures { IfOk result (λ names. names.items ≡ spec.global_names tree.now ++ spec.function_names tree.now) }
{
    let mut names = Vec::new(alloc);
    push_globals(alloc, &mut names, tree.globals.as_slice())?;
    push_functions(alloc, &mut names, tree.functions.as_slice())?;
    Ok(names)
}

fn is_before(other: &Name, name: &Name) -> bool
    ensures { result ≡ (same other.now.text name.now.text && nat_lt other.now.at name.now.at) }
{
    is_same(other.text.as_slice(), name.text.as_slice()) && other.at < name.at
}

/// Whether the name stands at a lower place too.
fn stands_before(names: &[Name], name: &Name) -> bool
    ensures { result ≡ spec.stands_before names.now name.now }
{
    'each: for other in names {
        if is_before(other, name) {
            return true;
        }
    }
    false
}

fn duplicates_told(told: Option<Refusal>, names: &[Name]) -> Option<Refusal>
    ensures { result ≡ told_of DuplicateName told (places_where (spec.stands_before names.now) names.now) }
{
    let mut now = told;
    'each: for name in names {
        let fails = stands_before(names, name);
        now = noted_if(now, Cause::DuplicateName, name.at, fails);
    }
    now
}

fn reserved_told(told: Option<Refusal>, names: &[Name]) -> Option<Refusal>
    ensures { result ≡ told_of ReservedName told (places_where (λ n. spec.is_reserved n.text) names.now) }
{
    let mut now = told;
    'each: for name in names {
        let fails = is_reserved(name.text.as_slice());
        now = noted_if(now, Cause::ReservedName, name.at, fails);
    }
    now
}

/// What is told once the names of globals and functions are looked at: none is to stand twice, and none is to be that of a
/// known function.
pub fn names_told(
    alloc: Global,
    told: Option<Refusal>,
    tree: &IrTree,
) -> Result<Option<Refusal>, AllocError>
    ensures { IfOk result (λ now. now ≡ told_of ReservedName (told_of DuplicateName told (duplicate_globals tree.now)) (reserved_names tree.now)) }
{
    let names = names_of(alloc, tree)?;
    let told = duplicates_told(told, names.as_slice());
    Ok(reserved_told(told, names.as_slice()))
}
