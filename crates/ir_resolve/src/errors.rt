//! The error that a refusal is.
ghost use Rattle.std.specs.Prelude.{◌≡◌, IfOk, IfSome};
ghost use Rattle.std.specs.List.{flat_map, Contains};
ghost use Rattle.ir_tree.specs.declared.types.Name.{Name};
ghost use Rattle.ir_programs.specs.declared.refusals.Cause.TheVariants.{UnknownFunction};
ghost use Rattle.ir_programs.specs.Answers.{Refused, answer};
ghost use Rattle.ir_programs.specs.Parts.{function_callees as callees_in};
ghost use Rattle.ir_resolve.specs.Resolving.{Says, IsRefused};

use crate::error::ResolveError;
use ir_programs::{Cause, Refusal, function_callees};
use ir_tree::module::{FunctionDefinition, IrTree};
use ir_tree::types::Name;
use plain_list::Sequence;
use std::alloc::{AllocError, Global};

/// The text of the name that stands at a place.
fn named_at(alloc: Global, names: &[Name], at: u32) -> Result<Option<Sequence<u8>>, AllocError>
    ensures { IfOk result (λ found. IfSome found (λ text. Contains names.now (record { text = text; at = at }))) }
{
    'each: for name in names {
        if name.at == at {
            return Ok(Some(name.text.copy(alloc)?));
        }
    }
    Ok(None)
}

/// The text of the name that is called at a place.
fn called_at(
    alloc: Global,
    functions: &[FunctionDefinition],
    at: u32,
) -> Result<Option<Sequence<u8>>, AllocError>
    ensures { IfOk result (λ found. IfSome found (λ text. Contains (flat_map callees_in functions.now) (record { text = text; at = at }))) }
{
    'each: for function in functions {
        let names = function_callees(alloc, function)?;
        let found = named_at(alloc, names.as_slice(), at)?;
        if found.is_some() {
            return Ok(found);
        }
    }
    Ok(None)
}

fn unknown_function(alloc: Global, tree: &IrTree, at: u32) -> ResolveError
    requires { IsRefused tree.now UnknownFunction at }
    ensures { Says tree.now result }
{
    match called_at(alloc, tree.functions.as_slice(), at) {
        Ok(Some(name)) => ResolveError::UnknownFunction { at, name },
        _ => ResolveError::Memory,
    }
}

/// The error that tells a tree's first refusal.
pub fn error_of(alloc: Global, tree: &IrTree, refusal: Refusal) -> ResolveError
    requires { answer tree.now ≡ Refused refusal }
    ensures { Says tree.now result }
{
    let Refusal { at, cause } = refusal;
    match cause {
        Cause::UnknownName => ResolveError::UnknownName { at },
        Cause::UnknownFunction => unknown_function(alloc, tree, at),
        Cause::DuplicateName => ResolveError::DuplicateName { at },
        Cause::ReservedName => ResolveError::ReservedName { at },
        Cause::ObjectTooLarge => ResolveError::ObjectTooLarge { at },
        Cause::RecursiveType => ResolveError::RecursiveType { at },
        Cause::WrongNumber => ResolveError::WrongNumber { at },
        Cause::BadInitialiser => ResolveError::BadInitialiser { at },
        Cause::FunctionValue => ResolveError::FunctionValue { at },
        Cause::MainParameters => ResolveError::MainParameters { at },
    }
}
