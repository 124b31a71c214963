//! The types of a tree, those within others too.
ghost use Rattle.std.specs.Prelude.{◌≡◌, ◌++◌, map, IfOk};
ghost use Rattle.std.specs.List.{flat_map};
ghost use Rattle.ir_programs.specs.Parts as spec;

use crate::pieces::{pieces_of, push_type};
use ir_tree::module::IrTree;
use ir_tree::types::IrType;
use std::alloc::{AllocError, Global};

/// A type, and behind it the types within it.
#[cycle(nested)]
fn push_nested<'a>(types: &mut Vec<&'a IrType>, kind: &'a IrType) -> Result<(), AllocError>
    ensures { IfOk result (λ u. map (λ r. r.now) types.new.items ≡ map (λ r. r.now) types.old.items ++ spec.types_in kind.now) }
{
    push_type(types, kind)?;
    match kind {
        IrType::Array { element, .. } => push_nested(types, element.get()),
        IrType::Struct { fields, .. } => push_all_nested(types, fields.as_slice()),
        _ => Ok(()),
    }
}

#[cycle(nested)]
fn push_all_nested<'a>(types: &mut Vec<&'a IrType>, kinds: &'a [IrType]) -> Result<(), AllocError>
    ensures { IfOk result (λ u. map (λ r. r.now) types.new.items ≡ map (λ r. r.now) types.old.items ++ flat_map spec.types_in kinds.now) }
{
    'each: for kind in kinds {
        push_nested(types, kind)?;
    }
    Ok(())
}

fn push_pieces<'a>(types: &mut Vec<&'a IrType>, pieces: &[&'a IrType]) -> Result<(), AllocError>
    ensures { IfOk result (λ u. map (λ r. r.now) types.new.items ≡ map (λ r. r.now) types.old.items ++ flat_map spec.types_in (map (λ r. r.now) pieces.now)) }
{
    'each: for piece in pieces {
        push_nested(types, *piece)?;
    }
    Ok(())
}

/// The types of a tree, those within others too.
pub fn types_of<'a>(alloc: Global, tree: &'a IrTree) -> Result<Vec<&'a IrType>, AllocError>
    ensures { IfOk result (λ types. map (λ r. r.now) types.items ≡ spec.module_types tree.now) }
{
    let pieces = pieces_of(alloc, tree)?;
    let mut types = Vec::new(alloc);
    push_pieces(&mut types, pieces.as_slice())?;
    Ok(types)
}
