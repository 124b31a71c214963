//! What is told of a tree's types.
ghost use Rattle.std.specs.Prelude.{◌≡◌, ◌++◌, ◌∷◌, [], map, ℕ, List, IfOk, MatchOption, if◌then◌else◌};
ghost use Rattle.std.specs.List.{flat_map};
ghost use Rattle.ir_tree.specs.declared.types.IrType.{out-IrType};
ghost use Rattle.ir_programs.specs.Causes as causes;
ghost use Rattle.ir_programs.specs.Refusals.{merged, first, refused};
ghost use Rattle.ir_programs.specs.Types as spec;
ghost use Rattle.ir_programs.specs.Uses as uses;
ghost use Rattle.ir_programs.specs.declared.refusals.Cause.TheVariants.{UnknownName, DuplicateName, ObjectTooLarge, RecursiveType};
ghost use Rattle.tree_types.specs.Asked.{told_with, unknown_at, large_at, twice_at};
ghost use Rattle.tree_types.specs.Rooms.{AreRooms};

use crate::names::kind_of;
use crate::nested::types_of;
use crate::recursion::recursions_told;
use crate::rooms::size_of;
use ir_programs::{Cause, Refusal, is_same, noted};
use ir_tree::layouts::Room;
use ir_tree::module::{IrTree, TypeDefinition};
use ir_tree::types::{IrType, Name};
use std::alloc::{AllocError, Global};

/// What is told once a type's own name is looked at.
fn unknown_told(
    told: Option<Refusal>,
    definitions: &[TypeDefinition],
    kind: &IrType,
) -> Option<Refusal>
    ensures { (rest : List ℕ) → told_with result UnknownName rest ≡ told_with told UnknownName (unknown_at definitions.now kind.now ++ rest) }
{
    match kind {
        IrType::Named { name, at } => match kind_of(definitions, name.as_slice()) {
            Some(_) => told,
            None => noted(told, Cause::UnknownName, *at),
        },
        _ => told,
    }
}

fn unknowns_told(
    told: Option<Refusal>,
    definitions: &[TypeDefinition],
    types: &[&IrType],
) -> Option<Refusal>
    ensures { result ≡ told_with told UnknownName (flat_map (λ r. unknown_at definitions.now r.now) types.now) }
{
    let mut now = told;
    'each: for kind in types {
        now = unknown_told(now, definitions, *kind);
    }
    now
}

/// Where an aggregate or a name stands.
fn place_of(kind: &IrType) -> Option<u32>
    ensures { MatchOption result (spec.place_level (out-IrType kind.now) ≡ []) (λ at. spec.place_level (out-IrType kind.now) ≡ at ∷ []) }
{
    match kind {
        IrType::Int(_) | IrType::Ptr => None,
        IrType::Array { at, .. } => Some(*at),
        IrType::Struct { at, .. } => Some(*at),
        IrType::Named { at, .. } => Some(*at),
    }
}

fn is_too_large(definitions: &[TypeDefinition], rooms: &[Option<Room>], kind: &IrType) -> bool
    requires { AreRooms definitions.now rooms.now }
    ensures { result ≡ spec.is_too_large definitions.now kind.now }
{
    65536 < size_of(definitions, rooms, kind)
}

/// What is told once a type's size is looked at.
fn large_told(
    told: Option<Refusal>,
    definitions: &[TypeDefinition],
    rooms: &[Option<Room>],
    kind: &IrType,
) -> Option<Refusal>
    requires { AreRooms definitions.now rooms.now }
    ensures { (rest : List ℕ) → told_with result ObjectTooLarge rest ≡ told_with told ObjectTooLarge (large_at definitions.now kind.now ++ rest) }
{
    if !is_too_large(definitions, rooms, kind) {
        return told;
    }
    match place_of(kind) {
        Some(at) => noted(told, Cause::ObjectTooLarge, at),
        None => told,
    }
}

fn larges_told(
    told: Option<Refusal>,
    definitions: &[TypeDefinition],
    rooms: &[Option<Room>],
    types: &[&IrType],
) -> Option<Refusal>
    requires { AreRooms definitions.now rooms.now }
    ensures { result ≡ told_with told ObjectTooLarge (flat_map (λ r. large_at definitions.now r.now) types.now) }
{
    let mut now = told;
    'each: for kind in types {
        now = large_told(now, definitions, rooms, *kind);
    }
    now
}

/// Whether another definition of the name stands before it.
fn stands_before(definitions: &[TypeDefinition], name: &Name) -> bool
    ensures { result ≡ uses.stands_before (map (λ d. d.name) definitions.now) name.now }
{
    'each: for definition in definitions {
        let other = &definition.name;
        if is_same(other.text.as_slice(), name.text.as_slice()) && other.at < name.at {
            return true;
        }
    }
    false
}

fn twice_told(told: Option<Refusal>, definitions: &[TypeDefinition], name: &Name) -> Option<Refusal>
    ensures { (rest : List ℕ) → told_with result DuplicateName rest ≡ told_with told DuplicateName (twice_at definitions.now name.now ++ rest) }
{
    if !stands_before(definitions, name) {
        return told;
    }
    noted(told, Cause::DuplicateName, name.at)
}

fn duplicates_told(told: Option<Refusal>, definitions: &[TypeDefinition]) -> Option<Refusal>
    ensures { result ≡ told_with told DuplicateName (flat_map (λ d. twice_at definitions.now d.name) definitions.now) }
{
    let mut now = told;
    'each: for definition in definitions {
        now = twice_told(now, definitions, &definition.name);
    }
    now
}

/// What is told once the types of a tree are looked at: each name of one is to be defined, once, no type is to take more than
/// 65,536 bytes, and none is to hold itself.
pub fn types_told(
    alloc: Global,
    told: Option<Refusal>,
    tree: &IrTree,
    rooms: &[Option<Room>],
) -> Result<Option<Refusal>, AllocError>
    requires { AreRooms tree.now.types rooms.now }
    ensures { IfOk result (λ now. now ≡ merged (merged (merged (merged told (first (refused UnknownName (causes.unknown_types tree.now)))) (first (refused DuplicateName (causes.duplicate_types tree.now)))) (first (refused ObjectTooLarge (causes.large_types tree.now)))) (first (refused RecursiveType (causes.recursive_types tree.now)))) }
{
    let definitions = tree.types.as_slice();
    let types = types_of(alloc, tree)?;
    let unknowns = unknowns_told(told, definitions, types.as_slice());
    let duplicates = duplicates_told(unknowns, definitions);
    let larges = larges_told(duplicates, definitions, rooms, types.as_slice());
    recursions_told(alloc, larges, definitions)
}
