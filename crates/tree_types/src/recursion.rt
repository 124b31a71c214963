//! Types that hold themselves. Which names are met behind each definition is found in rounds, each through one more name.
ghost use Rattle.std.specs.Prelude.{◌≡◌, ◌<◌, ◌-◌, ◌||◌, ◌∷◌, ◌++◌, [], map, if◌then◌else◌, suc, get_or, length, ℕ, List, Some, true, false, IfOk};
ghost use Rattle.std.specs.List.{flat_map};
ghost use Rattle.ir_programs.specs.Causes as causes;
ghost use Rattle.ir_programs.specs.Parts.{types_in};
ghost use Rattle.ir_programs.specs.Texts.{texts};
ghost use Rattle.ir_programs.specs.Types as spec;
ghost use Rattle.ir_programs.specs.declared.refusals.Cause.TheVariants.{RecursiveType};
ghost use Rattle.ir_tree.specs.Texts.{same};
ghost use Rattle.tree_types.specs.Asked.{told_with, recursive_at};
ghost use Rattle.tree_types.specs.Met.{AreMet, is_behind, one_met};

use crate::names::kind_of;
use ir_programs::{Cause, Refusal, is_same, noted};
use ir_tree::module::TypeDefinition;
use ir_tree::types::IrType;
use std::alloc::{AllocError, Global};

fn met_at(met: &[bool], place: usize) -> bool
    ensures { result ≡ get_or met.now place false }
{
    match met.get(place) {
        Some(is) => *is,
        None => false,
    }
}

/// Whether a name is met behind another one.
fn is_behind_name(types: &[TypeDefinition], met: &[bool], name: &[u8]) -> bool
    ensures { (n : ℕ) (target : List ℕ) → AreMet n types.now target met.now → result ≡ is_behind n types.now target name.now }
{
    'places: for place in 0..types.len() {
        let definition = &types[place];
        if is_same(definition.name.text.as_slice(), name) {
            return met_at(met, place);
        }
    }
    false
}

/// Whether the name is another one, or is met behind it.
fn is_name_met(types: &[TypeDefinition], met: &[bool], target: &[u8], name: &[u8]) -> bool
    ensures { (n : ℕ) → AreMet n types.now target.now met.now → result ≡ one_met n types.now target.now name.now }
{
    if is_same(name, target) {
        return true;
    }
    is_behind_name(types, met, name)
}

/// Whether the name is met in a type.
#[cycle(met)]
fn is_met_in(types: &[TypeDefinition], met: &[bool], target: &[u8], kind: &IrType) -> bool
    ensures { (n : ℕ) → AreMet n types.now target.now met.now → result ≡ spec.is_met (suc n) types.now target.now (texts (spec.type_names (types_in kind.now))) }
{
    match kind {
        IrType::Array { element, .. } => is_met_in(types, met, target, element.get()),
        IrType::Struct { fields, .. } => is_met_in_some(types, met, target, fields.as_slice()),
        IrType::Named { name, .. } => is_name_met(types, met, target, name.as_slice()),
        IrType::Int(_) => false,
        IrType::Ptr => false,
    }
}

#[cycle(met)]
fn is_met_in_some(types: &[TypeDefinition], met: &[bool], target: &[u8], kinds: &[IrType]) -> bool
    ensures { (n : ℕ) → AreMet n types.now target.now met.now → result ≡ spec.is_met (suc n) types.now target.now (texts (spec.type_names (flat_map types_in kinds.now))) }
{
    'each: for kind in kinds {
        if is_met_in(types, met, target, kind) {
            return true;
        }
    }
    false
}

/// Whether the name is met behind a definition's, through one more name.
fn is_met_behind(
    types: &[TypeDefinition],
    met: &[bool],
    target: &[u8],
    definition: &TypeDefinition,
) -> bool
    ensures { (n : ℕ) → AreMet n types.now target.now met.now → result ≡ is_behind (suc n) types.now target.now definition.now.name.text }
{
    match kind_of(types, definition.name.text.as_slice()) {
        Some(kind) => is_met_in(types, met, target, kind),
        None => false,
    }
}

/// Through no name nothing is met.
fn none_met(alloc: Global, types: &[TypeDefinition]) -> Result<Vec<bool>, AllocError>
    ensures { IfOk result (λ met. (target : List ℕ) → AreMet 0 types.now target met.items) }
{
    let mut met = Vec::new(alloc);
    'each: for definition in types {
        met.push(false)?;
    }
    Ok(met)
}

/// Behind which definitions the name is met, through one more name.
fn next_met(
    alloc: Global,
    types: &[TypeDefinition],
    met: &[bool],
    target: &[u8],
) -> Result<Vec<bool>, AllocError>
    ensures { IfOk result (λ next. (n : ℕ) → AreMet n types.now target.now met.now → AreMet (suc n) types.now target.now next.items) }
{
    let mut next = Vec::new(alloc);
    'each: for definition in types {
        next.push(is_met_behind(types, met, target, definition))?;
    }
    Ok(next)
}

fn are_same(a: &[bool], b: &[bool]) -> bool
    ensures { result ≡ true → a.now ≡ b.now }
{
    a == b
}

/// Behind which definitions the name is met, through so many names.
fn met_within(
    alloc: Global,
    types: &[TypeDefinition],
    target: &[u8],
    names: usize,
) -> Result<Vec<bool>, AllocError>
    ensures { IfOk result (λ met. AreMet names types.now target.now met.items) }
{
    let mut met = none_met(alloc, types)?;
    'rounds: for place in 0..names {
        let next = next_met(alloc, types, met.as_slice(), target)?;
        if are_same(next.as_slice(), met.as_slice()) {
            return Ok(met);
        }
        met = next;
    }
    Ok(met)
}

/// Whether a type holds itself.
fn holds_itself(
    alloc: Global,
    types: &[TypeDefinition],
    definition: &TypeDefinition,
) -> Result<bool, AllocError>
    requires { 0 < length types.now }
    ensures { IfOk result (λ holds. holds ≡ spec.holds_itself types.now definition.now) }
{
    let target = definition.name.text.as_slice();
    let met = met_within(alloc, types, target, types.len() - 1)?;
    Ok(is_met_in(types, met.as_slice(), target, &definition.kind))
}

/// What is told once it is known whether a type holds itself.
fn recursion_told(told: Option<Refusal>, holds: bool, at: u32) -> Option<Refusal>
    ensures { (rest : List ℕ) → told_with result RecursiveType rest ≡ told_with told RecursiveType ((if holds then at ∷ [] else []) ++ rest) }
{
    if holds {
        noted(told, Cause::RecursiveType, at)
    } else {
        told
    }
}

/// What is told once the definitions are looked at that hold themselves.
pub fn recursions_told(
    alloc: Global,
    told: Option<Refusal>,
    types: &[TypeDefinition],
) -> Result<Option<Refusal>, AllocError>
    ensures { IfOk result (λ now. now ≡ told_with told RecursiveType (flat_map (recursive_at types.now) types.now)) }
{
    let mut now = told;
    'each: for definition in types {
        let holds = holds_itself(alloc, types, definition)?;
        now = recursion_told(now, holds, definition.name.at);
    }
    Ok(now)
}
