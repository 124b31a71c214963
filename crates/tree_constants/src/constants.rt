//! Constants of globals that don't fit their types.
ghost use Rattle.std.specs.Prelude.{◌≡◌, ℕ, List, length, map, Option, None};
ghost use Rattle.std.specs.List.{flat_map};
ghost use Rattle.ir_tree.specs.declared.types.IrType.{out-IrType};
ghost use Rattle.ir_tree.specs.declared.constants.Constant.{out-Constant};
ghost use Rattle.ir_programs.specs.Constants.{bad_constants, bad_form_steps, bad_value};
ghost use Rattle.ir_programs.specs.Constants as spec;
ghost use Rattle.ir_programs.specs.Programs.{kind_level};
ghost use Rattle.ir_programs.specs.Refusals.{merged as merged_in, first, refused};
ghost use Rattle.ir_programs.specs.declared.refusals.Cause.TheVariants.{BadInitialiser};
ghost use Rattle.tree_constants.specs.Judging.{judged};
ghost use Rattle.tree_constants.specs.Telling.{told_at};

use crate::forms::{is_string_of, is_value_of};
use crate::steps::bad_step;
use crate::telling::{merged, noted_unless};
use ir_programs::{Cause, Refusal};
use ir_tree::constants::{Constant, GepLevel, Value, ValueForm};
use ir_tree::module::{GlobalDefinition, IrTree, TypeDefinition};
use ir_tree::types::IrType;
use tree_types::{head_of, is_one_type};

/// What is told once the constants of globals are looked at: each is to fit its type.
pub fn constants_told(told: Option<Refusal>, tree: &IrTree) -> Option<Refusal>
    ensures { result ≡ merged_in told (first (refused BadInitialiser (flat_map (λ g. bad_constants tree.now.types g.value) tree.now.globals))) }
{
    globals_told(told, tree.types.as_slice(), tree.globals.as_slice())
}

fn globals_told(
    told: Option<Refusal>,
    types: &[TypeDefinition],
    globals: &[GlobalDefinition],
) -> Option<Refusal>
    ensures { result ≡ told_at BadInitialiser told (flat_map (λ g. bad_constants types.now g.value) globals.now) }
{
    let mut now = told;
    for global in globals {
        now = merged(now, bad_of(types, &global.value));
    }
    now
}

/// The first place in a constant where something doesn't fit.
#[cycle(constants)]
fn bad_of(types: &[TypeDefinition], constant: &Constant) -> Option<Refusal>
    ensures { result ≡ told_at BadInitialiser None (bad_constants types.now constant.now) }
{
    match constant {
        Constant::Value { kind, value } => bad_value_of(types, head_of(types, kind), value),
        Constant::Bytes { kind, at, bytes } => {
            let fits = is_string_of(types, head_of(types, kind), bytes.as_slice());
            noted_unless(None, fits, Cause::BadInitialiser, *at)
        }
        Constant::Array { kind, at, elements } => {
            let within = bad_among(types, elements.as_slice());
            let fits = is_array_of(types, head_of(types, kind), elements.as_slice());
            or_within(within, fits, *at)
        }
        Constant::Struct {
            kind,
            at,
            fields,
            packed,
        } => {
            let within = bad_among(types, fields.as_slice());
            let fits = is_struct_of(types, head_of(types, kind), *packed, fields.as_slice());
            or_within(within, fits, *at)
        }
    }
}

/// What is told within, or else where the whole doesn't fit.
fn or_within(within: Option<Refusal>, fits: bool, at: u32) -> Option<Refusal>
    ensures { (bad : List ℕ) → within ≡ told_at BadInitialiser None bad → result ≡ told_at BadInitialiser None (spec.or_within (spec.unless_fits fits at) bad) }
{
    match within {
        Some(told) => Some(told),
        None => noted_unless(None, fits, Cause::BadInitialiser, at),
    }
}

/// The first place in constants where something doesn't fit.
#[cycle(constants)]
fn bad_among(types: &[TypeDefinition], constants: &[Constant]) -> Option<Refusal>
    ensures { result ≡ told_at BadInitialiser None (flat_map (bad_constants types.now) constants.now) }
{
    let mut now = None;
    for constant in constants {
        now = merged(now, bad_of(types, constant));
    }
    now
}

fn bad_value_of(types: &[TypeDefinition], head: &IrType, value: &Value) -> Option<Refusal>
    ensures { result ≡ told_at BadInitialiser None (bad_value types.now (out-IrType head.now) value.now) }
{
    let fits = is_value_of(head, &value.form);
    let told = noted_unless(None, fits, Cause::BadInitialiser, value.at);
    steps_told(told, types, &value.form)
}

fn steps_told(told: Option<Refusal>, types: &[TypeDefinition], form: &ValueForm) -> Option<Refusal>
    ensures { result ≡ told_at BadInitialiser told (bad_form_steps types.now form.now) }
{
    match form {
        ValueForm::Gep(gep) => levels_told(told, types, gep.levels.as_slice()),
        _ => told,
    }
}

fn levels_told(
    told: Option<Refusal>,
    types: &[TypeDefinition],
    levels: &[GepLevel],
) -> Option<Refusal>
    ensures { result ≡ told_at BadInitialiser told (flat_map (spec.bad_level_steps types.now) levels.now) }
{
    let mut now = told;
    for level in levels {
        now = level_told(now, types, level);
    }
    now
}

fn level_told(told: Option<Refusal>, types: &[TypeDefinition], level: &GepLevel) -> Option<Refusal>
    ensures { result ≡ told_at BadInitialiser told (spec.bad_level_steps types.now level.now) }
{
    match bad_step(types, &level.source, level.indices.as_slice()) {
        Some(at) => noted_unless(told, false, Cause::BadInitialiser, at),
        None => told,
    }
}

/// The type that stands before a constant.
pub fn kind_of(constant: &Constant) -> &IrType
    ensures { result.now ≡ kind_level (out-Constant constant.now) }
{
    match constant {
        Constant::Value { kind, .. } => kind,
        Constant::Bytes { kind, .. } => kind,
        Constant::Array { kind, .. } => kind,
        Constant::Struct { kind, .. } => kind,
    }
}

fn are_all(types: &[TypeDefinition], kind: &IrType, constants: &[Constant]) -> bool
    ensures { result ≡ spec.are_all types.now kind.now (map (judged types.now) constants.now) }
{
    'each: for constant in constants {
        if !is_one_type(types, kind, kind_of(constant)) {
            return false;
        }
    }
    true
}

fn is_array_of(types: &[TypeDefinition], head: &IrType, constants: &[Constant]) -> bool
    ensures { result ≡ spec.is_array_of types.now (out-IrType head.now) (map (judged types.now) constants.now) }
{
    match head {
        IrType::Array { len, element, .. } => {
            *len == constants.len() as u64 && are_all(types, element.get(), constants)
        }
        _ => false,
    }
}

fn are_each(types: &[TypeDefinition], fields: &[IrType], constants: &[Constant]) -> bool
    requires { length fields.now ≡ length constants.now }
    ensures { result ≡ spec.are_each types.now fields.now (map (judged types.now) constants.now) }
{
    'places: for place in 0..fields.len() {
        if !is_one_type(types, &fields[place], kind_of(&constants[place])) {
            return false;
        }
    }
    true
}

fn is_struct_of(
    types: &[TypeDefinition],
    head: &IrType,
    packed: bool,
    constants: &[Constant],
) -> bool
    ensures { result ≡ spec.is_struct_of types.now (out-IrType head.now) packed (map (judged types.now) constants.now) }
{
    match head {
        IrType::Struct {
            fields,
            packed: own,
            ..
        } => *own == packed && fit_fields(types, fields.as_slice(), constants),
        _ => false,
    }
}

fn fit_fields(types: &[TypeDefinition], fields: &[IrType], constants: &[Constant]) -> bool
    ensures { result ≡ spec.are_each types.now fields.now (map (judged types.now) constants.now) }
{
    fields.len() == constants.len() && are_each(types, fields, constants)
}
