//! What is told of values.
ghost use Rattle.std.specs.Prelude.{◌≡◌, ◌∷◌, [], List, IfOk, not};
ghost use Rattle.std.specs.List.{flat_map};
ghost use Rattle.ir_programs.specs.Causes as causes;
ghost use Rattle.ir_programs.specs.Constants.{wide_value_indices, wide_form_indices, wide_indices, unless_fits};
ghost use Rattle.ir_programs.specs.Locals.{register_names};
ghost use Rattle.ir_programs.specs.Parts.{module_values};
ghost use Rattle.ir_programs.specs.Refusals.{merged, first, refused};
ghost use Rattle.ir_programs.specs.Texts.{among, places_where};
ghost use Rattle.ir_programs.specs.Uses as uses;
ghost use Rattle.ir_programs.specs.declared.refusals.Cause.TheVariants.{UnknownName, FunctionValue, BadInitialiser};
ghost use Rattle.tree_constants.specs.Telling.{told_at, is_known as is_known_in};
ghost use Rattle.tree_constants.specs.Values.{lent};

use crate::indices::indices_told;
use crate::names::{is_function, is_known_name};
use crate::telling::noted_unless;
use crate::values::{values_of_function, values_of_tree};
use ir_programs::{Cause, Refusal, is_known};
use ir_tree::constants::{Value, ValueForm};
use ir_tree::module::{FunctionDefinition, IrTree};
use plain_list::Sequence;
use std::alloc::{AllocError, Global};

/// What is told once the values of a tree are looked at: a global that one names is to be known, no function's name is to
/// stand as one, and the indices of constant pointers are to fit their own widths.
pub fn values_told(
    alloc: Global,
    told: Option<Refusal>,
    tree: &IrTree,
) -> Result<Option<Refusal>, AllocError>
    ensures { IfOk result (λ now. now ≡ merged (merged (merged told (first (refused UnknownName (causes.unknown_globals tree.now)))) (first (refused FunctionValue (causes.function_values_of tree.now)))) (first (refused BadInitialiser (flat_map wide_value_indices (module_values tree.now))))) }
{
    let values = values_of_tree(alloc, tree)?;
    Ok(uses_told(told, tree, values.as_slice()))
}

fn uses_told(told: Option<Refusal>, tree: &IrTree, values: &[&Value]) -> Option<Refusal>
    ensures { result ≡ told_at BadInitialiser (told_at FunctionValue (told_at UnknownName told (places_where (λ n. not (is_known_in tree.now n.text)) (uses.global_uses (lent values.now)))) (places_where (λ n. uses.is_function tree.now n.text) (uses.global_uses (lent values.now)))) (flat_map wide_value_indices (lent values.now)) }
{
    let known = globals_told(told, tree, values);
    let named = functions_told(known, tree, values);
    widths_told(named, values)
}

/// What is told once the values of a function are looked at: a register that one names is to be the function's.
pub fn registers_told(
    alloc: Global,
    told: Option<Refusal>,
    function: &FunctionDefinition,
    names: &[Sequence<u8>],
) -> Result<Option<Refusal>, AllocError>
    requires { names.now ≡ register_names function.now }
    ensures { IfOk result (λ now. now ≡ merged told (first (refused UnknownName (causes.unknown_registers function.now)))) }
{
    let values = values_of_function(alloc, function)?;
    Ok(locals_told(told, values.as_slice(), names))
}

/// What is told once a register that a value may name is to be among names.
fn local_told(told: Option<Refusal>, value: &Value, names: &[Sequence<u8>]) -> Option<Refusal>
    ensures { result ≡ told_at UnknownName told (places_where (λ n. not (among n.text names.now)) (uses.form_locals value.now.at value.now.form)) }
{
    match &value.form {
        ValueForm::Local(name) => {
            let known = is_known(name.as_slice(), names);
            noted_unless(told, known, Cause::UnknownName, value.at)
        }
        _ => told,
    }
}

fn locals_told(told: Option<Refusal>, values: &[&Value], names: &[Sequence<u8>]) -> Option<Refusal>
    ensures { result ≡ told_at UnknownName told (places_where (λ n. not (among n.text names.now)) (uses.local_uses (lent values.now))) }
{
    let mut now = told;
    for value in values {
        let value: &Value = value;
        now = local_told(now, value, names);
    }
    now
}

/// What is told once a global that a value may name is to be known.
fn global_told(told: Option<Refusal>, tree: &IrTree, value: &Value) -> Option<Refusal>
    ensures { result ≡ told_at UnknownName told (places_where (λ n. not (is_known_in tree.now n.text)) (uses.form_globals value.now.at value.now.form)) }
{
    match &value.form {
        ValueForm::Global(name) => {
            let known = is_known_name(tree, name.as_slice());
            noted_unless(told, known, Cause::UnknownName, value.at)
        }
        ValueForm::Gep(gep) => {
            let known = is_known_name(tree, gep.base.text.as_slice());
            noted_unless(told, known, Cause::UnknownName, gep.base.at)
        }
        _ => told,
    }
}

fn globals_told(told: Option<Refusal>, tree: &IrTree, values: &[&Value]) -> Option<Refusal>
    ensures { result ≡ told_at UnknownName told (places_where (λ n. not (is_known_in tree.now n.text)) (uses.global_uses (lent values.now))) }
{
    let mut now = told;
    for value in values {
        let value: &Value = value;
        now = global_told(now, tree, value);
    }
    now
}

/// What is told once a value is to name no function.
fn function_told(told: Option<Refusal>, tree: &IrTree, value: &Value) -> Option<Refusal>
    ensures { result ≡ told_at FunctionValue told (places_where (λ n. uses.is_function tree.now n.text) (uses.form_globals value.now.at value.now.form)) }
{
    match &value.form {
        ValueForm::Global(name) => {
            let fits = !is_function(tree, name.as_slice());
            noted_unless(told, fits, Cause::FunctionValue, value.at)
        }
        ValueForm::Gep(gep) => {
            let fits = !is_function(tree, gep.base.text.as_slice());
            noted_unless(told, fits, Cause::FunctionValue, gep.base.at)
        }
        _ => told,
    }
}

fn functions_told(told: Option<Refusal>, tree: &IrTree, values: &[&Value]) -> Option<Refusal>
    ensures { result ≡ told_at FunctionValue told (places_where (λ n. uses.is_function tree.now n.text) (uses.global_uses (lent values.now))) }
{
    let mut now = told;
    for value in values {
        let value: &Value = value;
        now = function_told(now, tree, value);
    }
    now
}

/// What is told once the indices of a constant pointer are to fit their own widths.
fn width_told(told: Option<Refusal>, value: &Value) -> Option<Refusal>
    ensures { result ≡ told_at BadInitialiser told (wide_value_indices value.now) }
{
    match &value.form {
        ValueForm::Gep(gep) => indices_told(told, gep.levels.as_slice()),
        _ => told,
    }
}

fn widths_told(told: Option<Refusal>, values: &[&Value]) -> Option<Refusal>
    ensures { result ≡ told_at BadInitialiser told (flat_map wide_value_indices (lent values.now)) }
{
    let mut now = told;
    for value in values {
        let value: &Value = value;
        now = width_told(now, value);
    }
    now
}
