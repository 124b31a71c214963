//! The types that a callee has, and those that are written at a call.
ghost use Rattle.std.specs.Prelude.{◌≡◌, [], map, Some, None, take, IfOk};
ghost use Rattle.std.specs.List.{filter, find as find_in};
ghost use Rattle.std.specs.Option.{option_map, option_copied};
ghost use Rattle.ir_tree.specs.Texts.{same};
ghost use Rattle.ir_programs.specs.Calls as spec;
ghost use Rattle.ir_programs.specs.Parts as parts;
ghost use Rattle.prelude.specs.Prelude.{functions, place_of};
ghost use Rattle.prelude.specs.Primitives.{primitive_of};

use crate::values::same_type;
use flat_ir::{Func, FuncId, RegType};
use ir_programs::{is_same, register_type};
use ir_tree::instructions::Typed;
use ir_tree::module::{FunctionDefinition, Header, IrTree, Parameter};
use ir_tree::types::IrType;
use plain_list::Sequence;
use prelude::{Primitive, find, find_primitive, prelude_func};
use std::alloc::{AllocError, Global};

fn is_end(types: &[RegType]) -> bool
    ensures { result ≡ spec.same_types [] types.now }
{
    match types {
        [] => true,
        _ => false,
    }
}

fn same_types(a: &[RegType], b: &[RegType]) -> bool
    ensures { result ≡ spec.same_types a.now b.now }
{
    match a {
        [] => is_end(b),
        [first, rest @ ..] => match b {
            [] => false,
            [other, others @ ..] => same_type(*first, *other) && same_types(rest, others),
        },
    }
}

fn same_result(a: Option<RegType>, b: Option<RegType>) -> bool
    ensures { result ≡ spec.same_result a b }
{
    match (a, b) {
        (Some(a), Some(b)) => same_type(a, b),
        (Some(_), None) => false,
        (None, Some(_)) => false,
        (None, None) => true,
    }
}

/// The type of a result.
pub fn result_type_of(kind: &Option<IrType>) -> Option<RegType>
    ensures { result ≡ option_map parts.register_type kind.now }
{
    match kind {
        Some(kind) => Some(register_type(kind)),
        None => None,
    }
}

fn parameter_types(alloc: Global, parameters: &[Parameter]) -> Result<Sequence<RegType>, AllocError>
    ensures { IfOk result (λ types. types ≡ map (λ p. parts.register_type p.kind) parameters.now) }
{
    let mut types = Sequence::new(alloc);
    'each: for parameter in parameters {
        types.push(register_type(&parameter.kind))?;
    }
    Ok(types)
}

/// The types that are written for arguments.
pub fn argument_types(alloc: Global, arguments: &[Typed]) -> Result<Sequence<RegType>, AllocError>
    ensures { IfOk result (λ types. types ≡ map (λ a. a.kind) (map parts.typed arguments.now)) }
{
    let mut types = Sequence::new(alloc);
    'each: for argument in arguments {
        types.push(register_type(&argument.kind))?;
    }
    Ok(types)
}

fn is_header(
    alloc: Global,
    params: &[RegType],
    returned: Option<RegType>,
    header: &Header,
) -> Result<bool, AllocError>
    ensures { IfOk result (λ b. b ≡ spec.is_signature params.now returned (Some (spec.header_signature header.now))) }
{
    let types = parameter_types(alloc, header.parameters.as_slice())?;
    Ok(
        same_types(params, types.as_slice())
            && same_result(returned, result_type_of(&header.result)),
    )
}

fn is_primitive(
    alloc: Global,
    params: &[RegType],
    returned: Option<RegType>,
    primitive: Primitive,
) -> Result<bool, AllocError>
    ensures { IfOk result (λ b. b ≡ spec.is_signature params.now returned (Some (spec.primitive_signature primitive))) }
{
    let types = primitive.params(alloc)?;
    Ok(same_types(params, types.as_slice()) && same_result(returned, primitive.result()))
}

/// The types of a function's parameters: the first of its registers.
#[tactic(auto, using(std::proofs::lemmas::List::take_min))]
fn params_of(function: &Func) -> &[RegType]
    ensures { result.now ≡ take function.now.params function.now.regs }
{
    let regs = function.regs.as_slice();
    let count = (function.params as usize).min(regs.len());
    &regs[..count]
}

fn is_func(params: &[RegType], returned: Option<RegType>, function: &Func) -> bool
    ensures { result ≡ spec.is_signature params.now returned (Some (spec.func_signature function.now)) }
{
    same_types(params, params_of(function)) && same_result(returned, function.result)
}

/// Whether the types are those of the known function that has a body and this name.
fn is_prelude(
    alloc: Global,
    params: &[RegType],
    returned: Option<RegType>,
    name: &[u8],
) -> Result<bool, AllocError>
    ensures { IfOk result (λ b. b ≡ spec.is_signature params.now returned (spec.known_signature None (filter (λ g. same g.name name.now) functions))) }
{
    match find(name) {
        Some(index) => {
            let function = prelude_func(alloc, index, FuncId(0))?;
            Ok(is_func(params, returned, &function))
        }
        None => Ok(false),
    }
}

/// Whether the types are those of the known function with this name.
fn is_known(
    alloc: Global,
    params: &[RegType],
    returned: Option<RegType>,
    name: &[u8],
) -> Result<bool, AllocError>
    ensures { IfOk result (λ b. b ≡ spec.is_signature params.now returned (spec.known_signature (primitive_of name.now) (filter (λ g. same g.name name.now) functions))) }
{
    match find_primitive(name) {
        Some(primitive) => is_primitive(alloc, params, returned, primitive),
        None => is_prelude(alloc, params, returned, name),
    }
}

/// The first function of a module with this name.
fn defined<'a>(functions: &'a [FunctionDefinition], name: &[u8]) -> Option<&'a FunctionDefinition>
    ensures { option_copied result ≡ find_in (λ f. same f.header.name.text name.now) functions.now }
{
    'each: for function in functions {
        if is_same(function.header.name.text.as_slice(), name) {
            return Some(function);
        }
    }
    None
}

/// Whether the types as they are written at a call are those of the callee.
pub fn is_signature(
    alloc: Global,
    tree: &IrTree,
    params: &[RegType],
    returned: Option<RegType>,
    name: &[u8],
) -> Result<bool, AllocError>
    ensures { IfOk result (λ b. b ≡ spec.is_signature params.now returned (spec.signature_of tree.now name.now)) }
{
    match defined(tree.functions.as_slice(), name) {
        Some(function) => is_header(alloc, params, returned, &function.header),
        None => is_known(alloc, params, returned, name),
    }
}
