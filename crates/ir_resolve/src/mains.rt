//! Main.
ghost use Rattle.std.specs.Prelude.{◌≡◌, ◌↔◌, ◌&&◌, not, map, IsTrue};
ghost use Rattle.std.specs.List.{filter};
ghost use Rattle.ir_programs.specs.declared.refusals.Cause.TheVariants.{MainParameters};
ghost use Rattle.ir_programs.specs.Answers as answers;
ghost use Rattle.ir_programs.specs.Causes as spec;
ghost use Rattle.ir_resolve.specs.Telling.{told_of};

use crate::telling::noted_if;
use flat_ir::RegType;
use ir_programs::{Cause, Refusal, is_same, register_type};
use ir_tree::module::{FunctionDefinition, Header, IrTree, Parameter};
use ir_tree::types::IrType;
use tree_constants::is_defined;

fn is_32(kind: RegType) -> bool
    ensures { result ≡ spec.is_32 kind }
{
    match kind {
        RegType::Int(width) => width == 32,
        RegType::Ptr => false,
    }
}

fn returns_32(kind: &Option<IrType>) -> bool
    ensures { result ≡ spec.returns_32 kind.now }
{
    match kind {
        Some(kind) => is_32(register_type(kind)),
        None => false,
    }
}

fn is_none(parameters: &[Parameter]) -> bool
    ensures { result ≡ spec.is_empty parameters.now }
{
    match parameters {
        [] => true,
        _ => false,
    }
}

fn is_entry(header: &Header) -> bool
    ensures { result ≡ spec.is_entry header.now }
{
    is_none(header.parameters.as_slice()) && returns_32(&header.result)
}

fn is_main(header: &Header) -> bool
    ensures { result ≡ spec.is_main header.now }
{
    is_same(header.name.text.as_slice(), b"main")
}

fn is_wrong(header: &Header) -> bool
    ensures { result ≡ (spec.is_main header.now && not (spec.is_entry header.now)) }
{
    is_main(header) && !is_entry(header)
}

fn functions_told(told: Option<Refusal>, functions: &[FunctionDefinition]) -> Option<Refusal>
    ensures { result ≡ told_of MainParameters told (map (λ f. f.header.name.at) (filter (λ f. spec.is_main f.header && not (spec.is_entry f.header)) functions.now)) }
{
    let mut now = told;
    'each: for function in functions {
        let fails = is_wrong(&function.header);
        now = noted_if(now, Cause::MainParameters, function.header.name.at, fails);
    }
    now
}

/// What is told once main is looked at: it is to have no parameters and to return `i32`.
pub fn mains_told(told: Option<Refusal>, tree: &IrTree) -> Option<Refusal>
    ensures { result ≡ told_of MainParameters told (spec.main_parameters tree.now) }
{
    functions_told(told, tree.functions.as_slice())
}

/// Whether a function is called main.
pub fn has_main(tree: &IrTree) -> bool
    ensures { result ≡ answers.has_main tree.now }
{
    is_defined(tree, b"main")
}
