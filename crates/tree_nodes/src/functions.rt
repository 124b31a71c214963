//! The names of globals and functions, and the functions that a module calls without defining them.
ghost use Rattle.std.specs.Prelude.{◌≡◌, ◌++◌, ◌∷◌, [], IfOk, map};
ghost use Rattle.std.specs.List.{filter, flat_map};
ghost use Rattle.flat_ir.specs.declared.program.Func.{Func};
ghost use Rattle.ir_programs.specs.Parts.{function_callees as callees_in};
ghost use Rattle.ir_programs.specs.Registers as spec;
ghost use Rattle.ir_programs.specs.Texts.{among, texts};
ghost use Rattle.ir_programs.specs.Uses.{global_names, function_names};

use flat_ir::{Func, FuncId};
use ir_programs::{function_callees, is_same};
use ir_tree::module::{FunctionDefinition, IrTree};
use ir_tree::types::Name;
use plain_list::Sequence;
use prelude::prelude_func;
use std::alloc::{AllocError, Global};

/// The names of a module's globals, by their numbers.
pub fn global_texts(alloc: Global, tree: &IrTree) -> Result<Sequence<Sequence<u8>>, AllocError>
    ensures { IfOk result (λ names. names ≡ texts (global_names tree.now)) }
{
    let mut names = Sequence::new(alloc);
    let globals = tree.globals.as_slice();
    for global in globals {
        names.push(global.name.text.copy(alloc)?)?;
    }
    Ok(names)
}

fn callees_of(alloc: Global, functions: &[FunctionDefinition]) -> Result<Vec<Name>, AllocError>
    ensures { IfOk result (λ names. names.items ≡ flat_map callees_in functions.now) }
{
    let mut names = Vec::new(alloc);
    for function in functions {
        let mut more = function_callees(alloc, function)?;
        names.append(&mut more)?;
    }
    Ok(names)
}

fn is_named(text: &[u8], names: &[Name]) -> bool
    ensures { result ≡ among text.now (texts names.now) }
{
    for name in names {
        if is_same(name.text.as_slice(), text) {
            return true;
        }
    }
    false
}

fn push_if_named(funcs: &mut Vec<Func>, names: &[Name], func: Func) -> Result<(), AllocError>
    ensures { IfOk result (λ u. funcs.new.items ≡ funcs.old.items ++ filter (λ (g : Func). among g.name (texts names.now)) (func ∷ [])) }
{
    if is_named(func.name.as_slice(), names) {
        funcs.push(func)?;
    }
    Ok(())
}

/// The functions that a module calls without defining them, in their order.
pub fn called(alloc: Global, tree: &IrTree) -> Result<Sequence<Func>, AllocError>
    ensures { IfOk result (λ funcs. funcs ≡ spec.called tree.now) }
{
    let callees = callees_of(alloc, tree.functions.as_slice())?;
    let mut funcs = Vec::new(alloc);
    for index in 0..8 {
        let func = prelude_func(alloc, index, FuncId(0))?;
        push_if_named(&mut funcs, callees.as_slice(), func)?;
    }
    Ok(Sequence::from_vec(funcs))
}

fn push_defined(
    alloc: Global,
    names: &mut Sequence<Sequence<u8>>,
    tree: &IrTree,
) -> Result<(), AllocError>
    ensures { IfOk result (λ u. names.new ≡ names.old ++ texts (function_names tree.now)) }
{
    let functions = tree.functions.as_slice();
    for function in functions {
        names.push(function.header.name.text.copy(alloc)?)?;
    }
    Ok(())
}

fn push_names(
    alloc: Global,
    names: &mut Sequence<Sequence<u8>>,
    funcs: &[Func],
) -> Result<(), AllocError>
    ensures { IfOk result (λ u. names.new ≡ names.old ++ map (λ (g : Func). g.name) funcs.now) }
{
    for func in funcs {
        names.push(func.name.copy(alloc)?)?;
    }
    Ok(())
}

/// The names of a program's functions, by their numbers: those that are defined, in the order of the text, and then those that
/// are called.
pub fn all_functions(
    alloc: Global,
    tree: &IrTree,
    called: &[Func],
) -> Result<Sequence<Sequence<u8>>, AllocError>
    requires { called.now ≡ spec.called tree.now }
    ensures { IfOk result (λ names. names ≡ spec.all_functions tree.now) }
{
    let mut names = Sequence::new(alloc);
    push_defined(alloc, &mut names, tree)?;
    push_names(alloc, &mut names, called)?;
    Ok(names)
}
