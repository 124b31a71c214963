//! The parts of a tree's program.
ghost use Rattle.std.specs.Prelude.{◌≡◌, ◌≤◌, ◌^◌, ◌++◌, map, length, IfOk, IsTrue, All};
ghost use Rattle.std.specs.List.{list_all};
ghost use Rattle.std.specs.Option.{option_map};
ghost use Rattle.ir_programs.specs.Parts.{register_type as type_of};
ghost use Rattle.ir_programs.specs.Programs as spec;
ghost use Rattle.ir_programs.specs.Readable.{is_readable, is_readable_function};
ghost use Rattle.ir_programs.specs.Registers.{called as called_in};
ghost use Rattle.tree_types.specs.Rooms.{AreRooms};
ghost use Rattle.whole_programs.specs.Few.{HasFew, IsFew};

use flat_ir::{Func, ProgramData, RegType};
use ir_programs::{locals_of, register_names, register_type, register_types};
use ir_tree::layouts::Room;
use ir_tree::module::{FunctionDefinition, IrTree};
use ir_tree::types::IrType;
use plain_list::Sequence;
use std::alloc::{AllocError, Global};
use tree_constants::global_vars;
use tree_fits::{bad_edges_of, clashes_of};
use tree_nodes::{Whole, all_functions, called, function_of, global_texts, narrow, nodes_of};

fn result_type(kind: &Option<IrType>) -> Option<RegType>
    ensures { result ≡ option_map type_of kind.now }
{
    match kind {
        Some(kind) => Some(register_type(kind)),
        None => None,
    }
}

fn func_of(alloc: Global, whole: &Whole, function: &FunctionDefinition) -> Result<Func, AllocError>
    requires { IsTrue (is_readable_function function.now) }
    ensures { IfOk result (λ f. f ≡ spec.func_of whole.now.tree.now function.now) }
{
    let locals = locals_of(alloc, function)?;
    let locals = locals.as_slice();
    Ok(Func {
        name: function.header.name.text.copy(alloc)?,
        params: narrow(function.header.parameters.len())?,
        regs: register_types(alloc, locals)?,
        reg_names: register_names(alloc, locals)?,
        result: result_type(&function.header.result),
        nodes: nodes_of(alloc, whole, function)?,
        clashes: clashes_of(alloc, whole.tree, function)?,
        bad_edges: bad_edges_of(alloc, function)?,
    })
}

fn funcs_of(
    alloc: Global,
    whole: &Whole,
    functions: &[FunctionDefinition],
) -> Result<Sequence<Func>, AllocError>
    requires { IsTrue (list_all is_readable_function functions.now) }
    ensures { IfOk result (λ funcs. funcs ≡ map (spec.func_of whole.now.tree.now) functions.now) }
{
    let mut funcs = Sequence::new(alloc);
    'each: for function in functions {
        funcs.push(func_of(alloc, whole, function)?)?;
    }
    Ok(funcs)
}

fn has_few(func: &Func) -> bool
    ensures { IsTrue result → HasFew func.now }
{
    let most = 1 << 32;
    func.nodes.len() <= most && func.regs.len() <= most
}

fn have_few(funcs: &[Func]) -> bool
    ensures { IsTrue result → All HasFew funcs.now }
{
    funcs.iter().all(|func| has_few(func))
}

/// Whether 32 bits number the globals, functions, nodes and registers.
pub fn is_few(parts: &ProgramData) -> bool
    ensures { IsTrue result → IsFew parts.now }
{
    let most = 1 << 32;
    parts.globals.len() <= most && parts.funcs.len() <= most && have_few(parts.funcs.as_slice())
}

/// The parts of the program of a tree that was read.
pub fn program_of(
    alloc: Global,
    tree: &IrTree,
    rooms: &[Option<Room>],
) -> Result<ProgramData, AllocError>
    requires rooms { AreRooms tree.now.types rooms.now }
    requires readable { IsTrue (is_readable tree.now) }
    ensures { IfOk result (λ parts. parts ≡ spec.program_of tree.now) }
{
    let behind = called(alloc, tree)?;
    let globals = global_texts(alloc, tree)?;
    let functions = all_functions(alloc, tree, behind.as_slice())?;
    let whole = Whole {
        tree,
        rooms,
        globals: globals.as_slice(),
        functions: functions.as_slice(),
    };
    let mut funcs = funcs_of(alloc, &whole, tree.functions.as_slice())?;
    funcs.append(behind)?;
    Ok(ProgramData {
        globals: global_vars(alloc, tree, rooms)?,
        funcs,
        main: function_of(&whole, b"main")?,
        defined: narrow(tree.functions.len())?,
    })
}
