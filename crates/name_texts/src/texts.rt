//! Names, with quotes where they need them.
ghost use Rattle.std.specs.Prelude.{◌≡◌, ◌++◌, OnOk, slice_get};
ghost use Rattle.ir_tree.specs.Texts as names;
ghost use Rattle.name_texts.specs.Lines as spec;

use flat_ir::{Func, FuncId, NodeId, Program, RegId};
use ir_tree::printing::push_name;
use std::alloc::{AllocError, Global};
use value_texts::{put_number, put_text};

/// The name of a function.
pub fn put_function(
    text: &mut Vec<u8>,
    program: &Program,
    function: FuncId,
) -> Result<(), AllocError>
    ensures { OnOk result (text.new.items ≡ text.old.items ++ spec.function_text program.now function) }
{
    match program.parts().funcs.get(function.0 as usize) {
        Some(function) => push_name(text, function.name.as_slice()),
        None => Ok(()),
    }
}

/// A node, by its function's name and its number.
pub fn put_place(
    alloc: Global,
    text: &mut Vec<u8>,
    program: &Program,
    func: FuncId,
    node: NodeId,
) -> Result<(), AllocError>
    ensures { OnOk result (text.new.items ≡ text.old.items ++ spec.place_text program.now func node) }
{
    put_function(text, program, func)?;
    put_text(text, ":")?;
    put_number(alloc, text, u64::from(node.0))
}

/// The name of a global, behind its sign.
pub fn put_global(text: &mut Vec<u8>, program: &Program, global: u32) -> Result<(), AllocError>
    ensures { OnOk result (text.new.items ≡ text.old.items ++ spec.global_named (slice_get program.now.globals global)) }
{
    match program.parts().globals.get(global as usize) {
        Some(global) => {
            put_text(text, "@")?;
            push_name(text, global.name.as_slice())
        }
        None => Ok(()),
    }
}

fn put_local(text: &mut Vec<u8>, name: &[u8]) -> Result<(), AllocError>
    ensures { OnOk result (text.new.items ≡ text.old.items ++ names.local_text name.now) }
{
    text.extend_from_slice(b"%")?;
    push_name(text, name)
}

fn put_register_of(text: &mut Vec<u8>, function: &Func, register: RegId) -> Result<(), AllocError>
    ensures { OnOk result (text.new.items ≡ text.old.items ++ spec.register_named (slice_get function.now.reg_names register.0)) }
{
    match function.reg_names.get(register.0 as usize) {
        Some(name) => put_local(text, name.as_slice()),
        None => Ok(()),
    }
}

/// The name of a register, behind its sign.
pub fn put_register(
    text: &mut Vec<u8>,
    program: &Program,
    function: FuncId,
    register: RegId,
) -> Result<(), AllocError>
    ensures { OnOk result (text.new.items ≡ text.old.items ++ spec.register_text program.now function register) }
{
    match program.parts().funcs.get(function.0 as usize) {
        Some(function) => put_register_of(text, function, register),
        None => Ok(()),
    }
}
