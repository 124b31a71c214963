//! Look-ups in a program.
ghost use Rattle.std.specs.Prelude.{◌≡◌, slice_get};
ghost use Rattle.std.specs.Option.{option_copied};
ghost use Rattle.flat_ir.specs.Machine as spec;

use crate::{FuncId, Node, NodeId, ProgramData, RegId, RegType};

/// The nodes of a function; none where it isn't there.
pub fn nodes_of(program: &ProgramData, func: FuncId) -> &[Node]
    ensures { result.now ≡ spec.nodes_of (spec.func_at program.now func) }
{
    match program.funcs.get(func.0 as usize) {
        Some(found) => found.nodes.as_slice(),
        None => &[],
    }
}

/// The types of a function's registers; none where it isn't there.
pub fn types_of(program: &ProgramData, func: FuncId) -> &[RegType]
    ensures { result.now ≡ spec.regs_of (spec.func_at program.now func) }
{
    match program.funcs.get(func.0 as usize) {
        Some(found) => found.regs.as_slice(),
        None => &[],
    }
}

/// The node of a function, if it is there.
pub fn node_in(program: &ProgramData, func: FuncId, node: NodeId) -> Option<&Node>
    ensures { option_copied result ≡ slice_get (spec.nodes_of (spec.func_at program.now func)) node.0 }
{
    nodes_of(program, func).get(node.0 as usize)
}

/// The type of a function's register; a pointer where it isn't there.
pub fn type_at(program: &ProgramData, func: FuncId, register: RegId) -> RegType
    ensures { result ≡ spec.type_at program.now func register }
{
    match types_of(program, func).get(register.0 as usize) {
        Some(found) => *found,
        None => RegType::Ptr,
    }
}
