//! The nodes of calls.
ghost use Rattle.std.specs.Prelude.{◌≡◌, IfOk, IsTrue, map};
ghost use Rattle.std.specs.List.{list_all};
ghost use Rattle.ir_programs.specs.Calls as spec;
ghost use Rattle.ir_programs.specs.Operands.{operand_of as operand_in, operands_of as operands_in};
ghost use Rattle.ir_programs.specs.Parts.{typed};
ghost use Rattle.ir_programs.specs.Readable.{is_readable_typed};
ghost use Rattle.ir_programs.specs.Registers.{function_of as function_in};

use crate::names::{narrow, number_of};
use crate::operands::{number, operand_of};
use crate::scope::{Scope, Whole};
use flat_ir::{FuncId, Node, NodeId, Operand, RegId};
use ir_programs::register_type;
use ir_tree::instructions::Typed;
use plain_list::Sequence;
use prelude::{Primitive, find_primitive};
use std::alloc::{AllocError, Global};

/// The number of the function with this name.
pub fn function_of(whole: &Whole, name: &[u8]) -> Result<FuncId, AllocError>
    ensures { IfOk result (λ f. f ≡ function_in whole.now.tree.now name.now) }
{
    Ok(FuncId(narrow(number_of(name, whole.functions))?))
}

/// The operand of a value with its type.
pub(crate) fn typed_operand(scope: &Scope, value: &Typed) -> Result<Operand, AllocError>
    requires { IsTrue (is_readable_typed value.now) }
    ensures { IfOk result (λ o. o ≡ operand_in scope.now.whole.now.tree.now scope.now.function.now (typed value.now)) }
{
    operand_of(scope, register_type(&value.kind), &value.value)
}

/// The operands of arguments.
pub(crate) fn operands_of(
    alloc: Global,
    scope: &Scope,
    arguments: &[Typed],
) -> Result<Sequence<Operand>, AllocError>
    requires { IsTrue (list_all is_readable_typed arguments.now) }
    ensures { IfOk result (λ os. os ≡ operands_in scope.now.whole.now.tree.now scope.now.function.now (map typed arguments.now)) }
{
    let mut operands = Sequence::new(alloc);
    for argument in arguments {
        operands.push(typed_operand(scope, argument)?)?;
    }
    Ok(operands)
}

/// An argument; 0 stands for one that is missing.
fn argument(k: usize, arguments: &[Operand]) -> Operand
    ensures { result ≡ spec.argument k arguments.now }
{
    match arguments.get(k) {
        Some(operand) => *operand,
        None => number(64, 0),
    }
}

/// The node of a call that is one of its own kind.
fn primitive_node(
    primitive: Primitive,
    args: Sequence<Operand>,
    set: Option<RegId>,
    next: NodeId,
) -> Node
    ensures { result ≡ spec.primitive_node primitive args set next }
{
    match primitive {
        Primitive::Malloc => Node::Malloc {
            size: argument(0, args.as_slice()),
            result: set,
            next,
        },
        Primitive::Free => Node::Free {
            pointer: argument(0, args.as_slice()),
            next,
        },
        Primitive::Exit => Node::Exit {
            status: argument(0, args.as_slice()),
        },
        Primitive::Abort => Node::Abort,
        Primitive::AssertFail => Node::Assert { args },
    }
}

/// The node of a call.
pub(crate) fn call_node(
    whole: &Whole,
    name: &[u8],
    args: Sequence<Operand>,
    set: Option<RegId>,
    next: NodeId,
) -> Result<Node, AllocError>
    ensures { IfOk result (λ node. node ≡ spec.call_node whole.now.tree.now name.now args set next) }
{
    match find_primitive(name) {
        Some(primitive) => Ok(primitive_node(primitive, args, set, next)),
        None => Ok(Node::Call {
            callee: function_of(whole, name)?,
            args,
            result: set,
            next,
        }),
    }
}
