//! The nodes of instructions.
ghost use Rattle.std.specs.Prelude.{◌≡◌, ◌++◌, IfOk, IsTrue};
ghost use Rattle.std.specs.List.{list_all};
ghost use Rattle.ir_tree.specs.declared.instructions.Operation.TheVariants as operations;
ghost use Rattle.ir_programs.specs.Nodes as spec;
ghost use Rattle.ir_programs.specs.Readable.{is_readable_operation, is_readable_instruction};

use crate::addresses::parts_of;
use crate::calls::{call_node, operands_of, typed_operand};
use crate::names::counted_on;
use crate::operands::{operand_of, register_in, register_or_first};
use crate::scope::Scope;
use bitnum::{BinOp, Pred};
use flat_ir::{CastOp, Node, NodeId, RegId, RegType};
use ir_programs::register_type;
use ir_tree::constants::Value;
use ir_tree::instructions as tree;
use ir_tree::instructions::{Index, Instruction, Operation, Typed};
use ir_tree::types::IrType;
use plain_list::Sequence;
use std::alloc::{AllocError, Global};
use tree_types::size_of;

/// The register that a node sets, whether it has one, and the node behind it.
#[derive(Clone, Copy)]
struct Ends {
    register: RegId,
    set: Option<RegId>,
    next: NodeId,
}

fn cast_of(op: tree::CastOp) -> CastOp
    ensures { result ≡ spec.cast_of op }
{
    match op {
        tree::CastOp::Trunc => CastOp::Trunc,
        tree::CastOp::Zext => CastOp::Zext,
        tree::CastOp::Sext => CastOp::Sext,
    }
}

fn binary_node(
    scope: &Scope,
    ends: Ends,
    op: BinOp,
    width: u8,
    a: &Value,
    b: &Value,
) -> Result<Node, AllocError>
    requires { IsTrue (is_readable_operation (operations.Binary op width a.now b.now)) }
    ensures { IfOk result (λ node. node ≡ spec.operation_node scope.now.whole.now.tree.now scope.now.function.now ends.register ends.set ends.next (operations.Binary op width a.now b.now)) }
{
    let kind = RegType::Int(width);
    Ok(Node::Bin {
        op,
        a: operand_of(scope, kind, a)?,
        b: operand_of(scope, kind, b)?,
        result: ends.register,
        next: ends.next,
    })
}

fn compare_node(
    scope: &Scope,
    ends: Ends,
    pred: Pred,
    kind: &IrType,
    a: &Value,
    b: &Value,
) -> Result<Node, AllocError>
    requires { IsTrue (is_readable_operation (operations.Compare pred kind.now a.now b.now)) }
    ensures { IfOk result (λ node. node ≡ spec.operation_node scope.now.whole.now.tree.now scope.now.function.now ends.register ends.set ends.next (operations.Compare pred kind.now a.now b.now)) }
{
    let kind = register_type(kind);
    Ok(Node::Cmp {
        pred,
        a: operand_of(scope, kind, a)?,
        b: operand_of(scope, kind, b)?,
        result: ends.register,
        next: ends.next,
    })
}

fn cast_node(
    scope: &Scope,
    ends: Ends,
    op: tree::CastOp,
    from: u8,
    value: &Value,
    to: u8,
) -> Result<Node, AllocError>
    requires { IsTrue (is_readable_operation (operations.Cast op from value.now to)) }
    ensures { IfOk result (λ node. node ≡ spec.operation_node scope.now.whole.now.tree.now scope.now.function.now ends.register ends.set ends.next (operations.Cast op from value.now to)) }
{
    Ok(Node::Cast {
        op: cast_of(op),
        a: operand_of(scope, RegType::Int(from), value)?,
        result: ends.register,
        next: ends.next,
    })
}

fn select_node(
    scope: &Scope,
    ends: Ends,
    condition: &Value,
    a: &Typed,
    b: &Typed,
) -> Result<Node, AllocError>
    requires { IsTrue (is_readable_operation (operations.Select condition.now a.now b.now)) }
    ensures { IfOk result (λ node. node ≡ spec.operation_node scope.now.whole.now.tree.now scope.now.function.now ends.register ends.set ends.next (operations.Select condition.now a.now b.now)) }
{
    Ok(Node::Select {
        condition: operand_of(scope, RegType::Int(1), condition)?,
        a: typed_operand(scope, a)?,
        b: typed_operand(scope, b)?,
        result: ends.register,
        next: ends.next,
    })
}

fn alloca_node(scope: &Scope, ends: Ends, kind: &IrType) -> Node
    ensures { result ≡ spec.operation_node scope.now.whole.now.tree.now scope.now.function.now ends.register ends.set ends.next (operations.Alloca kind.now) }
{
    let whole = scope.whole;
    Node::Alloca {
        size: size_of(whole.tree.types.as_slice(), whole.rooms, kind),
        result: ends.register,
        next: ends.next,
    }
}

fn load_node(scope: &Scope, ends: Ends, kind: &IrType, pointer: &Value) -> Result<Node, AllocError>
    requires { IsTrue (is_readable_operation (operations.Load kind.now pointer.now)) }
    ensures { IfOk result (λ node. node ≡ spec.operation_node scope.now.whole.now.tree.now scope.now.function.now ends.register ends.set ends.next (operations.Load kind.now pointer.now)) }
{
    Ok(Node::Load {
        pointer: operand_of(scope, RegType::Ptr, pointer)?,
        result: ends.register,
        next: ends.next,
    })
}

fn store_node(
    scope: &Scope,
    ends: Ends,
    kind: &IrType,
    value: &Value,
    pointer: &Value,
) -> Result<Node, AllocError>
    requires { IsTrue (is_readable_operation (operations.Store kind.now value.now pointer.now)) }
    ensures { IfOk result (λ node. node ≡ spec.operation_node scope.now.whole.now.tree.now scope.now.function.now ends.register ends.set ends.next (operations.Store kind.now value.now pointer.now)) }
{
    Ok(Node::Store {
        value: operand_of(scope, register_type(kind), value)?,
        pointer: operand_of(scope, RegType::Ptr, pointer)?,
        next: ends.next,
    })
}

fn gep_node<'a>(
    alloc: Global,
    scope: &Scope<'a>,
    ends: Ends,
    source: &'a IrType,
    pointer: &Value,
    indices: &Sequence<Index>,
) -> Result<Node, AllocError>
    requires { IsTrue (is_readable_operation (operations.GetElementPtr source.now pointer.now indices.now)) }
    ensures { IfOk result (λ node. node ≡ spec.operation_node scope.now.whole.now.tree.now scope.now.function.now ends.register ends.set ends.next (operations.GetElementPtr source.now pointer.now indices.now)) }
{
    Ok(Node::Gep {
        base: operand_of(scope, RegType::Ptr, pointer)?,
        parts: parts_of(alloc, scope, source, indices.as_slice())?,
        result: ends.register,
        next: ends.next,
    })
}

/// The node of an operation that sets a register, and goes on.
fn operation_node<'a>(
    alloc: Global,
    scope: &Scope<'a>,
    ends: Ends,
    operation: &'a Operation,
) -> Result<Node, AllocError>
    requires { IsTrue (is_readable_operation operation.now) }
    ensures { IfOk result (λ node. node ≡ spec.operation_node scope.now.whole.now.tree.now scope.now.function.now ends.register ends.set ends.next operation.now) }
{
    match operation {
        Operation::Binary { op, width, a, b } => binary_node(scope, ends, *op, *width, a, b),
        Operation::Compare { pred, kind, a, b } => compare_node(scope, ends, *pred, kind, a, b),
        Operation::Cast {
            op,
            from,
            value,
            to,
        } => cast_node(scope, ends, *op, *from, value, *to),
        Operation::Select { condition, a, b } => select_node(scope, ends, condition, a, b),
        Operation::Alloca { kind } => Ok(alloca_node(scope, ends, kind)),
        Operation::Load { kind, pointer } => load_node(scope, ends, kind, pointer),
        Operation::Store {
            kind,
            value,
            pointer,
        } => store_node(scope, ends, kind, value, pointer),
        Operation::GetElementPtr {
            source,
            pointer,
            indices,
        } => gep_node(alloc, scope, ends, source, pointer, indices),
        Operation::Call {
            callee,
            arguments,
            ..
        } => {
            let args = operands_of(alloc, scope, arguments.as_slice())?;
            call_node(
                scope.whole,
                callee.text.as_slice(),
                args,
                ends.set,
                ends.next,
            )
        }
    }
}

/// The node of an instruction.
fn instruction_node<'a>(
    alloc: Global,
    scope: &Scope<'a>,
    next: NodeId,
    instruction: &'a Instruction,
) -> Result<Node, AllocError>
    requires { IsTrue (is_readable_instruction instruction.now) }
    ensures { IfOk result (λ node. node ≡ spec.instruction_node scope.now.whole.now.tree.now scope.now.function.now next instruction.now) }
{
    let set = register_in(scope, &instruction.result)?;
    let register = register_or_first(set);
    let ends = Ends {
        register,
        set,
        next,
    };
    operation_node(alloc, scope, ends, &instruction.operation)
}

/// The nodes of instructions, the first of which has a number.
pub(crate) fn push_instructions<'a>(
    alloc: Global,
    scope: &Scope<'a>,
    nodes: &mut Vec<Node>,
    first: u32,
    instructions: &'a [Instruction],
) -> Result<(), AllocError>
    requires { IsTrue (list_all is_readable_instruction instructions.now) }
    ensures { IfOk result (λ u. nodes.new.items ≡ nodes.old.items ++ spec.instruction_nodes scope.now.whole.now.tree.now scope.now.function.now first instructions.now) }
{
    let mut number = first;
    for instruction in instructions {
        number = counted_on(number, 1)?;
        let node = instruction_node(alloc, scope, NodeId(number), instruction)?;
        nodes.push(node)?;
    }
    Ok(())
}
