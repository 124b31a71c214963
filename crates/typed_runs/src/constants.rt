//! The numbers that stand in a program fit: whoever holds a program may know it.
ghost use Rattle.std.specs.Prelude.{◌<◌, ◌^◌, ◌∷◌, [], All, map};
ghost use Rattle.std.specs.List.{flat_map};
ghost use Rattle.flat_ir.specs.Whole.{operands_of, operands_of_part};
ghost use Rattle.typed_runs.specs.FittingRuns.{InitFits, NumbersFit, OperandFits};

use flat_ir::{Func, GepPart, GlobalVar, InitByte, MoveSet, Node, Operand, Program};

fn offset_fits(offset: u64)
    ensures { offset < 2 ^ 64 }
{}

fn bits_fit(bits: u8)
    ensures { bits < 256 }
{}

fn operand_fits(operand: &Operand)
    ensures { OperandFits operand.now }
{
    match operand {
        Operand::Int(number) => {
            let _ = number.bits();
        }
        Operand::Global { offset, .. } => offset_fits(*offset),
        Operand::Reg(_) | Operand::Null => {}
    }
}

fn two_fit(first: &Operand, second: &Operand)
    ensures { All OperandFits (first.now ∷ second.now ∷ []) }
{
    operand_fits(first);
    operand_fits(second);
}

fn operands_fit(operands: &[Operand])
    ensures { All OperandFits operands.now }
{
    for operand in operands {
        operand_fits(operand);
    }
}

fn parts_fit(parts: &[GepPart])
    ensures { All OperandFits (flat_map operands_of_part parts.now) }
{
    for part in parts {
        if let GepPart::Index { index, .. } = part {
            operand_fits(index);
        }
    }
}

fn sets_fit(sets: &[MoveSet])
    ensures { All OperandFits (map (λ s. s.value) sets.now) }
{
    for entry in sets {
        operand_fits(&entry.value);
    }
}

fn node_fits(node: &Node)
    ensures { All OperandFits (operands_of node.now) }
{
    match node {
        Node::Bin { a, b, .. } | Node::Cmp { a, b, .. } => two_fit(a, b),
        Node::Cast { a, .. } => operand_fits(a),
        Node::Gep { base, parts, .. } => {
            operand_fits(base);
            parts_fit(parts.as_slice());
        }
        Node::Select {
            condition,
            a,
            b,
            ..
        } => {
            operand_fits(condition);
            two_fit(a, b);
        }
        Node::Malloc { size, .. } => operand_fits(size),
        Node::Free { pointer, .. } | Node::Load { pointer, .. } => operand_fits(pointer),
        Node::Store { value, pointer, .. } => two_fit(value, pointer),
        Node::Copy { from, to, .. } => two_fit(from, to),
        Node::Put { value, .. } | Node::Switch { value, .. } => operand_fits(value),
        Node::Call { args, .. } | Node::Assert { args } => operands_fit(args.as_slice()),
        Node::Moves { sets, .. } => sets_fit(sets.as_slice()),
        Node::Branch { condition, .. } => operand_fits(condition),
        Node::Ret { value: Some(value) } => operand_fits(value),
        Node::Exit { status } => operand_fits(status),
        Node::Alloca { .. }
        | Node::In { .. }
        | Node::Jump { .. }
        | Node::Ret { value: None }
        | Node::Abort
        | Node::Unreachable => {}
    }
}

fn nodes_fit(nodes: &[Node])
    ensures { All (λ n. All OperandFits (operands_of n)) nodes.now }
{
    for node in nodes {
        node_fits(node);
    }
}

fn funcs_fit(funcs: &[Func])
    ensures { All (λ f. All (λ n. All OperandFits (operands_of n)) f.nodes) funcs.now }
{
    for func in funcs {
        nodes_fit(func.nodes.as_slice());
    }
}

fn byte_fits(byte: &InitByte)
    ensures { InitFits byte.now }
{
    match byte {
        InitByte::Int(bits) => bits_fit(*bits),
        InitByte::PtrByte { offset, .. } => offset_fits(*offset),
    }
}

fn bytes_fit(bytes: &[InitByte])
    ensures { All InitFits bytes.now }
{
    for byte in bytes {
        byte_fits(byte);
    }
}

fn globals_fit(globals: &[GlobalVar])
    ensures { All (λ g. All InitFits g.init) globals.now }
{
    for global in globals {
        bytes_fit(global.init.as_slice());
    }
}

/// Each number that stands in the program has 1 to 64 bits and is below 2 to its width, each initial byte is below 256, and
/// each offset below 2 ^ 64. It reads each of them and changes nothing.
pub fn numbers_fit(program: &Program)
    ensures { NumbersFit program.now }
{
    let parts = program.parts();
    funcs_fit(parts.funcs.as_slice());
    globals_fit(parts.globals.as_slice());
}
