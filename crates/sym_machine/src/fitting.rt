//! The numbers of a program fit, and its values have at most 8 bytes: whoever holds a program may know it.
ghost use Rattle.std.specs.Prelude.{◌<◌, ◌^◌, ◌∷◌, [], All, map};
ghost use Rattle.std.specs.List.{flat_map};
ghost use Rattle.bitnum.specs.Number.{IsNumber};
ghost use Rattle.flat_ir.specs.Whole.{operands_of, operands_of_part};
ghost use Rattle.sym_states.specs.Fitting.{InitFits, InitsFit, GlobalsFit};
ghost use Rattle.checks.specs.Errors.{IsChecked};
ghost use Rattle.state_laws.specs.Kept.{OperandFits, OperandsFit, PartFits, PartsFit, CasesFit, ProgramFits};
ghost use Rattle.sym_machine.specs.Numbers.{OthersFit, NumbersFit, AllNumbersFit};

use flat_ir::{Func, GepPart, GlobalVar, InitByte, MoveSet, Node, Operand, Program, SwitchCase};

fn number_fits(number: u64)
    ensures { number < 2 ^ 64 }
{}

fn byte_fits(byte: u8)
    ensures { byte < 256 }
{}

fn operand_fits(operand: &Operand)
    ensures { OperandFits operand.now }
{
    match operand {
        Operand::Int(number) => {
            let _ = number.bits();
        }
        Operand::Global { offset, .. } => number_fits(*offset),
        Operand::Reg(_) | Operand::Null => {}
    }
}

fn two_fit(first: &Operand, second: &Operand)
    ensures { OperandsFit (first.now ∷ second.now ∷ []) }
{
    operand_fits(first);
    operand_fits(second);
}

fn operands_fit(operands: &[Operand])
    ensures { OperandsFit operands.now }
{
    for operand in operands {
        operand_fits(operand);
    }
}

fn indices_fit(parts: &[GepPart])
    ensures { OperandsFit (flat_map operands_of_part parts.now) }
{
    for part in parts {
        if let GepPart::Index { index, .. } = part {
            operand_fits(index);
        }
    }
}

fn sets_fit(sets: &[MoveSet])
    ensures { OperandsFit (map (λ s. s.value) sets.now) }
{
    for entry in sets {
        operand_fits(&entry.value);
    }
}

// The operands of a node fit.
fn node_operands_fit(node: &Node)
    ensures { OperandsFit (operands_of node.now) }
{
    match node {
        Node::Bin { a, b, .. } | Node::Cmp { a, b, .. } => two_fit(a, b),
        Node::Cast { a, .. } => operand_fits(a),
        Node::Gep { base, parts, .. } => {
            operand_fits(base);
            indices_fit(parts.as_slice());
        }
        Node::Select {
            condition,
            a,
            b,
            ..
        } => {
            operand_fits(condition);
            two_fit(a, b);
        }
        Node::Malloc { size, .. } => operand_fits(size),
        Node::Free { pointer, .. } | Node::Load { pointer, .. } => operand_fits(pointer),
        Node::Store { value, pointer, .. } => two_fit(value, pointer),
        Node::Copy { from, to, .. } => two_fit(from, to),
        Node::Put { value, .. } | Node::Switch { value, .. } => operand_fits(value),
        Node::Call { args, .. } | Node::Assert { args } => operands_fit(args.as_slice()),
        Node::Moves { sets, .. } => sets_fit(sets.as_slice()),
        Node::Branch { condition, .. } => operand_fits(condition),
        Node::Ret { value: Some(value) } => operand_fits(value),
        Node::Exit { status } => operand_fits(status),
        Node::Alloca { .. }
        | Node::In { .. }
        | Node::Jump { .. }
        | Node::Ret { value: None }
        | Node::Abort
        | Node::Unreachable => {}
    }
}

fn part_fits(part: &GepPart)
    ensures { PartFits part.now }
{
    match part {
        GepPart::Field { offset } => number_fits(*offset),
        GepPart::Index { scale, .. } => number_fits(*scale),
    }
}

fn parts_fit(parts: &[GepPart])
    ensures { PartsFit parts.now }
{
    for part in parts {
        part_fits(part);
    }
}

fn case_fits(case: &SwitchCase)
    ensures { IsNumber case.now.number }
{
    let _ = case.number.bits();
}

fn cases_fit(cases: &[SwitchCase])
    ensures { CasesFit cases.now }
{
    for case in cases {
        case_fits(case);
    }
}

// The numbers of a node beside its operands fit.
fn node_numbers_fit(node: &Node)
    ensures { OthersFit node.now }
{
    match node {
        Node::Gep { parts, .. } => parts_fit(parts.as_slice()),
        Node::Alloca { size, .. } => number_fits(*size),
        Node::Switch { cases, .. } => cases_fit(cases.as_slice()),
        Node::Bin { .. }
        | Node::Cmp { .. }
        | Node::Cast { .. }
        | Node::Select { .. }
        | Node::Malloc { .. }
        | Node::Free { .. }
        | Node::Load { .. }
        | Node::Store { .. }
        | Node::Copy { .. }
        | Node::In { .. }
        | Node::Put { .. }
        | Node::Call { .. }
        | Node::Moves { .. }
        | Node::Jump { .. }
        | Node::Branch { .. }
        | Node::Ret { .. }
        | Node::Exit { .. }
        | Node::Abort
        | Node::Assert { .. }
        | Node::Unreachable => {}
    }
}

fn node_fits(node: &Node)
    ensures { NumbersFit node.now }
{
    node_operands_fit(node);
    node_numbers_fit(node);
}

fn nodes_fit(nodes: &[Node])
    ensures { AllNumbersFit nodes.now }
{
    for node in nodes {
        node_fits(node);
    }
}

fn funcs_fit(funcs: &[Func])
    ensures { All (λ f. AllNumbersFit f.nodes) funcs.now }
{
    for func in funcs {
        nodes_fit(func.nodes.as_slice());
    }
}

fn init_fits(byte: &InitByte)
    ensures { InitFits byte.now }
{
    match byte {
        InitByte::Int(bits) => byte_fits(*bits),
        InitByte::PtrByte { offset, .. } => number_fits(*offset),
    }
}

fn inits_fit(bytes: &[InitByte])
    ensures { InitsFit bytes.now }
{
    for byte in bytes {
        init_fits(byte);
    }
}

fn globals_fit(globals: &[GlobalVar])
    ensures { All (λ g. InitsFit g.init) globals.now }
{
    for global in globals {
        inits_fit(global.init.as_slice());
    }
}

/// Each number that stands in a checked program fits its width, and each register and each result of a call holds a value of at
/// most 8 bytes. It reads each of the numbers and changes nothing.
pub fn program_fits(program: &Program)
    requires { IsChecked program.now.funcs }
    ensures program { ProgramFits program.now }
    ensures globals { GlobalsFit program.now.globals }
{
    let parts = program.parts();
    funcs_fit(parts.funcs.as_slice());
    globals_fit(parts.globals.as_slice());
}
