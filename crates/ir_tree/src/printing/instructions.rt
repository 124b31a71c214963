//! Instructions and terminators.
#![tactic(auto, using(crate::proofs::Writing::after_append))]

ghost use Rattle.std.specs.Prelude.{◌≡◌, ◌∷◌, ◌++◌, codes, OnOk};
ghost use Rattle.ir_tree.specs.Pages.{after};
ghost use Rattle.ir_tree.specs.Spelling.{binary_text, pred_text, cast_text, operation_tokens, set_tokens, instruction_tokens, phi_tokens, target_tokens, terminator_tokens, value_tokens};

use super::operands::{put_pointer, put_value};
use super::page::Page;
use super::spelled::{Spelled, put_joined, put_others, put_separated};
use super::types::{put_result, put_type};
use crate::constants::Value;
use crate::instructions::{Case, CastOp, Incoming, Instruction, Operation, Phi, TerminatorForm};
use crate::types::Name;
use bitnum::{BinOp, Pred};
use std::alloc::AllocError;

fn binary_word(op: BinOp) -> &'static [u8]
    ensures { result.now ≡ binary_text op }
{
    match op {
        BinOp::Add => b"add",
        BinOp::Sub => b"sub",
        BinOp::Mul => b"mul",
        BinOp::Udiv => b"udiv",
        BinOp::Sdiv => b"sdiv",
        BinOp::Urem => b"urem",
        BinOp::Srem => b"srem",
        BinOp::Shl => b"shl",
        BinOp::Lshr => b"lshr",
        BinOp::Ashr => b"ashr",
        BinOp::And => b"and",
        BinOp::Or => b"or",
        BinOp::Xor => b"xor",
    }
}

fn pred_word(pred: Pred) -> &'static [u8]
    ensures { result.now ≡ pred_text pred }
{
    match pred {
        Pred::Eq => b"eq",
        Pred::Ne => b"ne",
        Pred::Ugt => b"ugt",
        Pred::Uge => b"uge",
        Pred::Ult => b"ult",
        Pred::Ule => b"ule",
        Pred::Sgt => b"sgt",
        Pred::Sge => b"sge",
        Pred::Slt => b"slt",
        Pred::Sle => b"sle",
    }
}

fn cast_word(op: CastOp) -> &'static [u8]
    ensures { result.now ≡ cast_text op }
{
    match op {
        CastOp::Trunc => b"trunc",
        CastOp::Zext => b"zext",
        CastOp::Sext => b"sext",
    }
}

/// Two operands with a comma between them.
fn put_pair(page: &mut Page, a: &Value, b: &Value) -> Result<(), AllocError>
    ensures { OnOk result (page.new ≡ after page.old (value_tokens a.now ++ codes "," ∷ value_tokens b.now)) }
{
    put_value(page, a)?;
    page.put(b",")?;
    put_value(page, b)
}

/// Puts what an instruction does.
fn put_operation(page: &mut Page, operation: &Operation) -> Result<(), AllocError>
    ensures { OnOk result (page.new ≡ after page.old (operation_tokens operation.now)) }
{
    match operation {
        Operation::Binary { op, width, a, b } => {
            page.put(binary_word(*op))?;
            page.put_width(*width)?;
            put_pair(page, a, b)
        }
        Operation::Compare { pred, kind, a, b } => {
            page.put(b"icmp")?;
            page.put(pred_word(*pred))?;
            put_type(page, kind)?;
            put_pair(page, a, b)
        }
        Operation::Cast {
            op,
            from,
            value,
            to,
        } => {
            page.put(cast_word(*op))?;
            page.put_width(*from)?;
            put_value(page, value)?;
            page.put(b"to")?;
            page.put_width(*to)
        }
        Operation::Select { condition, a, b } => {
            page.put(b"select")?;
            page.put(b"i1")?;
            put_value(page, condition)?;
            page.put(b",")?;
            a.put_on(page)?;
            page.put(b",")?;
            b.put_on(page)
        }
        Operation::Alloca { kind } => {
            page.put(b"alloca")?;
            put_type(page, kind)
        }
        Operation::Load { kind, pointer } => {
            page.put(b"load")?;
            put_type(page, kind)?;
            page.put(b",")?;
            put_pointer(page, pointer)
        }
        Operation::Store {
            kind,
            value,
            pointer,
        } => {
            page.put(b"store")?;
            put_type(page, kind)?;
            put_value(page, value)?;
            page.put(b",")?;
            put_pointer(page, pointer)
        }
        Operation::GetElementPtr {
            source,
            pointer,
            indices,
        } => {
            page.put(b"getelementptr")?;
            put_type(page, source)?;
            page.put(b",")?;
            put_pointer(page, pointer)?;
            put_others(page, indices.as_slice())
        }
        Operation::Call {
            result: kind,
            callee,
            arguments,
        } => {
            page.put(b"call")?;
            put_result(page, kind)?;
            page.put_global(callee.text.as_slice())?;
            page.put(b"(")?;
            put_separated(page, arguments.as_slice())?;
            page.put(b")")
        }
    }
}

/// The register that an instruction sets.
fn put_set(page: &mut Page, name: &Option<Name>) -> Result<(), AllocError>
    ensures { OnOk result (page.new ≡ after page.old (set_tokens name.now)) }
{
    match name {
        Some(name) => {
            page.put_local(name.text.as_slice())?;
            page.put(b"=")
        }
        None => Ok(()),
    }
}

/// Puts an instruction.
pub fn put_instruction(page: &mut Page, instruction: &Instruction) -> Result<(), AllocError>
    ensures { OnOk result (page.new ≡ after page.old (instruction_tokens instruction.now)) }
{
    put_set(page, &instruction.result)?;
    put_operation(page, &instruction.operation)
}

impl Spelled for Incoming {
    ghost use Rattle.ir_tree.specs.Spelling.{incoming_tokens};

    ghost tokens = { incoming_tokens };

    fn put_on(&self, page: &mut Page) -> Result<(), AllocError> {
        page.put(b"[")?;
        put_value(page, &self.value)?;
        page.put(b",")?;
        page.put_local(self.label.text.as_slice())?;
        page.put(b"]")
    }
}

/// Puts a phi.
pub fn put_phi(page: &mut Page, phi: &Phi) -> Result<(), AllocError>
    ensures { OnOk result (page.new ≡ after page.old (phi_tokens phi.now)) }
{
    page.put_local(phi.result.text.as_slice())?;
    page.put(b"=")?;
    page.put(b"phi")?;
    put_type(page, &phi.kind)?;
    put_separated(page, phi.incoming.as_slice())
}

/// The block that control goes to.
fn put_target(page: &mut Page, label: &Name) -> Result<(), AllocError>
    ensures { OnOk result (page.new ≡ after page.old (target_tokens label.now)) }
{
    page.put(b"label")?;
    page.put_local(label.text.as_slice())
}

impl Spelled for Case {
    ghost use Rattle.ir_tree.specs.Spelling.{case_tokens};

    ghost tokens = { case_tokens };

    fn put_on(&self, page: &mut Page) -> Result<(), AllocError> {
        page.put_width(self.width)?;
        page.put_integer(self.value)?;
        page.put(b",")?;
        put_target(page, &self.label)
    }
}

/// Puts a terminator.
pub fn put_terminator(page: &mut Page, form: &TerminatorForm) -> Result<(), AllocError>
    ensures { OnOk result (page.new ≡ after page.old (terminator_tokens form.now)) }
{
    match form {
        TerminatorForm::Return(Some(value)) => {
            page.put(b"ret")?;
            value.put_on(page)
        }
        TerminatorForm::Return(None) => {
            page.put(b"ret")?;
            page.put(b"void")
        }
        TerminatorForm::Jump(to) => {
            page.put(b"br")?;
            put_target(page, to)
        }
        TerminatorForm::Branch {
            condition,
            if_true,
            if_false,
        } => {
            page.put(b"br")?;
            page.put(b"i1")?;
            put_value(page, condition)?;
            page.put(b",")?;
            put_target(page, if_true)?;
            page.put(b",")?;
            put_target(page, if_false)
        }
        TerminatorForm::Switch {
            width,
            value,
            default,
            cases,
        } => {
            page.put(b"switch")?;
            page.put_width(*width)?;
            put_value(page, value)?;
            page.put(b",")?;
            put_target(page, default)?;
            page.put(b"[")?;
            put_joined(page, cases.as_slice())?;
            page.put(b"]")
        }
        TerminatorForm::Unreachable => page.put(b"unreachable"),
    }
}
