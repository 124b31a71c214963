//! Operands and constants.
#![tactic(auto, using(crate::proofs::Writing::after_append))]

ghost use Rattle.std.specs.Prelude.{◌≡◌, map, OnOk};
ghost use Rattle.ir_tree.specs.Pages.{after};
ghost use Rattle.ir_tree.specs.Spelling.{gep_tokens, form_tokens, value_tokens, constant_tokens, pointer_tokens, separated};

use super::page::Page;
use super::spelled::{Spelled, put_others};
use super::types::{closing, opening, put_type};
use crate::constants::{ConstIndex, Constant, GepLevel, Value, ValueForm};
use crate::instructions::{Index, Typed};
use crate::types::Name;
use std::alloc::AllocError;

impl Spelled for ConstIndex {
    ghost use Rattle.ir_tree.specs.Spelling.{const_index_tokens};

    ghost tokens = { const_index_tokens };

    fn put_on(&self, page: &mut Page) -> Result<(), AllocError> {
        page.put_width(self.width)?;
        page.put_integer(self.value)
    }
}

/// A constant expression: its levels, and the global within the innermost.
fn put_gep(page: &mut Page, base: &Name, levels: &[GepLevel]) -> Result<(), AllocError>
    ensures { OnOk result (page.new ≡ after page.old (gep_tokens base.now levels.now)) }
{
    match levels {
        [] => page.put_global(base.text.as_slice()),
        [level, inner @ ..] => {
            page.put(b"getelementptr")?;
            page.put(b"(")?;
            put_type(page, &level.source)?;
            page.put(b",")?;
            page.put(b"ptr")?;
            put_gep(page, base, inner)?;
            put_others(page, level.indices.as_slice())?;
            page.put(b")")
        }
    }
}

fn put_form(page: &mut Page, form: &ValueForm) -> Result<(), AllocError>
    ensures { OnOk result (page.new ≡ after page.old (form_tokens form.now)) }
{
    match form {
        ValueForm::Local(name) => page.put_local(name.as_slice()),
        ValueForm::Global(name) => page.put_global(name.as_slice()),
        ValueForm::Int(number) => page.put_integer(*number),
        ValueForm::True => page.put(b"true"),
        ValueForm::False => page.put(b"false"),
        ValueForm::Null => page.put(b"null"),
        ValueForm::Undef => page.put(b"undef"),
        ValueForm::Poison => page.put(b"poison"),
        ValueForm::ZeroInitializer => page.put(b"zeroinitializer"),
        ValueForm::Gep(gep) => put_gep(page, &gep.base, gep.levels.as_slice()),
    }
}

/// Puts an operand.
pub fn put_value(page: &mut Page, value: &Value) -> Result<(), AllocError>
    ensures { OnOk result (page.new ≡ after page.old (value_tokens value.now)) }
{
    put_form(page, &value.form)
}

/// Puts an operand that is an address.
pub fn put_pointer(page: &mut Page, pointer: &Value) -> Result<(), AllocError>
    ensures { OnOk result (page.new ≡ after page.old (pointer_tokens pointer.now)) }
{
    page.put(b"ptr")?;
    put_value(page, pointer)
}

impl Spelled for Typed {
    ghost use Rattle.ir_tree.specs.Spelling.{typed_tokens};

    ghost tokens = { typed_tokens };

    fn put_on(&self, page: &mut Page) -> Result<(), AllocError> {
        put_type(page, &self.kind)?;
        put_value(page, &self.value)
    }
}

impl Spelled for Index {
    ghost use Rattle.ir_tree.specs.Spelling.{index_tokens};

    ghost tokens = { index_tokens };

    fn put_on(&self, page: &mut Page) -> Result<(), AllocError> {
        page.put_width(self.width)?;
        put_value(page, &self.value)
    }
}

/// Puts a constant, with its type before it.
#[cycle(constants)]
pub fn put_constant(page: &mut Page, constant: &Constant) -> Result<(), AllocError>
    ensures { OnOk result (page.new ≡ after page.old (constant_tokens constant.now)) }
{
    match constant {
        Constant::Value { kind, value } => {
            put_type(page, kind)?;
            put_value(page, value)
        }
        Constant::Bytes { kind, at: _, bytes } => {
            put_type(page, kind)?;
            page.put_string(bytes.as_slice())
        }
        Constant::Array {
            kind,
            at: _,
            elements,
        } => {
            put_type(page, kind)?;
            page.put(b"[")?;
            put_constants(page, elements.as_slice())?;
            page.put(b"]")
        }
        Constant::Struct {
            kind,
            at: _,
            fields,
            packed,
        } => {
            put_type(page, kind)?;
            page.put(opening(*packed))?;
            put_constants(page, fields.as_slice())?;
            page.put(closing(*packed))
        }
    }
}

/// Constants with commas between them.
#[cycle(constants)]
fn put_constants(page: &mut Page, constants: &[Constant]) -> Result<(), AllocError>
    ensures { OnOk result (page.new ≡ after page.old (separated (map constant_tokens constants.now))) }
{
    for (index, constant) in constants.iter().enumerate() {
        page.put_comma_before(index)?;
        put_constant(page, constant)?;
    }
    Ok(())
}
