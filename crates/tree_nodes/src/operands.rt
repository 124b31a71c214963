//! The operands that values are.
ghost use Rattle.std.specs.Prelude.{◌≡◌, ◌<◌, ◌^◌, IfOk, IsTrue};
ghost use Rattle.bitnum.specs.Number.{IsWidth};
ghost use Rattle.flat_ir.specs.declared.nodes.Operand.TheVariants as operand;
ghost use Rattle.ir_programs.specs.Causes.{bits_of as tree_bits};
ghost use Rattle.ir_programs.specs.Operands as spec;
ghost use Rattle.ir_programs.specs.Parts.{written};
ghost use Rattle.ir_programs.specs.Readable.{is_readable_value};
ghost use Rattle.ir_programs.specs.Registers as registers;
ghost use Rattle.tree_nodes.specs.Widths.{HasWidth};

use crate::names::{narrow, number_of};
use crate::scope::{Scope, Whole};
use bitnum::Num;
use flat_ir::{Operand, RegId, RegType};
use ir_tree::constants::{Integer, Value, ValueForm};
use ir_tree::types::Name;
use std::alloc::AllocError;
use tree_constants::{bits_of, gep_offset};

/// The register with this name.
pub fn register_of(scope: &Scope, name: &[u8]) -> Result<RegId, AllocError>
    ensures { IfOk result (λ r. r ≡ registers.register_of scope.now.function.now name.now) }
{
    Ok(RegId(narrow(number_of(name, scope.registers))?))
}

/// The register that a name in front of an instruction is.
pub(crate) fn register_in(scope: &Scope, name: &Option<Name>) -> Result<Option<RegId>, AllocError>
    ensures { IfOk result (λ r. r ≡ spec.register_in scope.now.function.now name.now) }
{
    match name {
        Some(name) => Ok(Some(register_of(scope, name.text.as_slice())?)),
        None => Ok(None),
    }
}

/// The register that an instruction sets, or the first where it has no name.
pub(crate) fn register_or_first(register: Option<RegId>) -> RegId
    ensures { result ≡ spec.register_or_first register }
{
    match register {
        Some(register) => register,
        None => RegId(0),
    }
}

/// A place behind a global.
fn global_operand(whole: &Whole, name: &[u8], offset: u64) -> Result<Operand, AllocError>
    ensures { IfOk result (λ o. o ≡ operand.Global (registers.global_of whole.now.tree.now name.now) offset) }
{
    let global = narrow(number_of(name, whole.globals))?;
    Ok(Operand::Global { global, offset })
}

/// A number of so many bits.
pub(crate) fn number(width: u8, bits: u64) -> Operand
    requires width { IsWidth width }
    requires fits { bits < 2 ^ width }
    ensures { result ≡ spec.number width bits }
{
    Operand::Int(Num::new(width, bits))
}

/// 0 or null.
fn zero_operand(kind: RegType) -> Operand
    requires { HasWidth kind }
    ensures { result ≡ spec.zero_operand kind }
{
    match kind {
        RegType::Int(width) => number(width, 0),
        RegType::Ptr => Operand::Null,
    }
}

fn integer_of(width: u8, value: &Integer) -> Operand
    requires { IsWidth width }
    ensures { result ≡ spec.number width (tree_bits width value.now) }
{
    number(width, bits_of(width, value))
}

/// An integer for which a type is written.
fn integer_operand(kind: RegType, value: &Integer) -> Operand
    requires { HasWidth kind }
    ensures { result ≡ spec.number (spec.width_or_64 kind) (tree_bits (spec.width_or_64 kind) value.now) }
{
    match kind {
        RegType::Int(width) => integer_of(width, value),
        RegType::Ptr => integer_of(64, value),
    }
}

/// The operand of a value for which a type is written.
pub fn operand_of(scope: &Scope, kind: RegType, value: &Value) -> Result<Operand, AllocError>
    requires kind { HasWidth kind }
    requires value { IsTrue (is_readable_value value.now) }
    ensures { IfOk result (λ o. o ≡ spec.operand_of scope.now.whole.now.tree.now scope.now.function.now (written kind value.now)) }
{
    let whole = scope.whole;
    match &value.form {
        ValueForm::Local(name) => Ok(Operand::Reg(register_of(scope, name.as_slice())?)),
        ValueForm::Global(name) => global_operand(whole, name.as_slice(), 0),
        ValueForm::Int(value) => Ok(integer_operand(kind, value)),
        ValueForm::True => Ok(number(1, 1)),
        ValueForm::False => Ok(number(1, 0)),
        ValueForm::Null => Ok(Operand::Null),
        ValueForm::Undef | ValueForm::Poison | ValueForm::ZeroInitializer => {
            Ok(zero_operand(kind))
        }
        ValueForm::Gep(gep) => {
            let offset = gep_offset(whole.tree.types.as_slice(), whole.rooms, gep);
            global_operand(whole, gep.base.text.as_slice(), offset)
        }
    }
}
