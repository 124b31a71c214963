//! What a frame has, and what is put into it.
ghost use Rattle.std.specs.Prelude.{◌≡◌, IfOk, slice_set};
ghost use Rattle.flat_ir.specs.Machine as spec;
ghost use Rattle.flat_ir.specs.Registers as registers;
ghost use Rattle.concrete_machine.specs.Frames.{frame_of, HasRoom};

use crate::machine::Frame;
use bitnum::Num;
use flat_ir::{Address, CallStep, ConcreteValue, ObjectName, Operand, RegId};
use std::alloc::AllocError;

/// The pointer into no object.
pub(crate) fn null() -> ConcreteValue
    ensures { result ≡ ConcreteValue.Ptr registers.null }
{
    ConcreteValue::Ptr(Address {
        base: None,
        offset: 0,
    })
}

/// The number of a value; a pointer has none.
pub(crate) fn number(value: &ConcreteValue) -> Num
    ensures { result ≡ registers.number value.now }
{
    match value {
        ConcreteValue::Int(number) => *number,
        ConcreteValue::Ptr(_) => Num::new(64, 0),
    }
}

/// The value of an operand.
pub(crate) fn value_of(frame: &Frame, operand: &Operand) -> Result<ConcreteValue, AllocError>
    ensures { IfOk result (λ v. v ≡ spec.value_in (frame_of frame.now) operand.now) }
{
    match operand {
        Operand::Reg(register) => match frame.regs.get(register.0 as usize) {
            Some(value) => value.copy(),
            None => Ok(null()),
        },
        Operand::Int(number) => Ok(ConcreteValue::Int(*number)),
        Operand::Null => Ok(null()),
        Operand::Global { global, offset } => {
            let base = Some(ObjectName::Global(*global));
            Ok(ConcreteValue::Ptr(Address {
                base,
                offset: *offset,
            }))
        }
    }
}

/// The number of an operand.
pub(crate) fn number_of(frame: &Frame, operand: &Operand) -> Num
    ensures { result ≡ registers.number (spec.value_in (frame_of frame.now) operand.now) }
{
    match operand {
        Operand::Reg(register) => match frame.regs.get(register.0 as usize) {
            Some(value) => number(value),
            None => Num::new(64, 0),
        },
        Operand::Int(number) => *number,
        Operand::Null | Operand::Global { .. } => Num::new(64, 0),
    }
}

// The address of a value; a number has none.
fn into_address(value: ConcreteValue) -> Address
    ensures { result ≡ registers.address value }
{
    match value {
        ConcreteValue::Ptr(at) => at,
        ConcreteValue::Int(_) => Address {
            base: None,
            offset: 0,
        },
    }
}

/// The address of an operand.
pub(crate) fn address_of(frame: &Frame, operand: &Operand) -> Result<Address, AllocError>
    ensures { IfOk result (λ a. a ≡ registers.address (spec.value_in (frame_of frame.now) operand.now)) }
{
    Ok(into_address(value_of(frame, operand)?))
}

/// The execution of its node that the frame is in.
pub(crate) fn step_here(frame: &Frame) -> CallStep
    ensures { result ≡ spec.step_here (frame_of frame.now) }
{
    let count = match frame.counts.get(frame.node.0 as usize) {
        Some(count) => *count,
        None => 0,
    };
    CallStep {
        func: frame.func,
        node: frame.node,
        count,
    }
}

/// Counts the node that is executed.
pub(crate) fn count(frame: &mut Frame)
    requires { HasRoom frame.old }
    ensures { frame_of frame.new ≡ spec.counted (frame_of frame.old) }
{
    let place = frame.node.0 as usize;
    if place < frame.counts.len() {
        frame.counts[place] += 1;
    }
}

/// Sets a register.
pub(crate) fn set(frame: &mut Frame, register: RegId, value: ConcreteValue)
    ensures { frame_of frame.new ≡ spec.set register value (frame_of frame.old) }
{
    let place = register.0 as usize;
    if place < frame.regs.len() {
        frame.regs[place] = value;
    }
}

/// Sets a register, if one is named.
pub(crate) fn set_if(frame: &mut Frame, register: Option<RegId>, value: ConcreteValue)
    ensures { frame_of frame.new ≡ spec.set_if register value (frame_of frame.old) }
{
    if let Some(register) = register {
        set(frame, register, value);
    }
}
