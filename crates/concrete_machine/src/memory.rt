//! Nodes of memory.
ghost use Rattle.std.specs.Prelude.{◌≡◌, ◌≤◌, drop, List, ℕ, IfOk};
ghost use Rattle.flat_ir.specs.declared.nodes.Node.TheVariants as node;
ghost use Rattle.flat_ir.specs.declared.program.ProgramData.{ProgramData};
ghost use Rattle.flat_ir.specs.History.{History};
ghost use Rattle.flat_ir.specs.Machine as run;
ghost use Rattle.flat_ir.specs.Machine.{made_here, value_in, type_at as register_type, Event};
ghost use Rattle.flat_ir.specs.Registers.{bytes_of_value};
ghost use Rattle.flat_ir.specs.Steps.{moved_by as spec_moved_by, moved_by_all};
ghost use Rattle.concrete_memory.specs.Standing.{IsNew};
ghost use Rattle.concrete_machine.specs.Frames.{frame_of, state_with};
ghost use Rattle.concrete_machine.specs.Standing.{Attempts, AttemptsAnywhere};
ghost use Rattle.concrete_machine.specs.Making.{Makes};
ghost use Rattle.typed_runs.specs.Suiting.{TakesBytes};

use crate::frames::{address_of, null, number_of, step_here, value_of};
use crate::machine::{Frame, Led, Machine};
use bitnum::sext;
use concrete_memory::AccessError;
use flat_ir::{
    Address, ConcreteValue, GepPart, NodeId, ObjectName, Operand, Program, RegId, type_at,
};
use std::alloc::AllocError;

// The object that the frame's node makes now.
fn new_name(frame: &Frame) -> Result<ObjectName, AllocError>
    ensures { IfOk result (λ x. x ≡ made_here (frame_of frame.now)) }
{
    let made = step_here(frame);
    let frame = frame.name.copy()?;
    Ok(ObjectName::Made { frame, made })
}

// An offset moved by one part of an address.
fn moved_by(frame: &Frame, offset: u64, part: &GepPart) -> u64
    ensures { (callers : List run.Frame) (h : History) (events : List Event) → result ≡ spec_moved_by (state_with frame.now callers h events) offset part.now }
{
    match part {
        GepPart::Field { offset: by } => offset.wrapping_add(*by),
        GepPart::Index { scale, index } => {
            let index = sext(number_of(frame, index), 64).bits();
            offset.wrapping_add(scale.wrapping_mul(index))
        }
    }
}

// An offset moved by all parts of an address, in their order.
fn moved_by_parts(frame: &Frame, from: u64, parts: &[GepPart]) -> u64
    ensures { (callers : List run.Frame) (h : History) (events : List Event) → result ≡ moved_by_all (state_with frame.now callers h events) from parts.now }
{
    let mut offset = from;
    for part in parts {
        offset = moved_by(frame, offset, part);
    }
    offset
}

impl Machine {
    /// An address moved by its parts.
    pub(crate) fn gep(
        &mut self,
        base: &Operand,
        parts: &[GepPart],
        register: RegId,
        next: NodeId,
    ) -> Result<Led, AllocError>
        ensures { IfOk result (AttemptsAnywhere (node.Gep base.now parts.now register next) self.old self.new) }
    {
        let Address { base, offset } = address_of(&self.frame, base)?;
        let offset = moved_by_parts(&self.frame, offset, parts);
        self.give(register, ConcreteValue::Ptr(Address { base, offset }), next);
        Ok(Led::On)
    }

    // Makes an object of the frame's node, and gives its address.
    fn make(&mut self, size: u64) -> Result<ConcreteValue, AllocError>
        requires { IsNew self.old.store (made_here (frame_of self.old.frame)) }
        ensures { IfOk result (Makes self.old self.new size) }
    {
        let name = new_name(&self.frame)?;
        let base = Some(name.copy()?);
        self.store.alloc(name, size)?;
        Ok(ConcreteValue::Ptr(Address { base, offset: 0 }))
    }

    /// Makes an object that ends with its frame.
    pub(crate) fn alloca(
        &mut self,
        size: u64,
        register: RegId,
        next: NodeId,
    ) -> Result<Led, AllocError>
        requires { IsNew self.old.store (made_here (frame_of self.old.frame)) }
        ensures { IfOk result (AttemptsAnywhere (node.Alloca size register next) self.old self.new) }
    {
        let made = self.make(size)?;
        self.give(register, made, next);
        Ok(Led::On)
    }

    /// Makes an object of so many bytes, or null where these are too many.
    pub(crate) fn malloc(
        &mut self,
        size: &Operand,
        register: Option<RegId>,
        next: NodeId,
    ) -> Result<Led, AllocError>
        requires { IsNew self.old.store (made_here (frame_of self.old.frame)) }
        ensures { IfOk result (AttemptsAnywhere (node.Malloc size.now register next) self.old self.new) }
    {
        let bytes = number_of(&self.frame, size).bits();
        if 65536 < bytes {
            self.give_if(register, null(), next);
            return Ok(Led::On);
        }
        let made = self.make(bytes)?;
        self.give_if(register, made, next);
        Ok(Led::On)
    }

    /// Frees what malloc made.
    pub(crate) fn free(
        &mut self,
        program: &Program,
        pointer: &Operand,
        next: NodeId,
    ) -> Result<Led, AllocError>
        ensures { IfOk result (λ led. (input : List ℕ) → Attempts program.now input (node.Free pointer.now next) self.old self.new led) }
    {
        let at = address_of(&self.frame, pointer)?;
        match self.store.free(program, &at) {
            Err(kind) => Ok(Led::Faulted(kind)),
            Ok(()) => {
                self.go_to(next);
                Ok(Led::On)
            }
        }
    }

    /// Loads a value of the register's type.
    pub(crate) fn load(
        &mut self,
        program: &Program,
        pointer: &Operand,
        register: RegId,
        next: NodeId,
    ) -> Result<Led, AllocError>
        requires { TakesBytes (register_type program.now self.old.frame.func register) }
        ensures { IfOk result (λ led. (input : List ℕ) → Attempts program.now input (node.Load pointer.now register next) self.old self.new led) }
    {
        let as_type = type_at(program.parts(), self.frame.func, register);
        let at = address_of(&self.frame, pointer)?;
        match self.store.load(&at, as_type) {
            Err(AccessError::Memory) => Err(AllocError),
            Err(AccessError::Fault(kind)) => Ok(Led::Faulted(kind)),
            Ok(value) => {
                self.give(register, value, next);
                Ok(Led::On)
            }
        }
    }

    /// Stores a value.
    pub(crate) fn store_value(
        &mut self,
        value: &Operand,
        pointer: &Operand,
        next: NodeId,
    ) -> Result<Led, AllocError>
        requires { 1 ≤ bytes_of_value (value_in (frame_of self.old.frame) value.now) }
        ensures { IfOk result (AttemptsAnywhere (node.Store value.now pointer.now next) self.old self.new) }
    {
        let stored = value_of(&self.frame, value)?;
        let at = address_of(&self.frame, pointer)?;
        match self.store.store(&at, &stored) {
            Err(AccessError::Memory) => Err(AllocError),
            Err(AccessError::Fault(kind)) => Ok(Led::Faulted(kind)),
            Ok(()) => {
                self.go_to(next);
                Ok(Led::On)
            }
        }
    }

    /// Copies one byte as it is.
    pub(crate) fn copy(
        &mut self,
        from: &Operand,
        to: &Operand,
        next: NodeId,
    ) -> Result<Led, AllocError>
        ensures { IfOk result (AttemptsAnywhere (node.Copy from.now to.now next) self.old self.new) }
    {
        let source = address_of(&self.frame, from)?;
        let target = address_of(&self.frame, to)?;
        match self.store.copy(&source, &target) {
            Err(AccessError::Memory) => Err(AllocError),
            Err(AccessError::Fault(kind)) => Ok(Led::Faulted(kind)),
            Ok(()) => {
                self.go_to(next);
                Ok(Led::On)
            }
        }
    }
}
