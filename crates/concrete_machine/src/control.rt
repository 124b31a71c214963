//! Nodes that go on elsewhere, and those of input and output.
ghost use Rattle.std.specs.Prelude.{◌≡◌, ◌∷◌, List, ℕ, map, slice_get, IfOk, ◌==◌, if◌then◌else◌};
ghost use Rattle.flat_ir.specs.declared.nodes.Node.TheVariants as node;
ghost use Rattle.flat_ir.specs.Machine.{value_in};
ghost use Rattle.flat_ir.specs.Registers as registers;
ghost use Rattle.flat_ir.specs.Steps as spec;
ghost use Rattle.concrete_machine.specs.Control.{target_of, all_set, ReadsOn};
ghost use Rattle.flat_ir.specs.declared.program.ProgramData.{ProgramData};
ghost use Rattle.concrete_machine.specs.Frames.{frame_of};
ghost use Rattle.concrete_machine.specs.Standing.{Attempts, AttemptsAnywhere};

use crate::frames::{number_of, set, value_of};
use crate::machine::{Frame, Led, Machine};
use bitnum::Num;
use flat_ir::{ConcreteValue, MoveSet, NodeId, Operand, RegId, SwitchCase};
use std::alloc::{AllocError, Global};

// The node of the case that fits, or of the default.
fn target(value: u64, cases: &[SwitchCase], default: NodeId) -> NodeId
    ensures { result ≡ target_of value cases.now default }
{
    for case in cases {
        if case.number.bits() == value {
            return case.to;
        }
    }
    default
}

// What each register is set to, read before any is set.
fn read_all(
    alloc: Global,
    frame: &Frame,
    sets: &[MoveSet],
) -> Result<Vec<(RegId, ConcreteValue)>, AllocError>
    ensures { IfOk result (λ pairs. pairs.items ≡ map (λ m. (m.register, value_in (frame_of frame.now) m.value)) sets.now) }
{
    let mut pairs = Vec::new(alloc);
    for entry in sets {
        let value = value_of(frame, &entry.value)?;
        pairs.push((entry.register, value))?;
    }
    Ok(pairs)
}

fn set_all(frame: &mut Frame, pairs: Vec<(RegId, ConcreteValue)>)
    ensures { frame_of frame.new ≡ all_set pairs.items (frame_of frame.old) }
{
    for pair in pairs {
        let (register, value) = pair;
        set(frame, register, value);
    }
}

// The side of a branch.
fn side(frame: &Frame, condition: &Operand, yes: NodeId, no: NodeId) -> NodeId
    ensures { result ≡ (if (registers.number (value_in (frame_of frame.now) condition.now)).bits == 1 then yes else no) }
{
    if number_of(frame, condition).bits() == 1 {
        yes
    } else {
        no
    }
}

impl Machine {
    /// All sets of registers at once.
    pub(crate) fn moves(&mut self, sets: &[MoveSet], next: NodeId) -> Result<Led, AllocError>
        ensures { IfOk result (AttemptsAnywhere (node.Moves sets.now next) self.old self.new) }
    {
        let pairs = read_all(self.alloc, &self.frame, sets)?;
        set_all(&mut self.frame, pairs);
        self.frame.node = next;
        Ok(Led::On)
    }

    /// Goes on at a node.
    pub(crate) fn jump(&mut self, next: NodeId) -> Led
        ensures { AttemptsAnywhere (node.Jump next) self.old self.new result }
    {
        self.go_to(next);
        Led::On
    }

    /// One of two nodes, by a condition.
    pub(crate) fn branch(&mut self, condition: &Operand, yes: NodeId, no: NodeId) -> Led
        ensures { AttemptsAnywhere (node.Branch condition.now yes no) self.old self.new result }
    {
        let next = side(&self.frame, condition, yes, no);
        self.go_to(next);
        Led::On
    }

    /// The node of the case that fits.
    pub(crate) fn switch(&mut self, value: &Operand, cases: &[SwitchCase], default: NodeId) -> Led
        ensures { AttemptsAnywhere (node.Switch value.now cases.now default) self.old self.new result }
    {
        let number = number_of(&self.frame, value).bits();
        let next = target(number, cases, default);
        self.go_to(next);
        Led::On
    }

    // The next byte of the input, or -1 at its end, in 32 bits.
    fn next_byte(&mut self, input: &[u8]) -> u64
        ensures byte { result ≡ spec.unsigned_byte (slice_get input.now self.old.position) }
        ensures moves { ReadsOn self.old self.new input.now }
    {
        match input.get(self.position) {
            Some(byte) => {
                self.position += 1;
                u64::from(*byte)
            }
            None => 0xffff_ffff,
        }
    }

    /// Reads a byte of the input.
    pub(crate) fn read(&mut self, input: &[u8], register: RegId, next: NodeId) -> Led
        ensures { (p : ProgramData) → Attempts p input.now (node.In register next) self.old self.new result }
    {
        let byte = self.next_byte(input);
        self.give(register, ConcreteValue::Int(Num::new(32, byte)), next);
        Led::On
    }

    /// Writes the low byte of a number out.
    pub(crate) fn put(&mut self, value: &Operand, next: NodeId) -> Result<Led, AllocError>
        ensures { IfOk result (AttemptsAnywhere (node.Put value.now next) self.old self.new) }
    {
        let byte = (number_of(&self.frame, value).bits() % 256) as u8;
        self.output.push(byte)?;
        self.go_to(next);
        Ok(Led::On)
    }
}
