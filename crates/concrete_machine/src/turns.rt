//! How the newest frame goes on.
ghost use Rattle.flat_ir.specs.Machine.{at_node, set, set_if};
ghost use Rattle.concrete_machine.specs.Frames.{frame_of, TurnsTo};

use crate::frames;
use crate::machine::Machine;
use flat_ir::{ConcreteValue, NodeId, RegId};

impl Machine {
    /// Goes on at a node.
    pub(crate) fn go_to(&mut self, next: NodeId)
        ensures { TurnsTo self.old self.new (at_node next (frame_of self.old.frame)) }
    {
        self.frame.node = next;
    }

    /// Sets a register and goes on.
    pub(crate) fn give(&mut self, register: RegId, value: ConcreteValue, next: NodeId)
        ensures { TurnsTo self.old self.new (at_node next (set register value (frame_of self.old.frame))) }
    {
        frames::set(&mut self.frame, register, value);
        self.frame.node = next;
    }

    /// Sets a register, if one is named, and goes on.
    pub(crate) fn give_if(&mut self, register: Option<RegId>, value: ConcreteValue, next: NodeId)
        ensures { TurnsTo self.old self.new (at_node next (set_if register value (frame_of self.old.frame))) }
    {
        frames::set_if(&mut self.frame, register, value);
        self.frame.node = next;
    }
}
