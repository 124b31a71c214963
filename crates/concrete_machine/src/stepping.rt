//! One step of the machine.
ghost use Rattle.std.specs.Prelude.{IfOk, List, ℕ};
ghost use Rattle.flat_ir.specs.declared.nodes.Node.TheVariants as node;
ghost use Rattle.concrete_machine.specs.Standing.{Attempts, AttemptsAnywhere};
ghost use Rattle.concrete_machine.specs.Stepping.{IsRunning, StepsAs};
ghost use Rattle.concrete_machine.specs.Suiting.{IsComputing, IsOfMemory, Suits};

use crate::frames::{count, number_of};
use crate::machine::{Led, Machine};
use flat_ir::{FaultKind, Node, Operand, Program, node_in};
use std::alloc::AllocError;

impl Machine {
    // Ends the program with a status.
    fn exit(&mut self, status: &Operand) -> Led
        ensures { AttemptsAnywhere (node.Exit status.now) self.old self.new result }
    {
        Led::Exited((number_of(&self.frame, status).bits() % 256) as u8)
    }

    // Attempts a node that computes a value from values.
    fn compute(&mut self, program: &Program, node: &Node) -> Result<Led, AllocError>
        requires computing { IsComputing node.now }
        requires suits { Suits program.now self.old node.now }
        ensures { IfOk result (λ led. (input : List ℕ) → Attempts program.now input node.now self.old self.new led) }
    {
        match node {
            Node::Bin {
                op,
                a,
                b,
                result,
                next,
            } => Ok(self.bin(*op, a, b, *result, *next)),
            Node::Cmp {
                pred,
                a,
                b,
                result,
                next,
            } => self.cmp(*pred, a, b, *result, *next),
            Node::Cast {
                op,
                a,
                result,
                next,
            } => Ok(self.cast(program.parts(), *op, a, *result, *next)),
            Node::Gep {
                base,
                parts,
                result,
                next,
            } => self.gep(base, parts.as_slice(), *result, *next),
            Node::Select {
                condition,
                a,
                b,
                result,
                next,
            } => self.select(condition, a, b, *result, *next),
            _ => unreachable!(),
        }
    }

    // Attempts a node of memory.
    fn access(&mut self, program: &Program, node: &Node) -> Result<Led, AllocError>
        requires of_memory { IsOfMemory node.now }
        requires suits { Suits program.now self.old node.now }
        ensures { IfOk result (λ led. (input : List ℕ) → Attempts program.now input node.now self.old self.new led) }
    {
        match node {
            Node::Alloca { size, result, next } => self.alloca(*size, *result, *next),
            Node::Malloc { size, result, next } => self.malloc(size, *result, *next),
            Node::Free { pointer, next } => self.free(program, pointer, *next),
            Node::Load {
                pointer,
                result,
                next,
            } => self.load(program, pointer, *result, *next),
            Node::Store {
                value,
                pointer,
                next,
            } => self.store_value(value, pointer, *next),
            Node::Copy { from, to, next } => self.copy(from, to, *next),
            _ => unreachable!(),
        }
    }

    // Attempts a node.
    fn attempt(&mut self, program: &Program, input: &[u8], node: &Node) -> Result<Led, AllocError>
        requires { Suits program.now self.old node.now }
        ensures { IfOk result (Attempts program.now input.now node.now self.old self.new) }
    {
        match node {
            Node::Bin { .. } => self.compute(program, node),
            Node::Cmp { .. } => self.compute(program, node),
            Node::Cast { .. } => self.compute(program, node),
            Node::Gep { .. } => self.compute(program, node),
            Node::Select { .. } => self.compute(program, node),
            Node::Alloca { .. } => self.access(program, node),
            Node::Malloc { .. } => self.access(program, node),
            Node::Free { .. } => self.access(program, node),
            Node::Load { .. } => self.access(program, node),
            Node::Store { .. } => self.access(program, node),
            Node::Copy { .. } => self.access(program, node),
            Node::In { result, next } => Ok(self.read(input, *result, *next)),
            Node::Put { value, next } => self.put(value, *next),
            Node::Call { callee, args, .. } => self.call(program.parts(), *callee, args.as_slice()),
            Node::Moves { sets, next } => self.moves(sets.as_slice(), *next),
            Node::Jump { next } => Ok(self.jump(*next)),
            Node::Branch { condition, yes, no } => Ok(self.branch(condition, *yes, *no)),
            Node::Switch {
                value,
                cases,
                default,
            } => Ok(self.switch(value, cases.as_slice(), *default)),
            Node::Ret { value } => self.ret(program.parts(), value),
            Node::Exit { status } => Ok(self.exit(status)),
            Node::Abort => Ok(Led::Faulted(FaultKind::Abort)),
            Node::Assert { .. } => Ok(Led::Faulted(FaultKind::Assert)),
            Node::Unreachable => Ok(Led::Faulted(FaultKind::Unreachable)),
        }
    }

    /// Executes the node at which the newest frame stands, which counts it first.
    pub(crate) fn step(&mut self, program: &Program, input: &[u8]) -> Result<Led, AllocError>
        requires { IsRunning program.now input.now self.old }
        ensures { IfOk result (StepsAs program.now input.now self.old self.new) }
    {
        count(&mut self.frame);
        match node_in(program.parts(), self.frame.func, self.frame.node) {
            Some(node) => self.attempt(program, input, node),
            None => Ok(Led::Faulted(FaultKind::Unreachable)),
        }
    }
}
