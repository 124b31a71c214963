//! A program.
ghost use Rattle.std.specs.Prelude.{◌≡◌, IfOk};
ghost use Rattle.flat_ir.specs.Whole.{IsWhole};

use crate::{FuncId, Node, NodeId, RegType};
use plain_list::Sequence;
use std::alloc::{AllocError, Global};
use std::marker::Model;
use std::sync::Arc;

/// A byte that a global starts with.
#[derive(Clone, Copy, Debug, PartialEq, Eq)]
pub enum InitByte {
    Int(u8),
    PtrByte { global: u32, offset: u64, j: u8 },
}

#[derive(Drop)]
pub struct GlobalVar {
    pub name: Sequence<u8>,
    pub size: u64,
    pub init: Sequence<InitByte>,
}

#[derive(Drop)]
pub struct Func {
    pub name: Sequence<u8>,
    pub params: u32,
    pub regs: Sequence<RegType>,
    pub reg_names: Sequence<Sequence<u8>>,
    pub result: Option<RegType>,
    pub nodes: Sequence<Node>,
    pub clashes: Sequence<NodeId>,
    pub bad_edges: Sequence<NodeId>,
}

/// The parts of a program.
#[derive(Drop)]
pub struct ProgramData {
    pub globals: Sequence<GlobalVar>,
    pub funcs: Sequence<Func>,
    pub main: FuncId,
    pub defined: u32,
}

/// A program, all of whose names are its own. Copies share its parts.
#[derive(Drop)]
pub struct Program {
    parts: Arc<ProgramData, Global>,
}

impl Model for Program {
    ghost use Rattle.flat_ir.specs.declared.program.ProgramData.{ProgramData};
    ghost use Rattle.flat_ir.specs.Whole.{IsWhole};

    ghost Value = { ProgramData };

    ghost view = { λ p. p.parts.value };

    ghost invariant = { λ p. IsWhole p.parts.value };
}

impl Program {
    pub fn new(alloc: Global, parts: ProgramData) -> Result<Program, AllocError>
        requires { IsWhole parts }
        ensures { IfOk result (λ p. p ≡ parts) }
    {
        Ok(Program {
            parts: Arc::new(alloc, parts)?,
        })
    }

    /// One more owner of the same parts: a count, and no copy.
    pub fn copy(&self) -> Result<Program, AllocError>
        ensures { IfOk result (λ p. p ≡ self.now) }
    {
        Ok(Program {
            parts: Arc::try_clone(&self.parts)?,
        })
    }

    pub fn parts(&self) -> &ProgramData
        ensures value { result.now ≡ self.now }
        ensures whole { IsWhole self.now }
    {
        &self.parts
    }
}
