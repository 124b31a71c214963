//! A program as functions of numbered nodes, and what a run of it does.
#![tactic(auto)]

mod check;
mod lookups;
mod names;
mod nodes;
mod program;
mod residual;
mod values;

pub use check::CheckError;
pub use lookups::{node_in, nodes_of, type_at, types_of};
pub use names::{
    CallStep, FrameName, FuncId, Location, NodeId, ObjectName, RegId, Site, same_frames,
    same_objects,
};
pub use nodes::{CastOp, GepPart, MoveSet, Node, Operand, RegType, SwitchCase};
pub use program::{Func, GlobalVar, InitByte, Program, ProgramData};
pub use residual::{Kept, Next, Residual};
pub use values::{Address, ConcreteByte, ConcreteValue, FaultKind};
