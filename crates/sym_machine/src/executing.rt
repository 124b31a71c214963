//! What each kind of node does.
ghost use Rattle.std.specs.Prelude.{◌≡◌, ◌≤◌, length, IfOk};
ghost use Rattle.sym_states.specs.Attempts as attempts;
ghost use Rattle.state_laws.specs.Kept.{IsFitting, ProgramFits, StateFitsAt, NodeFits};
ghost use Rattle.state_sides.specs.Views.{context_of, state_seen, step_seen};

use crate::ending::ends;
use crate::leading::leads;
use crate::making::makes_value;
use crate::remembering::remembers;
use decider::Decide;
use flat_ir::Node;
use places::Home;
use state_sides::{Machine, State, Step};
use std::alloc::AllocError;
use write_log::SymMemory;

/// What a node does, whose step is taken.
pub(crate) fn executes<H: Home, K: SymMemory, D: Decide>(
    machine: &Machine<'_, H, D>,
    node: &Node,
    state: State<H, K>,
) -> Result<Step<H, K>, AllocError>
    requires budget { 1 ≤ machine.now.scope.budget }
    requires fitting { IsFitting (context_of machine.now.scope) }
    requires program { ProgramFits machine.now.scope.program.now }
    requires fits { StateFitsAt (length state.kept) (state_seen state) }
    requires node { NodeFits machine.now.scope.program.now node.now }
    ensures { IfOk result (λ step. step_seen step ≡ attempts.executes (context_of machine.now.scope) node.now (state_seen state)) }
{
    match node {
        Node::Bin { .. }
        | Node::Cmp { .. }
        | Node::Cast { .. }
        | Node::Gep { .. }
        | Node::Select { .. } => makes_value(machine, node, state),
        Node::Alloca { .. }
        | Node::Malloc { .. }
        | Node::Free { .. }
        | Node::Load { .. }
        | Node::Store { .. }
        | Node::Copy { .. } => remembers(machine, node, state),
        Node::In { .. }
        | Node::Put { .. }
        | Node::Call { .. }
        | Node::Moves { .. }
        | Node::Jump { .. }
        | Node::Branch { .. }
        | Node::Switch { .. }
        | Node::Ret { .. } => leads(machine, node, state),
        Node::Exit { .. } | Node::Abort | Node::Assert { .. } | Node::Unreachable => {
            ends(machine, node, state)
        }
    }
}
