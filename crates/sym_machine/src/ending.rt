//! Nodes that end the program.
ghost use Rattle.std.specs.Prelude.{◌≡◌, ◌∷◌, [], length, IfOk};
ghost use Rattle.sym_states.specs.Attempts as attempts;
ghost use Rattle.sym_states.specs.States.{then_step};
ghost use Rattle.sym_states.specs.Terms.{value_in};
ghost use Rattle.state_laws.specs.Kept.{StateFitsAt, OperandFits, NodeFits};
ghost use Rattle.state_sides.specs.Views.{context_of, state_seen, step_seen};
ghost use Rattle.sym_machine.specs.Kinds.{IsEnding};

use call_steps::exits;
use decider::Decide;
use flat_ir::{FaultKind, Node, Operand};
use places::Home;
use state_sides::{Flow, Machine, State, Step};
use std::alloc::AllocError;
use step_parts::{fails, firm, value};
use terms::Terms;
use write_log::SymMemory;

fn exits_with<H: Home, K: SymMemory>(
    terms: &Terms<H>,
    status: &Operand,
    state: State<H, K>,
) -> Result<Step<H, K>, AllocError>
    requires fits { StateFitsAt (length state.kept) (state_seen state) }
    requires status { OperandFits status.now }
    ensures { IfOk result (λ step. step_seen step ≡ attempts.exits state.target (value_in (state_seen state) status.now) (state_seen state)) }
{
    let status = value(terms, &state, status)?;
    exits(terms, status, state)
}

fn exit<H: Home, K: SymMemory>(
    terms: &Terms<H>,
    status: &Operand,
    state: State<H, K>,
) -> Result<Step<H, K>, AllocError>
    requires fits { StateFitsAt (length state.kept) (state_seen state) }
    requires status { OperandFits status.now }
    ensures { IfOk result (λ step. step_seen step ≡ then_step (attempts.firm (status.now ∷ []) (state_seen state)) (λ u. attempts.exits u.target (value_in u status.now) u)) }
{
    let flow = firm(terms, &[*status], state)?;
    match flow {
        Flow::On(state) => exits_with(terms, status, state),
        Flow::Over(step) => Ok(step),
    }
}

fn fails_assert<H: Home, K: SymMemory>(
    terms: &Terms<H>,
    args: &[Operand],
    state: State<H, K>,
) -> Result<Step<H, K>, AllocError>
    requires { StateFitsAt (length state.kept) (state_seen state) }
    ensures { IfOk result (λ step. step_seen step ≡ then_step (attempts.firm args.now (state_seen state)) (attempts.fails FaultKind.Assert)) }
{
    let flow = firm(terms, args, state)?;
    match flow {
        Flow::On(state) => fails(terms.alloc(), FaultKind::Assert, state),
        Flow::Over(step) => Ok(step),
    }
}

/// A node that ends the program.
pub(crate) fn ends<H: Home, K: SymMemory, D: Decide>(
    machine: &Machine<'_, H, D>,
    node: &Node,
    state: State<H, K>,
) -> Result<Step<H, K>, AllocError>
    requires fits { StateFitsAt (length state.kept) (state_seen state) }
    requires node { NodeFits machine.now.scope.program.now node.now }
    requires kind { IsEnding node.now }
    ensures { IfOk result (λ step. step_seen step ≡ attempts.executes (context_of machine.now.scope) node.now (state_seen state)) }
{
    match node {
        Node::Exit { status } => exit(machine.terms, status, state),
        Node::Abort => fails(machine.terms.alloc(), FaultKind::Abort, state),
        Node::Assert { args } => fails_assert(machine.terms, args.as_slice(), state),
        Node::Unreachable => fails(machine.terms.alloc(), FaultKind::Unreachable, state),
        _ => unreachable!(),
    }
}
