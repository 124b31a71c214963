//! Nodes that read and write, call and return, and choose their way.
ghost use Rattle.std.specs.Prelude.{◌≡◌, ◌≤◌, ◌∷◌, [], map, length, IfOk};
ghost use Rattle.sym_bytes.specs.Answers as answers;
ghost use Rattle.sym_states.specs.Attempts as attempts;
ghost use Rattle.sym_states.specs.States.{then_step, goes_on};
ghost use Rattle.sym_states.specs.Terms.{value_in};
ghost use Rattle.state_laws.specs.Kept.{IsFitting, StateFitsAt, OperandFits, CasesFit, NodeFits};
ghost use Rattle.state_sides.specs.Views.{context_of, state_seen, step_seen};
ghost use Rattle.sym_machine.specs.Kinds.{IsLeading};

use call_steps::{calls, moves, returns, values_of};
use decider::Decide;
use flat_ir::{FuncId, Node, Operand, RegId, SwitchCase};
use number_steps::{branches, puts, switches, takes_input};
use places::Home;
use state_sides::{Flow, Machine, State, Step};
use std::alloc::AllocError;
use step_parts::{firm, knows};
use sym_bytes::Wanted;
use write_log::SymMemory;

fn get<H: Home, K: SymMemory, D: Decide>(
    machine: &Machine<'_, H, D>,
    register: RegId,
    state: State<H, K>,
) -> Result<Step<H, K>, AllocError>
    requires { StateFitsAt (length state.kept) (state_seen state) }
    ensures { IfOk result (λ step. step_seen step ≡ then_step (attempts.knows answers.Input (state_seen state)) (attempts.takes_input (context_of machine.now.scope) register)) }
{
    let flow = knows(machine.terms.alloc(), &Wanted::Input, state)?;
    match flow {
        Flow::On(state) => takes_input(machine, register, state),
        Flow::Over(step) => Ok(step),
    }
}

fn put<H: Home, K: SymMemory, D: Decide>(
    machine: &Machine<'_, H, D>,
    value: &Operand,
    state: State<H, K>,
) -> Result<Step<H, K>, AllocError>
    requires { StateFitsAt (length state.kept) (state_seen state) }
    ensures { IfOk result (λ step. step_seen step ≡ then_step (attempts.firm (value.now ∷ []) (state_seen state)) (attempts.puts (context_of machine.now.scope) value.now)) }
{
    let flow = firm(machine.terms, &[*value], state)?;
    match flow {
        Flow::On(state) => puts(machine, value, state),
        Flow::Over(step) => Ok(step),
    }
}

fn call<H: Home, K: SymMemory, D: Decide>(
    machine: &Machine<'_, H, D>,
    callee: FuncId,
    args: &[Operand],
    register: Option<RegId>,
    state: State<H, K>,
) -> Result<Step<H, K>, AllocError>
    ensures { IfOk result (λ step. step_seen step ≡ attempts.calls (context_of machine.now.scope) callee (map (value_in (state_seen state)) args.now) register (state_seen state)) }
{
    let values = values_of(machine.terms, &state, args)?;
    calls(machine, callee, values, register, state)
}

fn jump<H: Home, K: SymMemory, D: Decide>(
    machine: &Machine<'_, H, D>,
    state: State<H, K>,
) -> Result<Step<H, K>, AllocError>
    ensures { IfOk result (λ step. step_seen step ≡ goes_on (context_of machine.now.scope) (state_seen state)) }
{
    Ok(Step::Goes(machine.done(None, None, state)?))
}

fn branch<H: Home, K: SymMemory, D: Decide>(
    machine: &Machine<'_, H, D>,
    condition: &Operand,
    state: State<H, K>,
) -> Result<Step<H, K>, AllocError>
    requires budget { 1 ≤ machine.now.scope.budget }
    requires fits { StateFitsAt (length state.kept) (state_seen state) }
    requires condition { OperandFits condition.now }
    ensures { IfOk result (λ step. step_seen step ≡ then_step (attempts.firm (condition.now ∷ []) (state_seen state)) (attempts.branches (context_of machine.now.scope) condition.now)) }
{
    let flow = firm(machine.terms, &[*condition], state)?;
    match flow {
        Flow::On(state) => branches(machine, condition, state),
        Flow::Over(step) => Ok(step),
    }
}

fn switch<H: Home, K: SymMemory, D: Decide>(
    machine: &Machine<'_, H, D>,
    value: &Operand,
    cases: &[SwitchCase],
    state: State<H, K>,
) -> Result<Step<H, K>, AllocError>
    requires budget { 1 ≤ machine.now.scope.budget }
    requires fits { StateFitsAt (length state.kept) (state_seen state) }
    requires value { OperandFits value.now }
    requires cases { CasesFit cases.now }
    ensures { IfOk result (λ step. step_seen step ≡ then_step (attempts.firm (value.now ∷ []) (state_seen state)) (attempts.switches (context_of machine.now.scope) value.now cases.now)) }
{
    let flow = firm(machine.terms, &[*value], state)?;
    match flow {
        Flow::On(state) => switches(machine, value, cases, state),
        Flow::Over(step) => Ok(step),
    }
}

/// A node that reads or writes, calls or returns, or chooses its way.
pub(crate) fn leads<H: Home, K: SymMemory, D: Decide>(
    machine: &Machine<'_, H, D>,
    node: &Node,
    state: State<H, K>,
) -> Result<Step<H, K>, AllocError>
    requires budget { 1 ≤ machine.now.scope.budget }
    requires fitting { IsFitting (context_of machine.now.scope) }
    requires fits { StateFitsAt (length state.kept) (state_seen state) }
    requires node { NodeFits machine.now.scope.program.now node.now }
    requires kind { IsLeading node.now }
    ensures { IfOk result (λ step. step_seen step ≡ attempts.executes (context_of machine.now.scope) node.now (state_seen state)) }
{
    match node {
        Node::In { result, .. } => get(machine, *result, state),
        Node::Put { value, .. } => put(machine, value, state),
        Node::Call {
            callee,
            args,
            result,
            ..
        } => call(machine, *callee, args.as_slice(), *result, state),
        Node::Moves { sets, .. } => moves(machine, sets.as_slice(), state),
        Node::Jump { .. } => jump(machine, state),
        Node::Branch { condition, .. } => branch(machine, condition, state),
        Node::Switch { value, cases, .. } => switch(machine, value, cases.as_slice(), state),
        Node::Ret { value } => returns(machine, value, state),
        _ => unreachable!(),
    }
}
