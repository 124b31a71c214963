//! Nodes that make numbers and pointers.
ghost use Rattle.std.specs.Prelude.{◌≡◌, ◌≤◌, ◌∷◌, ◌++◌, [], length, IfOk};
ghost use Rattle.std.specs.List.{flat_map};
ghost use Rattle.flat_ir.specs.Whole.{operands_of_part};
ghost use Rattle.sym_states.specs.Attempts as attempts;
ghost use Rattle.sym_states.specs.States.{then_step};
ghost use Rattle.state_laws.specs.Kept.{IsFitting, StateFitsAt, OperandsFit, NodeFits};
ghost use Rattle.state_sides.specs.Views.{context_of, state_seen, step_seen};
ghost use Rattle.sym_machine.specs.Kinds.{IsMaking};

use bitnum::{BinOp, Pred};
use decider::Decide;
use flat_ir::{CastOp, GepPart, Node, Operand, RegId};
use number_steps::{casts, chooses, compares, computes, places};
use places::Home;
use plain_list::Sequence;
use state_sides::{Flow, Machine, State, Step};
use std::alloc::{AllocError, Global};
use step_parts::firm;
use write_log::SymMemory;

fn bin<H: Home, K: SymMemory, D: Decide>(
    machine: &Machine<'_, H, D>,
    op: BinOp,
    a: &Operand,
    b: &Operand,
    register: RegId,
    state: State<H, K>,
) -> Result<Step<H, K>, AllocError>
    requires budget { 1 ≤ machine.now.scope.budget }
    requires fitting { IsFitting (context_of machine.now.scope) }
    requires fits { StateFitsAt (length state.kept) (state_seen state) }
    requires operands { OperandsFit (a.now ∷ b.now ∷ []) }
    ensures { IfOk result (λ step. step_seen step ≡ then_step (attempts.firm (a.now ∷ b.now ∷ []) (state_seen state)) (attempts.computes (context_of machine.now.scope) op a.now b.now register)) }
{
    let flow = firm(machine.terms, &[*a, *b], state)?;
    match flow {
        Flow::On(state) => computes(machine, op, a, b, register, state),
        Flow::Over(step) => Ok(step),
    }
}

fn cmp<H: Home, K: SymMemory, D: Decide>(
    machine: &Machine<'_, H, D>,
    pred: Pred,
    a: &Operand,
    b: &Operand,
    register: RegId,
    state: State<H, K>,
) -> Result<Step<H, K>, AllocError>
    requires { StateFitsAt (length state.kept) (state_seen state) }
    ensures { IfOk result (λ step. step_seen step ≡ then_step (attempts.firm (a.now ∷ b.now ∷ []) (state_seen state)) (attempts.compares (context_of machine.now.scope) pred a.now b.now register)) }
{
    let flow = firm(machine.terms, &[*a, *b], state)?;
    match flow {
        Flow::On(state) => compares(machine, pred, a, b, register, state),
        Flow::Over(step) => Ok(step),
    }
}

fn cast<H: Home, K: SymMemory, D: Decide>(
    machine: &Machine<'_, H, D>,
    op: CastOp,
    a: &Operand,
    register: RegId,
    state: State<H, K>,
) -> Result<Step<H, K>, AllocError>
    requires { StateFitsAt (length state.kept) (state_seen state) }
    ensures { IfOk result (λ step. step_seen step ≡ then_step (attempts.firm (a.now ∷ []) (state_seen state)) (attempts.casts (context_of machine.now.scope) op a.now register)) }
{
    let flow = firm(machine.terms, &[*a], state)?;
    match flow {
        Flow::On(state) => casts(machine, op, a, register, state),
        Flow::Over(step) => Ok(step),
    }
}

// The operands of a pointer's move.
fn operands_of_parts(
    alloc: Global,
    base: &Operand,
    parts: &[GepPart],
) -> Result<Sequence<Operand>, AllocError>
    ensures { IfOk result (λ list. list ≡ base.now ∷ flat_map operands_of_part parts.now) }
{
    let mut operands = Sequence::of_one(alloc, *base)?;
    'parts: for part in parts {
        if let GepPart::Index { index, .. } = part {
            operands.push(*index)?;
        }
    }
    Ok(operands)
}

fn gep<H: Home, K: SymMemory, D: Decide>(
    machine: &Machine<'_, H, D>,
    base: &Operand,
    parts: &[GepPart],
    register: RegId,
    state: State<H, K>,
) -> Result<Step<H, K>, AllocError>
    requires { StateFitsAt (length state.kept) (state_seen state) }
    ensures { IfOk result (λ step. step_seen step ≡ then_step (attempts.firm (base.now ∷ flat_map operands_of_part parts.now) (state_seen state)) (attempts.places (context_of machine.now.scope) base.now parts.now register)) }
{
    let operands = operands_of_parts(machine.terms.alloc(), base, parts)?;
    let flow = firm(machine.terms, operands.as_slice(), state)?;
    match flow {
        Flow::On(state) => places(machine, base, parts, register, state),
        Flow::Over(step) => Ok(step),
    }
}

fn select<H: Home, K: SymMemory, D: Decide>(
    machine: &Machine<'_, H, D>,
    condition: &Operand,
    a: &Operand,
    b: &Operand,
    register: RegId,
    state: State<H, K>,
) -> Result<Step<H, K>, AllocError>
    requires budget { 1 ≤ machine.now.scope.budget }
    requires fits { StateFitsAt (length state.kept) (state_seen state) }
    requires operands { OperandsFit (condition.now ∷ a.now ∷ b.now ∷ []) }
    ensures { IfOk result (λ step. step_seen step ≡ then_step (attempts.firm (condition.now ∷ a.now ∷ b.now ∷ []) (state_seen state)) (attempts.chooses (context_of machine.now.scope) condition.now a.now b.now register)) }
{
    let flow = firm(machine.terms, &[*condition, *a, *b], state)?;
    match flow {
        Flow::On(state) => chooses(machine, condition, a, b, register, state),
        Flow::Over(step) => Ok(step),
    }
}

/// A node that makes a number or a pointer.
pub(crate) fn makes_value<H: Home, K: SymMemory, D: Decide>(
    machine: &Machine<'_, H, D>,
    node: &Node,
    state: State<H, K>,
) -> Result<Step<H, K>, AllocError>
    requires budget { 1 ≤ machine.now.scope.budget }
    requires fitting { IsFitting (context_of machine.now.scope) }
    requires fits { StateFitsAt (length state.kept) (state_seen state) }
    requires node { NodeFits machine.now.scope.program.now node.now }
    requires kind { IsMaking node.now }
    ensures { IfOk result (λ step. step_seen step ≡ attempts.executes (context_of machine.now.scope) node.now (state_seen state)) }
{
    match node {
        Node::Bin {
            op,
            a,
            b,
            result,
            ..
        } => bin(machine, *op, a, b, *result, state),
        Node::Cmp {
            pred,
            a,
            b,
            result,
            ..
        } => cmp(machine, *pred, a, b, *result, state),
        Node::Cast { op, a, result, .. } => cast(machine, *op, a, *result, state),
        Node::Gep {
            base,
            parts,
            result,
            ..
        } => gep(machine, base, parts.as_slice(), *result, state),
        Node::Select {
            condition,
            a,
            b,
            result,
            ..
        } => select(machine, condition, a, b, *result, state),
        _ => unreachable!(),
    }
}
