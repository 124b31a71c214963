//! Nodes that make, free, read and write objects.
ghost use Rattle.std.specs.Prelude.{◌≡◌, ◌≤◌, ◌∷◌, [], Some, length, IfOk};
ghost use Rattle.flat_ir.specs.Machine.{type_at as register_type};
ghost use Rattle.sym_bytes.specs.Building.{wide as wide_term};
ghost use Rattle.sym_states.specs.Attempts as attempts;
ghost use Rattle.sym_states.specs.States.{then_step};
ghost use Rattle.sym_states.specs.Terms.{address_in};
ghost use Rattle.state_laws.specs.Kept.{IsFitting, ProgramFits, StateFitsAt, OperandFits, OperandsFit, NodeFits};
ghost use Rattle.state_sides.specs.Views.{context_of, state_seen, step_seen};
ghost use Rattle.sym_machine.specs.Kinds.{IsRemembering};

use decider::Decide;
use flat_ir::{Node, Operand, RegId};
use memory_steps::{copies_from, frees, loads_at, stores_at};
use node_values::wide;
use number_steps::{asks_memory, makes};
use places::Home;
use state_sides::{Flow, Machine, State, Step, type_at};
use std::alloc::AllocError;
use step_parts::{address, firm};
use write_log::SymMemory;

fn alloca<H: Home, K: SymMemory, D: Decide>(
    machine: &Machine<'_, H, D>,
    size: u64,
    register: RegId,
    state: State<H, K>,
) -> Result<Step<H, K>, AllocError>
    ensures { IfOk result (λ step. step_seen step ≡ attempts.makes (context_of machine.now.scope) (Some register) (wide_term size) (state_seen state)) }
{
    let size = wide(machine.terms, size)?;
    makes(machine, Some(register), size, state)
}

fn malloc<H: Home, K: SymMemory, D: Decide>(
    machine: &Machine<'_, H, D>,
    size: &Operand,
    register: Option<RegId>,
    state: State<H, K>,
) -> Result<Step<H, K>, AllocError>
    requires budget { 1 ≤ machine.now.scope.budget }
    requires fits { StateFitsAt (length state.kept) (state_seen state) }
    requires size { OperandFits size.now }
    ensures { IfOk result (λ step. step_seen step ≡ then_step (attempts.firm (size.now ∷ []) (state_seen state)) (attempts.asks_memory (context_of machine.now.scope) size.now register)) }
{
    let flow = firm(machine.terms, &[*size], state)?;
    match flow {
        Flow::On(state) => asks_memory(machine, size, register, state),
        Flow::Over(step) => Ok(step),
    }
}

fn frees_at<H: Home, K: SymMemory, D: Decide>(
    machine: &Machine<'_, H, D>,
    pointer: &Operand,
    state: State<H, K>,
) -> Result<Step<H, K>, AllocError>
    requires budget { 1 ≤ machine.now.scope.budget }
    requires fitting { IsFitting (context_of machine.now.scope) }
    requires fits { StateFitsAt (length state.kept) (state_seen state) }
    requires pointer { OperandFits pointer.now }
    ensures { IfOk result (λ step. step_seen step ≡ attempts.frees (context_of machine.now.scope) (address_in (state_seen state) pointer.now) (state_seen state)) }
{
    let freed = address(machine.terms, &state, pointer)?;
    frees(machine, &freed, state)
}

fn free<H: Home, K: SymMemory, D: Decide>(
    machine: &Machine<'_, H, D>,
    pointer: &Operand,
    state: State<H, K>,
) -> Result<Step<H, K>, AllocError>
    requires budget { 1 ≤ machine.now.scope.budget }
    requires fitting { IsFitting (context_of machine.now.scope) }
    requires fits { StateFitsAt (length state.kept) (state_seen state) }
    requires pointer { OperandFits pointer.now }
    ensures { IfOk result (λ step. step_seen step ≡ then_step (attempts.firm (pointer.now ∷ []) (state_seen state)) (λ u. attempts.frees (context_of machine.now.scope) (address_in u pointer.now) u)) }
{
    let flow = firm(machine.terms, &[*pointer], state)?;
    match flow {
        Flow::On(state) => frees_at(machine, pointer, state),
        Flow::Over(step) => Ok(step),
    }
}

fn loads_here<H: Home, K: SymMemory, D: Decide>(
    machine: &Machine<'_, H, D>,
    pointer: &Operand,
    register: RegId,
    state: State<H, K>,
) -> Result<Step<H, K>, AllocError>
    requires budget { 1 ≤ machine.now.scope.budget }
    requires fitting { IsFitting (context_of machine.now.scope) }
    requires program { ProgramFits machine.now.scope.program.now }
    requires fits { StateFitsAt (length state.kept) (state_seen state) }
    requires pointer { OperandFits pointer.now }
    ensures { IfOk result (λ step. step_seen step ≡ attempts.loads_at (context_of machine.now.scope) pointer.now register (register_type machine.now.scope.program.now state.frame.func register) (state_seen state)) }
{
    let of = type_at(machine.scope.program, state.frame.func(), register);
    loads_at(machine, pointer, register, of, state)
}

fn load<H: Home, K: SymMemory, D: Decide>(
    machine: &Machine<'_, H, D>,
    pointer: &Operand,
    register: RegId,
    state: State<H, K>,
) -> Result<Step<H, K>, AllocError>
    requires budget { 1 ≤ machine.now.scope.budget }
    requires fitting { IsFitting (context_of machine.now.scope) }
    requires program { ProgramFits machine.now.scope.program.now }
    requires fits { StateFitsAt (length state.kept) (state_seen state) }
    requires pointer { OperandFits pointer.now }
    ensures { IfOk result (λ step. step_seen step ≡ then_step (attempts.firm (pointer.now ∷ []) (state_seen state)) (λ u. attempts.loads_at (context_of machine.now.scope) pointer.now register (register_type machine.now.scope.program.now u.frame.func register) u)) }
{
    let flow = firm(machine.terms, &[*pointer], state)?;
    match flow {
        Flow::On(state) => loads_here(machine, pointer, register, state),
        Flow::Over(step) => Ok(step),
    }
}

fn store<H: Home, K: SymMemory, D: Decide>(
    machine: &Machine<'_, H, D>,
    value: &Operand,
    pointer: &Operand,
    state: State<H, K>,
) -> Result<Step<H, K>, AllocError>
    requires budget { 1 ≤ machine.now.scope.budget }
    requires fitting { IsFitting (context_of machine.now.scope) }
    requires fits { StateFitsAt (length state.kept) (state_seen state) }
    requires operands { OperandsFit (value.now ∷ pointer.now ∷ []) }
    ensures { IfOk result (λ step. step_seen step ≡ then_step (attempts.firm (pointer.now ∷ []) (state_seen state)) (attempts.stores_at (context_of machine.now.scope) value.now pointer.now)) }
{
    let flow = firm(machine.terms, &[*pointer], state)?;
    match flow {
        Flow::On(state) => stores_at(machine, value, pointer, state),
        Flow::Over(step) => Ok(step),
    }
}

fn copy<H: Home, K: SymMemory, D: Decide>(
    machine: &Machine<'_, H, D>,
    from: &Operand,
    there: &Operand,
    state: State<H, K>,
) -> Result<Step<H, K>, AllocError>
    requires budget { 1 ≤ machine.now.scope.budget }
    requires fitting { IsFitting (context_of machine.now.scope) }
    requires fits { StateFitsAt (length state.kept) (state_seen state) }
    requires operands { OperandsFit (from.now ∷ there.now ∷ []) }
    ensures { IfOk result (λ step. step_seen step ≡ then_step (attempts.firm (from.now ∷ there.now ∷ []) (state_seen state)) (attempts.copies_from (context_of machine.now.scope) from.now there.now)) }
{
    let flow = firm(machine.terms, &[*from, *there], state)?;
    match flow {
        Flow::On(state) => copies_from(machine, from, there, state),
        Flow::Over(step) => Ok(step),
    }
}

/// A node that makes, frees, reads or writes an object.
pub(crate) fn remembers<H: Home, K: SymMemory, D: Decide>(
    machine: &Machine<'_, H, D>,
    node: &Node,
    state: State<H, K>,
) -> Result<Step<H, K>, AllocError>
    requires budget { 1 ≤ machine.now.scope.budget }
    requires fitting { IsFitting (context_of machine.now.scope) }
    requires program { ProgramFits machine.now.scope.program.now }
    requires fits { StateFitsAt (length state.kept) (state_seen state) }
    requires node { NodeFits machine.now.scope.program.now node.now }
    requires kind { IsRemembering node.now }
    ensures { IfOk result (λ step. step_seen step ≡ attempts.executes (context_of machine.now.scope) node.now (state_seen state)) }
{
    match node {
        Node::Alloca { size, result, .. } => alloca(machine, *size, *result, state),
        Node::Malloc { size, result, .. } => malloc(machine, size, *result, state),
        Node::Free { pointer, .. } => free(machine, pointer, state),
        Node::Load {
            pointer,
            result,
            ..
        } => load(machine, pointer, *result, state),
        Node::Store { value, pointer, .. } => store(machine, value, pointer, state),
        Node::Copy { from, to, .. } => copy(machine, from, to, state),
        _ => unreachable!(),
    }
}
