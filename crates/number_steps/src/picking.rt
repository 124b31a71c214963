//! Values that a test chooses, and objects that a node makes.
ghost use Rattle.std.specs.Prelude.{◌≡◌, ◌≤◌, length, IfOk, OnOk};
ghost use Rattle.terms.specs.Tree.{width_of};
ghost use Rattle.leaves.specs.Fitting.{IsTerm};
ghost use Rattle.sym_bytes.specs.Building as building;
ghost use Rattle.sym_bytes.specs.Entry as entry;
ghost use Rattle.sym_states.specs.Attempts as attempts;
ghost use Rattle.sym_states.specs.Sides as sides;
ghost use Rattle.sym_states.specs.States as states;
ghost use Rattle.sym_states.specs.Terms as values;
ghost use Rattle.state_laws.specs.Kept.{StateFitsAt, OperandFits};
ghost use Rattle.state_sides.specs.Offers.{tested_seen};
ghost use Rattle.state_sides.specs.Views.{context_of, state_seen, step_seen};

use crate::making::{gives_term, gives_value};
use decider::Decide;
use flat_ir::{Operand, RegId};
use node_values::{chosen, is_small, null, pointer_to, size_in, term_in, truth_of};
use places::Home;
use state_sides::{Machine, State, Step, Tested};
use std::alloc::AllocError;
use step_parts::{number, value};
use sym_bytes::{Entry, SymValue, ValueKind};
use terms::{Term, Terms};
use write_log::SymMemory;

/// Each side of a test gives its value.
///
/// # Errors
///
/// No memory, or a count past its bound.
pub fn picks<H: Home, K: SymMemory, D: Decide>(
    machine: &Machine<'_, H, D>,
    register: RegId,
    a: SymValue<H>,
    b: SymValue<H>,
    tested: Tested<H, K>,
) -> Result<Step<H, K>, AllocError>
    ensures { IfOk result (λ step. step_seen step ≡ attempts.picks (context_of machine.now.scope) register a b (tested_seen tested)) }
{
    match tested {
        Tested::Good(state) => {
            drop(b);
            gives_value(machine, register, a, state)
        }
        Tested::Bad(state) => {
            drop(a);
            gives_value(machine, register, b, state)
        }
        Tested::Answered(step) => {
            drop(a);
            drop(b);
            Ok(step)
        }
    }
}

// A selection of integers is a term.
fn selects_number<H: Home, K: SymMemory, D: Decide>(
    machine: &Machine<'_, H, D>,
    register: RegId,
    condition: &Term<H>,
    a: &Term<H>,
    b: &SymValue<H>,
    state: State<H, K>,
) -> Result<Step<H, K>, AllocError>
    ensures { IfOk result (λ step. step_seen step ≡ attempts.gives_term (context_of machine.now.scope) register (values.chosen condition.now a.now (values.term_in b.now)) (state_seen state)) }
{
    let other = term_in(machine.terms, b)?;
    let either = chosen(machine.terms, condition, a, &other)?;
    gives_term(machine, register, either, state)
}

// A selection of other values is a test.
fn selects_side<H: Home, K: SymMemory, D: Decide>(
    machine: &Machine<'_, H, D>,
    register: RegId,
    condition: &Term<H>,
    a: SymValue<H>,
    b: SymValue<H>,
    state: State<H, K>,
) -> Result<Step<H, K>, AllocError>
    requires budget { 1 ≤ machine.now.scope.budget }
    requires fits { StateFitsAt (length state.kept) (state_seen state) }
    requires condition { IsTerm (length state.kept) condition.now }
    ensures { IfOk result (λ step. step_seen step ≡ attempts.picks (context_of machine.now.scope) register a b (sides.test (context_of machine.now.scope) (values.truth_of condition.now) (state_seen state))) }
{
    let truth = truth_of(machine.terms, condition)?;
    let tested = machine.test(&truth, state)?;
    picks(machine, register, a, b, tested)
}

/// The first value where a condition over the bytes of the kept input is 1, and else the second: of integers a term, of other
/// values a test.
///
/// # Errors
///
/// No memory, or a count past its bound.
pub fn selects<H: Home, K: SymMemory, D: Decide>(
    machine: &Machine<'_, H, D>,
    register: RegId,
    condition: &Term<H>,
    a: SymValue<H>,
    b: SymValue<H>,
    state: State<H, K>,
) -> Result<Step<H, K>, AllocError>
    requires budget { 1 ≤ machine.now.scope.budget }
    requires fits { StateFitsAt (length state.kept) (state_seen state) }
    requires condition { IsTerm (length state.kept) condition.now }
    ensures { IfOk result (λ step. step_seen step ≡ attempts.selects (context_of machine.now.scope) register condition.now a b (state_seen state)) }
{
    match a.kind() {
        ValueKind::Int(first) => selects_number(machine, register, condition, first, &b, state),
        ValueKind::Ptr(_) => selects_side(machine, register, condition, a, b, state),
        ValueKind::Pending(_, _) => selects_side(machine, register, condition, a, b, state),
    }
}

/// A selection of one of two operands by a third one.
///
/// # Errors
///
/// No memory, or a count past its bound.
pub fn chooses<H: Home, K: SymMemory, D: Decide>(
    machine: &Machine<'_, H, D>,
    condition: &Operand,
    a: &Operand,
    b: &Operand,
    register: RegId,
    state: State<H, K>,
) -> Result<Step<H, K>, AllocError>
    requires budget { 1 ≤ machine.now.scope.budget }
    requires fits { StateFitsAt (length state.kept) (state_seen state) }
    requires condition { OperandFits condition.now }
    ensures { IfOk result (λ step. step_seen step ≡ attempts.chooses (context_of machine.now.scope) condition.now a.now b.now register (state_seen state)) }
{
    let holds = number(machine.terms, &state, condition)?;
    let x = value(machine.terms, &state, a)?;
    let y = value(machine.terms, &state, b)?;
    selects(machine, register, &holds, x, y, state)
}

// Makes the object of the state's node, of a size of 64 bits, and gives the pointer to its start.
fn made_in<H: Home, K: SymMemory>(
    terms: &Terms<H>,
    size: Term<H>,
    state: &mut State<H, K>,
) -> Result<SymValue<H>, AllocError>
    requires { width_of size ≡ 64 }
    ensures value { IfOk result (λ v. v ≡ building.pointer_to (states.made_now state.old.frame) 0) }
    ensures made { OnOk result (state_seen state.new ≡ states.appended (entry.Alloc (states.made_now state.old.frame) size) (state_seen state.old)) }
{
    let pointer = pointer_to(terms, state.frame.made_now()?, 0)?;
    let made = state.frame.made_now()?;
    K::append(&mut state.memory, Entry::alloc(made, size))?;
    Ok(pointer)
}

/// The node makes an object of a size of 64 bits, and gives the pointer to its start.
///
/// # Errors
///
/// No memory, or a count past its bound.
pub fn makes<H: Home, K: SymMemory, D: Decide>(
    machine: &Machine<'_, H, D>,
    register: Option<RegId>,
    size: Term<H>,
    mut state: State<H, K>,
) -> Result<Step<H, K>, AllocError>
    requires { width_of size ≡ 64 }
    ensures { IfOk result (λ step. step_seen step ≡ attempts.makes (context_of machine.now.scope) register size (state_seen state)) }
{
    match made_in(machine.terms, size, &mut state) {
        Ok(pointer) => Ok(Step::Goes(machine.done(register, Some(pointer), state)?)),
        Err(error) => {
            drop(state);
            Err(error)
        }
    }
}

/// A size that was tested for being at most 65536 bytes: it makes an object, and a greater one gives null.
///
/// # Errors
///
/// No memory, or a count past its bound.
pub fn mallocs<H: Home, K: SymMemory, D: Decide>(
    machine: &Machine<'_, H, D>,
    register: Option<RegId>,
    size: Term<H>,
    tested: Tested<H, K>,
) -> Result<Step<H, K>, AllocError>
    requires { width_of size ≡ 64 }
    ensures { IfOk result (λ step. step_seen step ≡ attempts.mallocs (context_of machine.now.scope) register size (tested_seen tested)) }
{
    match tested {
        Tested::Good(state) => makes(machine, register, size, state),
        Tested::Bad(state) => {
            let nothing = null(machine.terms)?;
            Ok(Step::Goes(machine.done(register, Some(nothing), state)?))
        }
        Tested::Answered(step) => Ok(step),
    }
}

/// A malloc of an operand's size.
///
/// # Errors
///
/// No memory, or a count past its bound.
pub fn asks_memory<H: Home, K: SymMemory, D: Decide>(
    machine: &Machine<'_, H, D>,
    size: &Operand,
    register: Option<RegId>,
    state: State<H, K>,
) -> Result<Step<H, K>, AllocError>
    requires budget { 1 ≤ machine.now.scope.budget }
    requires fits { StateFitsAt (length state.kept) (state_seen state) }
    requires size { OperandFits size.now }
    ensures { IfOk result (λ step. step_seen step ≡ attempts.asks_memory (context_of machine.now.scope) size.now register (state_seen state)) }
{
    let asked = number(machine.terms, &state, size)?;
    let size = size_in(machine.terms, &asked)?;
    let small = is_small(machine.terms, &size)?;
    let tested = machine.test(&small, state)?;
    mallocs(machine, register, size, tested)
}
