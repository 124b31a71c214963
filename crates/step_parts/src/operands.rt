//! Operands of a state.
ghost use Rattle.std.specs.Prelude.{◌≡◌, IfOk};
ghost use Rattle.sym_states.specs.Terms as spec;
ghost use Rattle.state_sides.specs.Views.{state_seen};

use flat_ir::Operand;
use node_values::{address_in, number_in, value_in};
use places::Home;
use state_sides::State;
use std::alloc::AllocError;
use sym_bytes::{Pointer, SymValue};
use terms::{Term, Terms};
use write_log::Index;

/// The term of an operand.
///
/// # Errors
///
/// No memory.
pub fn number<H: Home, K: Index>(
    terms: &Terms<H>,
    state: &State<H, K>,
    operand: &Operand,
) -> Result<Term<H>, AllocError>
    ensures { IfOk result (λ t. t ≡ spec.number_in (state_seen state.now) operand.now) }
{
    let snapshots = state.snapshots.as_slice();
    number_in(terms, snapshots, state.frame.regs(), operand)
}

/// The value of an operand.
///
/// # Errors
///
/// No memory.
pub fn value<H: Home, K: Index>(
    terms: &Terms<H>,
    state: &State<H, K>,
    operand: &Operand,
) -> Result<SymValue<H>, AllocError>
    ensures { IfOk result (λ v. v ≡ spec.value_in (state_seen state.now) operand.now) }
{
    let snapshots = state.snapshots.as_slice();
    value_in(terms, snapshots, state.frame.regs(), operand)
}

/// The pointer of an operand.
///
/// # Errors
///
/// No memory.
pub fn address<H: Home, K: Index>(
    terms: &Terms<H>,
    state: &State<H, K>,
    operand: &Operand,
) -> Result<Pointer<H>, AllocError>
    ensures { IfOk result (λ p. p ≡ spec.address_in (state_seen state.now) operand.now) }
{
    let snapshots = state.snapshots.as_slice();
    address_in(terms, snapshots, state.frame.regs(), operand)
}
