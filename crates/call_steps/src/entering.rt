//! The frames that calls make.
ghost use Rattle.std.specs.Prelude.{◌≡◌, ◌++◌, map, drop, length, Option, Some, None, IfOk, OnOk};
ghost use Rattle.sym_bytes.specs.Value.{SymValue as Value};
ghost use Rattle.sym_states.specs.Attempts as attempts;
ghost use Rattle.sym_states.specs.States as states;
ghost use Rattle.state_sides.specs.Views.{context_of, state_seen, step_seen};

use decider::Decide;
use flat_ir::{FrameName, FuncId, Node, RegType};
use places::Home;
use plain_list::Sequence;
use state_sides::{Machine, State, Step, nodes_of, types_of};
use std::alloc::{AllocError, Global};
use std::mem;
use sym_bytes::SymValue;
use sym_states::Frame;
use write_log::SymMemory;

// The registers of the parameters.
fn given<H: Home>(
    alloc: Global,
    args: Sequence<SymValue<H>>,
) -> Result<Sequence<Option<SymValue<H>>>, AllocError>
    ensures { IfOk result (λ regs. regs ≡ map Some args) }
{
    let mut regs = Sequence::new(alloc);
    'values: for value in args.into_vec() {
        regs.push(Some(value))?;
    }
    Ok(regs)
}

// Adds a register that isn't set for each type.
fn add_unset<H: Home>(
    mut regs: Sequence<Option<SymValue<H>>>,
    types: &[RegType],
) -> Result<Sequence<Option<SymValue<H>>>, AllocError>
    ensures { IfOk result (λ all. all ≡ regs ++ map (λ t. None) types.now) }
{
    'types: for _kind in types {
        regs.push(None)?;
    }
    Ok(regs)
}

// What is behind the first n types.
fn rest_of(types: &[RegType], n: usize) -> &[RegType]
    ensures { result.now ≡ drop n types.now }
{
    if n <= types.len() { &types[n..] } else { &[] }
}

// The arguments, and then the registers that aren't set.
fn registers<H: Home>(
    alloc: Global,
    args: Sequence<SymValue<H>>,
    types: &[RegType],
) -> Result<Sequence<Option<SymValue<H>>>, AllocError>
    ensures { IfOk result (λ regs. regs ≡ map Some args ++ map (λ t. None) (drop (length args) types.now)) }
{
    let rest = rest_of(types, args.len());
    let regs = given(alloc, args)?;
    add_unset(regs, rest)
}

fn no_counts(alloc: Global, nodes: &[Node]) -> Result<Sequence<u64>, AllocError>
    ensures { IfOk result (λ counts. counts ≡ map (λ n. 0) nodes.now) }
{
    let mut counts = Sequence::new(alloc);
    'nodes: for _node in nodes {
        counts.push(0)?;
    }
    Ok(counts)
}

/// The frame that a call makes: its arguments are the first registers, and no node is executed.
///
/// # Errors
///
/// No memory.
pub fn entered<H: Home, D: Decide>(
    machine: &Machine<'_, H, D>,
    func: FuncId,
    args: Sequence<SymValue<H>>,
    name: FrameName,
) -> Result<Frame<H>, AllocError>
    ensures { IfOk result (λ f. f ≡ states.entered machine.now.scope.program.now machine.now.scope.residual.now func args name) }
{
    let alloc = machine.terms.alloc();
    let regs = registers(alloc, args, types_of(machine.scope.program, func))?;
    let counts = no_counts(alloc, nodes_of(machine.scope.program, func))?;
    Ok(Frame::new(func, machine.place_first(func), regs, name, counts))
}

// Puts the frame that a call makes above the caller, which has executed its node.
fn put_above<H: Home, K: SymMemory, D: Decide>(
    machine: &Machine<'_, H, D>,
    func: FuncId,
    args: Sequence<SymValue<H>>,
    state: &mut State<H, K>,
) -> Result<(), AllocError>
    ensures { OnOk result (states.Goes (state_seen state.new) ≡ attempts.enters (context_of machine.now.scope) func args (state_seen state.old)) }
{
    let alloc = machine.terms.alloc();
    let name = state.frame.name_below(alloc)?;
    let frame = entered(machine, func, args, name)?;
    let mut caller = mem::replace(&mut state.frame, frame);
    caller.counted()?;
    state.callers = state.callers.with(alloc, caller)?;
    Ok(())
}

/// A call of a function with arguments: the frame that it makes is the newest, and the caller has executed its node.
///
/// # Errors
///
/// No memory, or a count past its bound.
pub fn enters<H: Home, K: SymMemory, D: Decide>(
    machine: &Machine<'_, H, D>,
    func: FuncId,
    args: Sequence<SymValue<H>>,
    mut state: State<H, K>,
) -> Result<Step<H, K>, AllocError>
    ensures { IfOk result (λ step. step_seen step ≡ attempts.enters (context_of machine.now.scope) func args (state_seen state)) }
{
    match put_above(machine, func, args, &mut state) {
        Ok(()) => Ok(Step::Goes(state)),
        Err(error) => {
            drop(state);
            Err(error)
        }
    }
}
