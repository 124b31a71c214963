//! The line of a run.
ghost use Rattle.std.specs.Prelude.{◌≡◌, ◌++◌, codes, IfOk, OnOk};
ghost use Rattle.std.specs.Fmt.{decimal};
ghost use Rattle.checks.specs.Errors.{IsChecked};
ghost use Rattle.run_lines.specs.Runs as spec;

use concrete_machine::{Outcome, RunEnd, run};
use flat_ir::{FaultKind, FuncId, NodeId, Program};
use name_texts::put_place;
use std::alloc::{AllocError, Global};
use value_texts::{fault_text, put_bytes, put_number, put_text};

// What was written out, the number of steps, and the line's end.
fn put_output_and_steps(
    alloc: Global,
    text: &mut Vec<u8>,
    output: &[u8],
    steps: u64,
) -> Result<(), AllocError>
    ensures { OnOk result (text.new.items ≡ text.old.items ++ spec.output_and_steps output.now steps) }
{
    put_text(text, " output=")?;
    put_bytes(text, output)?;
    put_text(text, " steps=")?;
    put_number(alloc, text, steps)?;
    put_text(text, "\n")
}

fn put_complete(
    alloc: Global,
    text: &mut Vec<u8>,
    status: u8,
    output: &[u8],
    steps: u64,
) -> Result<(), AllocError>
    ensures { OnOk result (text.new.items ≡ text.old.items ++ spec.complete_line status output.now steps) }
{
    put_text(text, "complete status=")?;
    put_number(alloc, text, u64::from(status))?;
    put_output_and_steps(alloc, text, output, steps)
}

fn put_fault(
    alloc: Global,
    text: &mut Vec<u8>,
    program: &Program,
    kind: FaultKind,
    func: FuncId,
    node: NodeId,
) -> Result<(), AllocError>
    ensures { OnOk result (text.new.items ≡ text.old.items ++ spec.fault_and_place program.now kind func node) }
{
    put_text(text, "fault ")?;
    put_text(text, fault_text(kind))?;
    put_text(text, " at=")?;
    put_place(alloc, text, program, func, node)
}

fn put_ended(
    alloc: Global,
    text: &mut Vec<u8>,
    program: &Program,
    outcome: &Outcome,
    steps: u64,
) -> Result<(), AllocError>
    ensures { OnOk result (text.new.items ≡ text.old.items ++ spec.ended_line program.now outcome.now steps) }
{
    match outcome {
        Outcome::Exit { status, output } => {
            put_complete(alloc, text, *status, output.as_slice(), steps)
        }
        Outcome::Fault {
            kind,
            func,
            node,
            output,
        } => {
            put_fault(alloc, text, program, *kind, *func, *node)?;
            put_output_and_steps(alloc, text, output.as_slice(), steps)
        }
    }
}

fn put_spent(alloc: Global, text: &mut Vec<u8>, output: &[u8], steps: u64) -> Result<(), AllocError>
    ensures { OnOk result (text.new.items ≡ text.old.items ++ spec.spent_line output.now steps) }
{
    put_text(text, "spent")?;
    put_output_and_steps(alloc, text, output, steps)
}

fn put_end(
    alloc: Global,
    text: &mut Vec<u8>,
    program: &Program,
    steps: u64,
    end: &RunEnd,
) -> Result<(), AllocError>
    ensures { OnOk result (text.new.items ≡ text.old.items ++ spec.run_line program.now steps end.now) }
{
    match end {
        RunEnd::Ended {
            outcome,
            steps: attempted,
        } => put_ended(alloc, text, program, outcome, *attempted),
        RunEnd::Spent { output } => put_spent(alloc, text, output.as_slice(), steps),
    }
}

fn run_line(
    alloc: Global,
    program: &Program,
    steps: u64,
    end: &RunEnd,
) -> Result<Vec<u8>, AllocError>
    ensures { IfOk result (λ text. text.items ≡ spec.run_line program.now steps end.now) }
{
    let mut text = Vec::new(alloc);
    put_end(alloc, &mut text, program, steps, end)?;
    Ok(text)
}

/// The line of a program's run on an input, of which no more than so many nodes are attempted: that it ended with a status, or at a fault, or
/// not yet; what it had written out; and how many nodes were attempted. It fails for want of memory alone.
pub fn run_text(
    alloc: Global,
    program: &Program,
    input: &[u8],
    steps: u64,
) -> Result<Vec<u8>, AllocError>
    requires { IsChecked program.now.funcs }
    ensures { IfOk result (λ text. spec.IsRunText program.now input.now steps text.items) }
{
    let end = run(alloc, program, input, steps)?;
    run_line(alloc, program, steps, &end)
}
