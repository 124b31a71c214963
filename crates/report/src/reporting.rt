//! From a program to the text of its report.
ghost use Rattle.std.specs.Prelude.{◌≡◌, ◌≤◌, IfOk};
ghost use Rattle.checks.specs.Errors.{IsChecked};
ghost use Rattle.report.specs.Reports.{IsReport, Tells};

use flat_ir::Program;
use leaf_lines::report;
use leaves::Options;
use places::{Home, Opened};
use std::alloc::{AllocError, Global};
use std::marker::Brand;
use sym_machine::{explore, program_fits};
use terms::{Shape, Terms};
use typed_runs::numbers_fit;

// The report of a program, whose terms have their places in a table of their own.
fn report_in<H: Home>(
    opened: Opened<Shape>,
    alloc: Global,
    program: &Program,
    options: Options,
) -> Result<Vec<u8>, AllocError>
    requires book { opened.seen.book ≡ H.book }
    requires inputs { options.input ≤ 64 }
    requires budget { 1 ≤ options.leaves }
    requires checked { IsChecked program.now.funcs }
    ensures { IfOk result (λ written. Tells program.now options written.items) }
{
    let terms = Terms::<H>::new(alloc, opened.named::<H>());
    let leaves = explore::<H, write_log::Plain, decider::Plain>(
        program,
        &terms,
        &decider::Plain,
        options,
    )?;
    report(alloc, program, &options, &[], leaves.as_slice())
}

// The report of a program, over a new table.
fn report_of(alloc: Global, program: &Program, options: Options) -> Result<Vec<u8>, AllocError>
    requires inputs { options.input ≤ 64 }
    requires budget { 1 ≤ options.leaves }
    requires checked { IsChecked program.now.funcs }
    ensures { IfOk result (λ written. Tells program.now options written.items) }
{
    report_in::<Brand>(Opened::new(), alloc, program, options)
}

/// The report of a program over all inputs of so many bytes: the options, the leaves in the order of the tree, with their events and
/// conditions where these are asked for, and how many there are of each kind. No call is skipped.
///
/// # Errors
///
/// No memory, or a count past its bound.
pub fn report_text(
    alloc: Global,
    program: &Program,
    options: Options,
) -> Result<Vec<u8>, AllocError>
    requires inputs { options.input ≤ 64 }
    requires budget { 1 ≤ options.leaves }
    requires checked { IsChecked program.now.funcs }
    // It tells leaves of the program's exploration; where no switch of the program names a number twice, they split the inputs, each
    // is sound, and each kept input is the least.
    ensures report { IfOk result (λ written. IsReport program.now options written.items) }
{
    program.parts();
    numbers_fit(program);
    program_fits(program);
    report_of(alloc, program, options)
}
