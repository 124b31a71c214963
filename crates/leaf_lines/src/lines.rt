//! The lines of a report.
ghost use Rattle.std.specs.Prelude.{◌≡◌, ◌-◌, ◌++◌, All, length, count_by, IfOk, IfSome, OnOk, Option, string_bytes};
ghost use Rattle.std.specs.List.{flat_map};
ghost use Rattle.std.specs.Fmt.{decimal};
ghost use Rattle.terms.specs.Value.{ReadsBelow};
ghost use Rattle.leaves.specs.Events as event;
ghost use Rattle.leaves.specs.Events.{told_of};
ghost use Rattle.leaves.specs.Fitting.{AreTermsOf, EventFits, ToldFits, ValueFits};
ghost use Rattle.leaf_lines.specs.Report as spec;

use crate::shown::{put_input, put_output, put_value, put_value_of, with_results};
use crate::term_texts::put_term;
use flat_ir::{FaultKind, FuncId, NodeId, Program};
use ir_tree::printing::push_name;
use leaves::{Cause, Event, EventKind, Leaf, LeafKind, Options, Told};
use name_texts::put_place;
use places::Home;
use plain_list::Sequence;
use std::alloc::{AllocError, Global};
use sym_bytes::SymValue;
use terms::Term;
use value_texts::{fault_text, put_number, put_text};

fn options_line(alloc: Global, options: &Options) -> Result<String, AllocError>
    ensures { IfOk result (λ line. string_bytes line ≡ spec.options_line options.now) }
{
    let input = options.input;
    let steps = options.steps;
    let leaves = options.leaves;
    let shares = options.shares;
    format!(in alloc; "options input={input} steps={steps} leaves={leaves} shares={shares}\n")
}

// A function whose calls are skipped.
fn put_skip(text: &mut Vec<u8>, name: &[u8]) -> Result<(), AllocError>
    ensures { OnOk result (text.new.items ≡ text.old.items ++ spec.skip_line name.now) }
{
    put_text(text, "skip ")?;
    push_name(text, name)?;
    put_text(text, "\n")
}

fn put_skips(text: &mut Vec<u8>, skips: &[Sequence<u8>]) -> Result<(), AllocError>
    ensures { OnOk result (text.new.items ≡ text.old.items ++ flat_map spec.skip_line skips.now) }
{
    for name in skips {
        put_skip(text, name.as_slice())?;
    }
    Ok(())
}

fn cause_text(cause: Cause) -> &'static str
    ensures { result.now ≡ spec.cause_text cause }
{
    match cause {
        Cause::Steps => "steps",
        Cause::Solver => "solver",
        Cause::Shares => "shares",
    }
}

// A word, and behind it a fault and the node that has it.
fn put_fault(
    alloc: Global,
    text: &mut Vec<u8>,
    program: &Program,
    word: &str,
    kind: FaultKind,
    func: FuncId,
    node: NodeId,
) -> Result<(), AllocError>
    ensures { OnOk result (text.new.items ≡ text.old.items ++ (word.now ++ spec.fault_and_place program.now kind func node)) }
{
    put_text(text, word)?;
    put_text(text, fault_text(kind))?;
    put_text(text, " at=")?;
    put_place(alloc, text, program, func, node)
}

fn put_spaced_input(text: &mut Vec<u8>, kept: &Option<Sequence<u8>>) -> Result<(), AllocError>
    ensures { OnOk result (text.new.items ≡ text.old.items ++ spec.spaced_input kept.now) }
{
    put_text(text, " input=")?;
    put_input(text, kept)
}

fn put_spaced_output<H: Home>(
    alloc: Global,
    text: &mut Vec<u8>,
    kept: &Option<Sequence<u8>>,
    written: &[Term<H>],
) -> Result<(), AllocError>
    requires { IfSome kept.now (λ input. AreTermsOf (length input) 8 written.now) }
    ensures { OnOk result (text.new.items ≡ text.old.items ++ spec.spaced_output kept.now written.now) }
{
    put_text(text, " output=")?;
    put_output(alloc, text, kept, written)
}

fn put_complete<H: Home>(
    alloc: Global,
    text: &mut Vec<u8>,
    kept: &Option<Sequence<u8>>,
    status: &Term<H>,
    written: &[Term<H>],
) -> Result<(), AllocError>
    requires status { IfSome kept.now (λ input. ReadsBelow (length input) status.now) }
    requires written { IfSome kept.now (λ input. AreTermsOf (length input) 8 written.now) }
    ensures { OnOk result (text.new.items ≡ text.old.items ++ spec.complete_text kept.now status.now written.now) }
{
    put_text(text, " complete")?;
    put_spaced_input(text, kept)?;
    put_text(text, " status=")?;
    put_value_of(alloc, text, kept, status)?;
    put_spaced_output(alloc, text, kept, written)
}

fn put_open(text: &mut Vec<u8>, kept: &Option<Sequence<u8>>, cause: Cause) -> Result<(), AllocError>
    ensures { OnOk result (text.new.items ≡ text.old.items ++ spec.open_text kept.now cause) }
{
    put_text(text, " open ")?;
    put_text(text, cause_text(cause))?;
    put_spaced_input(text, kept)
}

fn put_done(text: &mut Vec<u8>, kept: &Option<Sequence<u8>>) -> Result<(), AllocError>
    ensures { OnOk result (text.new.items ≡ text.old.items ++ spec.done_text kept.now) }
{
    put_text(text, " done")?;
    put_spaced_input(text, kept)
}

// How a leaf ends.
fn put_end<H: Home>(
    alloc: Global,
    text: &mut Vec<u8>,
    program: &Program,
    leaf: &Leaf<H>,
) -> Result<(), AllocError>
    ensures { OnOk result (text.new.items ≡ text.old.items ++ spec.end_text program.now leaf.now) }
{
    match leaf.kind() {
        LeafKind::Complete {
            told,
            status,
            output,
        } => put_complete(alloc, text, told.kept(), status, output.as_slice()),
        LeafKind::Fault {
            told,
            kind,
            func,
            node,
            output,
        } => {
            put_fault(alloc, text, program, " fault ", *kind, *func, *node)?;
            put_spaced_input(text, told.kept())?;
            put_spaced_output(alloc, text, told.kept(), output.as_slice())
        }
        LeafKind::Skipped {
            told,
            kind,
            func,
            node,
        } => {
            put_fault(alloc, text, program, " skipped ", *kind, *func, *node)?;
            put_spaced_input(text, told.kept())
        }
        LeafKind::Open { told, cause } => put_open(text, told.kept(), *cause),
        LeafKind::Done { told, .. } => put_done(text, told.kept()),
    }
}

// The steps that were taken, with which the line ends.
fn put_steps(alloc: Global, text: &mut Vec<u8>, steps: u64) -> Result<(), AllocError>
    ensures { OnOk result (text.new.items ≡ text.old.items ++ spec.steps_text steps) }
{
    put_text(text, " steps=")?;
    put_number(alloc, text, steps)?;
    put_text(text, "\n")
}

// The side that a branch or a switch took.
fn put_branch(
    alloc: Global,
    text: &mut Vec<u8>,
    program: &Program,
    func: FuncId,
    node: NodeId,
    side: usize,
) -> Result<(), AllocError>
    ensures { OnOk result (text.new.items ≡ text.old.items ++ spec.branch_line program.now func node side) }
{
    put_text(text, "  branch ")?;
    put_place(alloc, text, program, func, node)?;
    put_text(text, " ")?;
    put_number(alloc, text, side as u64)?;
    put_text(text, "\n")
}

// The value that a load gave.
fn put_load<H: Home>(
    alloc: Global,
    text: &mut Vec<u8>,
    program: &Program,
    kept: &Option<Sequence<u8>>,
    func: FuncId,
    node: NodeId,
    value: &SymValue<H>,
) -> Result<(), AllocError>
    requires { IfSome kept.now (λ input. ValueFits (length input) value.now) }
    ensures { OnOk result (text.new.items ≡ text.old.items ++ spec.load_line program.now kept.now func node value.now) }
{
    put_text(text, "  load ")?;
    put_place(alloc, text, program, func, node)?;
    put_text(text, " ")?;
    put_value(alloc, text, program, kept, value)?;
    put_text(text, "\n")
}

fn put_event<H: Home>(
    alloc: Global,
    text: &mut Vec<u8>,
    program: &Program,
    told: &Told<H>,
    event: &Event<H>,
) -> Result<(), AllocError>
    requires told { ToldFits told.now }
    requires event { IfSome told.now.kept (λ input. EventFits (length input) event.now) }
    ensures { OnOk result (text.new.items ≡ text.old.items ++ spec.event_line program.now told.now event.now) }
{
    match event.kind() {
        EventKind::Branch { func, node, side } => {
            put_branch(alloc, text, program, *func, *node, *side)
        }
        EventKind::Load { func, node, value } => {
            let shown = with_results(told.results(), value);
            put_load(alloc, text, program, told.kept(), *func, *node, shown)
        }
    }
}

// The branches and loads in order.
fn put_events<H: Home>(
    alloc: Global,
    text: &mut Vec<u8>,
    program: &Program,
    told: &Told<H>,
    events: &[Event<H>],
) -> Result<(), AllocError>
    requires told { ToldFits told.now }
    requires events { All (λ e. IfSome told.now.kept (λ input. EventFits (length input) e)) events.now }
    ensures { OnOk result (text.new.items ≡ text.old.items ++ flat_map (spec.event_line program.now told.now) events.now) }
{
    for event in events {
        put_event(alloc, text, program, told, event)?;
    }
    Ok(())
}

// The branches and loads, where they are asked for.
fn put_trace<H: Home>(
    alloc: Global,
    text: &mut Vec<u8>,
    program: &Program,
    asked: bool,
    told: &Told<H>,
) -> Result<(), AllocError>
    requires { ToldFits told.now }
    ensures { OnOk result (text.new.items ≡ text.old.items ++ spec.trace_lines asked program.now told.now) }
{
    if !asked {
        return Ok(());
    }
    put_events(alloc, text, program, told, told.path())
}

fn put_conjunct<H: Home>(
    alloc: Global,
    text: &mut Vec<u8>,
    conjunct: &Term<H>,
) -> Result<(), AllocError>
    ensures { OnOk result (text.new.items ≡ text.old.items ++ spec.conjunct_line conjunct.now) }
{
    put_text(text, "  when ")?;
    put_term(alloc, text, conjunct)?;
    put_text(text, "\n")
}

fn put_conjuncts<H: Home>(
    alloc: Global,
    text: &mut Vec<u8>,
    conjuncts: &[Term<H>],
) -> Result<(), AllocError>
    ensures { OnOk result (text.new.items ≡ text.old.items ++ flat_map spec.conjunct_line conjuncts.now) }
{
    for conjunct in conjuncts {
        put_conjunct(alloc, text, conjunct)?;
    }
    Ok(())
}

// The condition, where it is asked for.
fn put_condition<H: Home>(
    alloc: Global,
    text: &mut Vec<u8>,
    asked: bool,
    conjuncts: &[Term<H>],
) -> Result<(), AllocError>
    ensures { OnOk result (text.new.items ≡ text.old.items ++ spec.condition_lines asked conjuncts.now) }
{
    if !asked {
        return Ok(());
    }
    put_conjuncts(alloc, text, conjuncts)
}

// A leaf with its events and its condition.
fn put_leaf<H: Home>(
    alloc: Global,
    text: &mut Vec<u8>,
    program: &Program,
    options: &Options,
    number: usize,
    leaf: &Leaf<H>,
) -> Result<(), AllocError>
    ensures { OnOk result (text.new.items ≡ text.old.items ++ spec.leaf_lines program.now options.now number leaf.now) }
{
    let told = leaf.told();
    let taken = options.steps.saturating_sub(told.left());
    put_number(alloc, text, number as u64)?;
    put_end(alloc, text, program, leaf)?;
    put_steps(alloc, text, taken)?;
    let condition = told.condition();
    put_trace(alloc, text, program, options.trace, told)?;
    put_condition(alloc, text, options.conditions, condition)
}

fn put_leaves<H: Home>(
    alloc: Global,
    text: &mut Vec<u8>,
    program: &Program,
    options: &Options,
    leaves: &[Leaf<H>],
) -> Result<(), AllocError>
    ensures { OnOk result (text.new.items ≡ text.old.items ++ spec.leaves_from program.now options.now 1 leaves.now) }
{
    for (place, leaf) in leaves.iter().enumerate() {
        put_leaf(alloc, text, program, options, place + 1, leaf)?;
    }
    Ok(())
}

fn is_complete<H: Home>(leaf: &Leaf<H>) -> bool
    ensures { result ≡ spec.is_complete leaf.now }
{
    match leaf.kind() {
        LeafKind::Complete { .. } => true,
        LeafKind::Fault { .. }
        | LeafKind::Skipped { .. }
        | LeafKind::Open { .. }
        | LeafKind::Done { .. } => false,
    }
}

fn is_fault<H: Home>(leaf: &Leaf<H>) -> bool
    ensures { result ≡ spec.is_fault leaf.now }
{
    match leaf.kind() {
        LeafKind::Fault { .. } => true,
        LeafKind::Complete { .. }
        | LeafKind::Skipped { .. }
        | LeafKind::Open { .. }
        | LeafKind::Done { .. } => false,
    }
}

fn is_skipped<H: Home>(leaf: &Leaf<H>) -> bool
    ensures { result ≡ spec.is_skipped leaf.now }
{
    match leaf.kind() {
        LeafKind::Skipped { .. } => true,
        LeafKind::Complete { .. }
        | LeafKind::Fault { .. }
        | LeafKind::Open { .. }
        | LeafKind::Done { .. } => false,
    }
}

fn is_open<H: Home>(leaf: &Leaf<H>) -> bool
    ensures { result ≡ spec.is_open leaf.now }
{
    match leaf.kind() {
        LeafKind::Open { .. } => true,
        LeafKind::Complete { .. }
        | LeafKind::Fault { .. }
        | LeafKind::Skipped { .. }
        | LeafKind::Done { .. } => false,
    }
}

fn count_complete<H: Home>(leaves: &[Leaf<H>]) -> usize
    ensures { result ≡ count_by spec.is_complete leaves.now }
{
    leaves.iter().filter(|leaf| is_complete(leaf)).count()
}

fn count_faults<H: Home>(leaves: &[Leaf<H>]) -> usize
    ensures { result ≡ count_by spec.is_fault leaves.now }
{
    leaves.iter().filter(|leaf| is_fault(leaf)).count()
}

fn count_skipped<H: Home>(leaves: &[Leaf<H>]) -> usize
    ensures { result ≡ count_by spec.is_skipped leaves.now }
{
    leaves.iter().filter(|leaf| is_skipped(leaf)).count()
}

fn count_open<H: Home>(leaves: &[Leaf<H>]) -> usize
    ensures { result ≡ count_by spec.is_open leaves.now }
{
    leaves.iter().filter(|leaf| is_open(leaf)).count()
}

// A word, and a count behind it.
fn put_count(alloc: Global, text: &mut Vec<u8>, word: &str, count: usize) -> Result<(), AllocError>
    ensures { OnOk result (text.new.items ≡ text.old.items ++ (word.now ++ decimal count)) }
{
    put_text(text, word)?;
    put_number(alloc, text, count as u64)
}

// How many leaves there are, and how many of each kind.
fn put_total<H: Home>(
    alloc: Global,
    text: &mut Vec<u8>,
    leaves: &[Leaf<H>],
) -> Result<(), AllocError>
    ensures { OnOk result (text.new.items ≡ text.old.items ++ spec.total_line leaves.now) }
{
    put_count(alloc, text, "total ", leaves.len())?;
    put_count(alloc, text, " complete ", count_complete(leaves))?;
    put_count(alloc, text, " fault ", count_faults(leaves))?;
    put_count(alloc, text, " skipped ", count_skipped(leaves))?;
    put_count(alloc, text, " open ", count_open(leaves))?;
    put_text(text, "\n")
}

/// The report of a whole exploration of a program: the options; the names of the functions whose calls were skipped; the
/// leaves in order, numbered from 1, with their events and their conditions where the options ask for them; and how many
/// leaves there are of each kind.
///
/// # Errors
///
/// No memory.
pub fn report<H: Home>(
    alloc: Global,
    program: &Program,
    options: &Options,
    skips: &[Sequence<u8>],
    leaves: &[Leaf<H>],
) -> Result<Vec<u8>, AllocError>
    ensures { IfOk result (λ text. text.items ≡ spec.report_of program.now options.now skips.now leaves.now) }
{
    let mut text = Vec::new(alloc);
    let options_line = options_line(alloc, options)?;
    put_text(&mut text, options_line.as_str())?;
    put_skips(&mut text, skips)?;
    put_leaves(alloc, &mut text, program, options, leaves)?;
    put_total(alloc, &mut text, leaves)?;
    Ok(text)
}
