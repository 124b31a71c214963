//! Explorations: `machine INPUT TIMES FILE` explores the module in FILE over so many bytes of input, so many times, and prints what the
//! last of these explorations took.
ghost use Rattle.std.specs.Prelude.{◌≡◌, ◌≤◌, ◌<◌, ◌^◌, None, length};
ghost use Rattle.checks.specs.Errors.{IsChecked};

use crate::words::{number, refused, word_at};
use chop_outside::{HostFiles, read_whole};
use flat_ir::Program;
use leaves::{Leaf, LeafKind, Options};
use machine_tests::program_of;
use places::{Home, Opened};
use std::alloc::{AllocError, Global};
use std::io;
use std::marker::Brand;
use sym_machine::{Counts, explore_counted};
use terms::{Shape, Terms};

/// How many bytes a text may have.
const MOST: usize = 16_777_216;

/// What an exploration took, and what it came to.
#[derive(Clone, Copy)]
struct Found {
    counts: Counts,
    leaves: usize,
    open: usize,
}

fn is_open<H: Home>(leaf: &Leaf<H>) -> bool {
    match leaf.kind() {
        LeafKind::Open { .. } => true,
        LeafKind::Complete { .. }
        | LeafKind::Fault { .. }
        | LeafKind::Skipped { .. }
        | LeafKind::Done { .. } => false,
    }
}

fn explored<H: Home>(
    opened: Opened<Shape>,
    alloc: Global,
    program: &Program,
    input: u8,
) -> Result<Found, AllocError>
    requires book { opened.seen.book ≡ H.book }
    requires inputs { input ≤ 64 }
    requires checked { IsChecked program.now.funcs }
{
    let terms = Terms::<H>::new(alloc, opened.named::<H>());
    let options = Options {
        input,
        steps: 100_000,
        leaves: 10_000,
        shares: 100_000,
        workers: 1,
        trace: false,
        conditions: false,
    };
    let mut counts = Counts::new();
    let leaves = explore_counted::<H, write_log::Plain, decider::Plain>(
        program,
        &terms,
        &decider::Plain,
        options,
        &mut counts,
    )?;
    let open = leaves
        .as_slice()
        .iter()
        .filter(|leaf| is_open(leaf))
        .count();
    Ok(Found {
        counts,
        leaves: leaves.len(),
        open,
    })
}

/// One exploration over a new table.
fn explored_anew(alloc: Global, program: &Program, input: u8) -> Result<Found, AllocError>
    requires inputs { input ≤ 64 }
    requires checked { IsChecked program.now.funcs }
{
    explored::<Brand>(Opened::new(), alloc, program, input)
}

/// The last of so many explorations, and of one more than none.
fn explored_often(
    alloc: Global,
    program: &Program,
    input: u8,
    times: u32,
) -> Result<Found, AllocError>
    requires inputs { input ≤ 64 }
    requires checked { IsChecked program.now.funcs }
{
    for _ in 1..times {
        explored_anew(alloc, program, input)?;
    }
    explored_anew(alloc, program, input)
}

/// What the explorations of a text took; none where the text isn't accepted.
fn found_in(alloc: Global, bytes: &[u8], input: u8, times: u32) -> Result<Option<Found>, AllocError>
    requires short { length bytes.now < 2 ^ 32 }
    requires inputs { input ≤ 64 }
{
    match program_of(alloc, bytes)? {
        Some(program) => Ok(Some(explored_often(alloc, &program, input, times)?)),
        None => Ok(None),
    }
}

pub(crate) fn timed(rt: &HostRuntime, words: &[String]) -> io::Result<()> {
    let alloc = rt.alloc();
    let (Some(input), Some(times)) = (number(words, 0), number(words, 1)) else {
        return refused(rt);
    };
    let Some(name) = word_at(words, 2) else {
        return refused(rt);
    };
    let mut files = HostFiles::new(rt);
    let Ok(bytes) = read_whole(alloc, &mut files, name, MOST) else {
        return println!(rt; "the file can't be read");
    };
    if input > 64 || bytes.len() > MOST {
        return Ok(());
    }
    match found_in(alloc, bytes.as_slice(), input as u8, times) {
        Ok(Some(found)) => print_found(rt, found),
        Ok(None) => println!(rt; "the text is refused"),
        Err(AllocError) => println!(rt; "no memory"),
    }
}

fn print_found(rt: &HostRuntime, found: Found) -> io::Result<()> {
    let attempts = found.counts.attempts;
    let waiting = found.counts.waiting;
    let leaves = found.leaves;
    let open = found.open;
    println!(rt; "attempts={attempts} leaves={leaves} open={open} waiting={waiting}")
}
