//! The programs of `examples/` with their reports: each call of `chopper` on one of them as a line, and behind it what that call writes.
//! What it prints stands in `stdout`.
#![tactic(auto)]

use chop_outside::{FreeGate, HostFiles, HostSink};
use chop_top::{Status, chop_main};
use std::alloc::{AllocError, Global};
use std::io;

/// The words of each call; a file is one of `data/`.
const CALLS: [&str; 11] = [
    "explore --input 2 bubble_sort.ll",
    "explore --input 1 tokenizer.ll",
    "explore --input 1 checksum.ll",
    "explore --input 2 --leaves 10 checksum.ll",
    "explore --input 3 list.ll",
    "explore --input 3 state_machine.ll",
    "explore --input 1 --conditions state_machine.ll",
    "explore --input 1 --trace table.ll",
    "explore --input 3 parser.ll",
    "explore --input 6 planted_fault.ll",
    "run --hex 222100000000 --steps 100000 planted_fault.ll",
];

// The words of a call.
fn words_of(alloc: Global, call: &str) -> Result<Vec<String>, AllocError> {
    let mut words = Vec::new(alloc);
    for word in call.split_whitespace() {
        words.push(String::from_str(alloc, word)?)?;
    }
    Ok(words)
}

fn name_of(status: Status) -> &'static str {
    match status {
        Status::Done => "done",
        Status::Usage => "usage",
        Status::Refused => "refused",
        Status::Memory => "memory",
        Status::ReadFault => "read fault",
        Status::WriteFault => "write fault",
    }
}

fn main(rt: HostRuntime) -> io::Result<()> {
    for call in CALLS {
        println!(rt; "chopper {call}")?;
        let Ok(words) = words_of(rt.alloc(), call) else {
            println!(rt; "no memory")?;
            return Ok(());
        };
        let mut files = HostFiles::new(&rt);
        let mut sink = HostSink::new(io::writer(&rt));
        let status = chop_main(&rt, rt.alloc(), &words, &mut files, &mut sink, &FreeGate);
        if status != Status::Done {
            let name = name_of(status);
            println!(rt; "{name}")?;
        }
    }
    Ok(())
}
