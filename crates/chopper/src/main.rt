//! The program `chopper`: explores a module over all inputs of some bytes, runs it on one, prints it anew, or tells where its pointers may point
//! and what its slices retain.
#![tactic(auto)]

use chop_outside::{FreeGate, HostFiles, HostSink};
use chop_top::{Status, chop_main};
use std::process::ExitCode;
use std::{env, io};

const HELP: &str =
    "chopper explore [--input N] [--steps S] [--leaves B] [--shares A] [--trace] [--conditions] FILE
    explores the module in FILE over all inputs of N bytes, and prints a line for each
    state and one for their number; the options stand in any order

    N  bytes of input, 0 to 64 (4)
    S  steps that a state may take, 1 to 1000000 (100000)
    B  conflicts that a decision may meet, 1 to 1000000 (10000)
    A  states that there may be, 1 to 100000 (1024)

    --trace       adds below each state its branches and loads, in order
    --conditions  adds below each state what its input bytes meet

chopper run --hex H --steps S FILE
    runs the module on one input for at most S steps, and prints how the run ended,
    what it had written out, and how many steps it took; the options stand in any order

    H  the input: two digits of 0 to 9 and a to f for each of 1 to 64 bytes, or - for none
    S  steps that the run may take, 1 to 1000000

chopper print FILE
    prints the module anew, each thing with its name or number

chopper sites FILE
    prints for each global and each node that makes objects to whose objects their
    pointers may point, and for each function what its calls may change

chopper slice FILE FUNCTION LOCATION
    prints which nodes of the function, and of those that it calls, are needed for what a
    call of it does to the location, and where each of them leads

    LOCATION  cells:SITE, life:SITE, input, output or result; a SITE is @ and a global's
              name, or a function's name, a colon and the number of a node

The exit status is 0 with a whole text, 2 where the words aren't these, 3 where FILE is
refused, 4 where memory ran out, 5 where FILE couldn't be read, and 6 where the text
couldn't be written.
";

const VERSION: &str = "chopper 0.1.0\n";

fn code_of(status: Status) -> u8 {
    match status {
        Status::Done => 0,
        Status::Usage => 2,
        Status::Refused => 3,
        Status::Memory => 4,
        Status::ReadFault => 5,
        Status::WriteFault => 6,
    }
}

// Prints a text that no command asked for.
fn told(rt: &impl Print, text: &str) -> ExitCode {
    match print!(rt; "{text}") {
        Ok(()) => ExitCode::from(0),
        Err(_) => ExitCode::from(code_of(Status::WriteFault)),
    }
}

fn main(rt: HostRuntime) -> ExitCode {
    let alloc = rt.alloc();
    let Ok(arguments) = env::args(&rt) else {
        return ExitCode::from(code_of(Status::Usage));
    };
    let Ok(words) = arguments.skip(1).collect::<Vec<String>>(alloc) else {
        return ExitCode::from(code_of(Status::Memory));
    };
    if let [word] = words.as_slice() {
        match word.as_str() {
            "--help" => return told(&rt, HELP),
            "--version" => return told(&rt, VERSION),
            _ => {}
        }
    }
    let mut files = HostFiles::new(&rt);
    let mut sink = HostSink::new(io::writer(&rt));
    let status = chop_main(&rt, alloc, &words, &mut files, &mut sink, &FreeGate);
    ExitCode::from(code_of(status))
}
