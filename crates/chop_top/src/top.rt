//! The top call.
ghost use Rattle.std.specs.Prelude.{◌≡◌, ℕ, ◌<◌, ◌≤◌, ◌-◌, ◌^◌, None, Some, List, map, length, string_bytes, IfOk};
ghost use Rattle.checks.specs.Errors.{IsChecked};
ghost use Rattle.chop_words.specs.Words.{AreInRange, IsInRange, Explored, Ran, Printed, Sited, Sliced, wanted, wanted_by};
ghost use Rattle.chop_top.specs.Accepted.{Reads};
ghost use Rattle.chop_top.specs.Outcomes.{Reading, Outcome, IsComplete, Answered, Judged, Text, limit, exploration, IsLine, text_or_memory};

use crate::accepting::{Stop, accepted};
use chop_outside::{Fault, Files, Gate, ReadError, Sink, read_whole, write_whole};
use chop_words::{Command, Options, UsageError, read_words, usage_line};
use flat_ir::Program;
use ir_tree::printing::print;
use refusal_lines::refused_line;
use report::report_text;
use run_lines::run_text;
use site_lines::sites_text;
use slice_lines::{function_named, location_named, slice_text, unknown_line};
use std::alloc::{AllocError, Global};
use std::sync::Wait;
use std::thread::Threads;

/// How a call ends.
#[derive(Clone, Copy, Debug, PartialEq, Eq)]
pub enum Status {
    Done,
    Usage,
    Refused,
    Memory,
    ReadFault,
    WriteFault,
}

const LIMIT: usize = 16_777_216;

// What is to be written, and under which status; or why nothing is.
#[derive(Drop)]
enum Answer {
    Text { status: Status, text: Vec<u8> },
    ReadFault,
    Memory,
}

// The limits of an exploration, and what it tells.
fn exploration_of(options: Options) -> leaves::Options
    ensures { result ≡ exploration options }
{
    leaves::Options {
        input: options.input,
        steps: options.steps,
        leaves: options.leaves,
        shares: options.shares,
        workers: 1,
        trace: options.trace,
        conditions: options.conditions,
    }
}

// A text to write, or nothing where memory ran out.
fn text_or_memory(status: Status, written: Result<Vec<u8>, AllocError>) -> Answer
    ensures { result ≡ text_or_memory status written }
{
    match written {
        Ok(text) => Answer::Text { status, text },
        Err(_) => Answer::Memory,
    }
}

// A line to write, or nothing where memory ran out.
fn line_or_memory(status: Status, written: Result<String, AllocError>) -> Answer
    ensures { IsLine status written result }
{
    match written {
        Ok(line) => Answer::Text {
            status,
            text: line.into_bytes(),
        },
        Err(_) => Answer::Memory,
    }
}

// The report of a program.
fn explored_program(alloc: Global, program: &Program, options: Options) -> Answer
    requires range { AreInRange options }
    requires checked { IsChecked program.now.funcs }
    ensures { (bytes file : List ℕ) → Reads bytes program.now → Judged result (Explored options file) bytes }
{
    let exploration = exploration_of(options);
    text_or_memory(Status::Done, report_text(alloc, program, exploration))
}

// The report of the program of a file's bytes, or the line that says why there is none.
fn explored(alloc: Global, bytes: &[u8], options: Options) -> Answer
    requires short { length bytes.now ≤ limit }
    requires range { AreInRange options }
    ensures { (file : List ℕ) → Judged result (Explored options file) bytes.now }
{
    match accepted(alloc, bytes) {
        Ok((_, program)) => explored_program(alloc, &program, options),
        Err(Stop::Line(text)) => Answer::Text {
            status: Status::Refused,
            text,
        },
        Err(Stop::Memory) => Answer::Memory,
    }
}

// The line of the run of a file's program on an input, or the line that says why there is none.
fn ran(alloc: Global, bytes: &[u8], input: &[u8], steps: u64) -> Answer
    requires { length bytes.now ≤ limit }
    ensures { (file : List ℕ) → Judged result (Ran input.now steps file) bytes.now }
{
    match accepted(alloc, bytes) {
        Ok((_, program)) => {
            text_or_memory(Status::Done, run_text(alloc, &program, input, steps))
        }
        Err(Stop::Line(text)) => Answer::Text {
            status: Status::Refused,
            text,
        },
        Err(Stop::Memory) => Answer::Memory,
    }
}

// The text of the module of a file's bytes, or the line that says why there is none.
fn printed(alloc: Global, bytes: &[u8]) -> Answer
    requires { length bytes.now ≤ limit }
    ensures { (file : List ℕ) → Judged result (Printed file) bytes.now }
{
    match accepted(alloc, bytes) {
        Ok((tree, _)) => text_or_memory(Status::Done, print(alloc, &tree)),
        Err(Stop::Line(text)) => Answer::Text {
            status: Status::Refused,
            text,
        },
        Err(Stop::Memory) => Answer::Memory,
    }
}

// The lines of the sites and functions of a file's program, or the line that says why there are none.
fn sited(alloc: Global, bytes: &[u8]) -> Answer
    requires { length bytes.now ≤ limit }
    ensures { (file : List ℕ) → Judged result (Sited file) bytes.now }
{
    match accepted(alloc, bytes) {
        Ok((_, program)) => text_or_memory(Status::Done, sites_text(alloc, &program)),
        Err(Stop::Line(text)) => Answer::Text {
            status: Status::Refused,
            text,
        },
        Err(Stop::Memory) => Answer::Memory,
    }
}

// The lines of the slice of a program's function for a location, or that a word names nothing.
fn sliced_program(alloc: Global, program: &Program, function: &str, location: &str) -> Answer
    ensures { (bytes file : List ℕ) → Reads bytes program.now → Judged result (Sliced file function.now location.now) bytes }
{
    let Some(func) = function_named(program, function) else {
        return text_or_memory(Status::Refused, unknown_line(alloc, function));
    };
    match location_named(alloc, program, func, location) {
        Ok(Some(at)) => text_or_memory(Status::Done, slice_text(alloc, program, func, at)),
        Ok(None) => text_or_memory(Status::Refused, unknown_line(alloc, location)),
        Err(AllocError) => Answer::Memory,
    }
}

// The lines of the slice of a file's program, or the line that says why there are none.
fn sliced(alloc: Global, bytes: &[u8], function: &str, location: &str) -> Answer
    requires { length bytes.now ≤ limit }
    ensures { (file : List ℕ) → Judged result (Sliced file function.now location.now) bytes.now }
{
    match accepted(alloc, bytes) {
        Ok((_, program)) => sliced_program(alloc, &program, function, location),
        Err(Stop::Line(text)) => Answer::Text {
            status: Status::Refused,
            text,
        },
        Err(Stop::Memory) => Answer::Memory,
    }
}

// What the bytes of a file come to.
fn judged(alloc: Global, command: &Command, bytes: &[u8]) -> Answer
    requires short { length bytes.now ≤ limit }
    requires range { IsInRange (wanted_by command.now) }
    ensures { Judged result (wanted_by command.now) bytes.now }
{
    match command {
        Command::Explore { options, .. } => explored(alloc, bytes, *options),
        Command::Run { input, steps, .. } => ran(alloc, bytes, input.as_slice(), *steps),
        Command::Print { .. } => printed(alloc, bytes),
        Command::Sites { .. } => sited(alloc, bytes),
        Command::Slice {
            function,
            location,
            ..
        } => sliced(alloc, bytes, function.as_str(), location.as_str()),
    }
}

// What is to be written for a command, or why nothing is.
fn answer_for<F: Files>(alloc: Global, command: &Command, files: &mut F) -> Answer
    requires range { IsInRange (wanted_by command.now) }
    requires fresh { (F.state files.old).asked ≡ None }
    requires room { (F.state files.old).faults < 2 ^ 64 - 1 }
    ensures { (words : List (List ℕ)) → wanted words ≡ Some (wanted_by command.now) → Answered result (record { words = words; before = F.state files.old; after = F.state files.new }) }
{
    let Ok(file) = command.file().clone() else {
        return Answer::Memory;
    };
    match read_whole(alloc, files, file, LIMIT) {
        Ok(bytes) => judged(alloc, command, bytes.as_slice()),
        Err(ReadError::TooLarge) => {
            text_or_memory(Status::Refused, refused_line(alloc, "TooLarge"))
        }
        Err(ReadError::Fault) => Answer::ReadFault,
        Err(ReadError::Memory) => Answer::Memory,
    }
}

// What is to be written, or why nothing is.
fn answer_to<F: Files>(alloc: Global, words: &[String], files: &mut F) -> Answer
    requires fresh { (F.state files.old).asked ≡ None }
    requires room { (F.state files.old).faults < 2 ^ 64 - 1 }
    ensures { Answered result (record { words = map string_bytes words.now; before = F.state files.old; after = F.state files.new }) }
{
    let command = match read_words(words) {
        Ok(command) => command,
        Err(UsageError::Usage { index }) => {
            return line_or_memory(Status::Usage, usage_line(alloc, words, index));
        }
        Err(UsageError::Memory) => return Answer::Memory,
    };
    answer_for(alloc, &command, files)
}

// Writes a text, whose status it then is.
fn write_text<S: Sink>(sink: &mut S, status: Status, text: &[u8]) -> Status
    requires { (S.state sink.old).faults < 2 ^ 64 - 1 }
    ensures { (r : Reading) → Text status r text.now → Outcome result r (S.state sink.old) (S.state sink.new) }
{
    match write_whole(sink, text) {
        Ok(()) => status,
        Err(Fault) => Status::WriteFault,
    }
}

/// Reads the words and the file that they name, does with its program or module what they ask for, and writes the report, the text or
/// the one line that says why there is none.
pub fn chop_main<R: Threads + Wait + Sync, F: Files, S: Sink, G: Gate>(
    _rt: &R,
    alloc: Global,
    words: &[String],
    files: &mut F,
    sink: &mut S,
    _gate: &G,
) -> Status
    requires fresh { (F.state files.old).asked ≡ None }
    requires files_room { (F.state files.old).faults < 2 ^ 64 - 1 }
    requires sink_room { (S.state sink.old).faults < 2 ^ 64 - 1 }
    ensures outcome { Outcome result (record { words = map string_bytes words.now; before = F.state files.old; after = F.state files.new }) (S.state sink.old) (S.state sink.new) }
    ensures complete { IsComplete result (record { words = map string_bytes words.now; before = F.state files.old; after = F.state files.new }) (S.state sink.old) (S.state sink.new) }
{
    match answer_to(alloc, words, files) {
        Answer::Text { status, text } => write_text(sink, status, text.as_slice()),
        Answer::ReadFault => Status::ReadFault,
        Answer::Memory => Status::Memory,
    }
}
