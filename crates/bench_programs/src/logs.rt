//! Work on a log: `log read|append|copy LENGTH TIMES` writes so many bytes to an object, and then reads another of its bytes, writes one
//! more, or copies the log, so many times.
ghost use Rattle.std.specs.Prelude.{◌≡◌, IfOk};
ghost use Rattle.terms.specs.Tree.{width_of};

use crate::words::{number, refused};
use bitnum::Num;
use flat_ir::ObjectName;
use places::{Home, Opened};
use plain_list::Sequence;
use std::alloc::{AllocError, Global};
use std::io;
use std::marker::Brand;
use sym_bytes::{Entry, SymByte};
use term_store::Conditions;
use terms::{Shape, Term, Terms, constant};
use write_log::{Memory, Plain, SymMemory};

fn wide<H: Home>(terms: &Terms<H>, n: u64) -> Result<Term<H>, AllocError>
    ensures { IfOk result (λ t. width_of t ≡ 64) }
{
    let t = constant(terms, Num::new(64, n))?;
    Ok(t)
}

fn seven<H: Home>(terms: &Terms<H>) -> Result<SymByte<H>, AllocError> {
    let t = constant(terms, Num::new(8, 7))?;
    Ok(SymByte::int(t))
}

/// A byte is written at this place.
fn write_at<H: Home>(
    terms: &Terms<H>,
    offset: Term<H>,
    byte: SymByte<H>,
) -> Result<Entry<H>, AllocError>
    requires { width_of offset ≡ 64 }
{
    let bytes = Sequence::of_one(terms.alloc(), byte)?;
    Ok(Entry::write(ObjectName::Global(0), offset, bytes))
}

/// A byte is written at this offset.
fn write<H: Home>(terms: &Terms<H>, offset: u64) -> Result<Entry<H>, AllocError> {
    let place = wide(terms, offset)?;
    write_at(terms, place, seven(terms)?)
}

/// One more byte is written.
fn write_once<H: Home>(
    terms: &Terms<H>,
    memory: &mut Memory<H, Plain>,
    offset: u64,
) -> Result<(), AllocError> {
    Plain::append(memory, write(terms, offset)?)
}

/// A byte is written at each offset from 1 on.
fn write_often<H: Home>(
    terms: &Terms<H>,
    memory: &mut Memory<H, Plain>,
    times: u32,
) -> Result<(), AllocError> {
    for k in 0..times {
        write_once(terms, memory, u64::from(k) + 1)?;
    }
    Ok(())
}

/// The byte at offset 0, which none of the writes covers.
fn first_byte<H: Home>(
    terms: &Terms<H>,
    memory: &Memory<H, Plain>,
    known: &Conditions<H>,
) -> Result<(), AllocError> {
    let at = wide(terms, 0)?;
    let name = ObjectName::Global(0);
    let _read = Plain::read(memory, terms, &name, &at, known)?;
    Ok(())
}

/// The byte at offset 0, where nothing is known of the input.
fn read_once<H: Home>(terms: &Terms<H>, memory: &Memory<H, Plain>) -> Result<(), AllocError> {
    let known = Conditions::new(terms.alloc());
    first_byte(terms, memory, &known)
}

fn read_often<H: Home>(
    terms: &Terms<H>,
    memory: &Memory<H, Plain>,
    times: u32,
) -> Result<(), AllocError> {
    for _ in 0..times {
        read_once(terms, memory)?;
    }
    Ok(())
}

fn copy_once<H: Home>(memory: &Memory<H, Plain>) -> Result<(), AllocError> {
    let _copy = Plain::copy_log(memory)?;
    Ok(())
}

fn copy_often<H: Home>(memory: &Memory<H, Plain>, times: u32) -> Result<(), AllocError> {
    for _ in 0..times {
        copy_once(memory)?;
    }
    Ok(())
}

/// What is to be done.
#[derive(Clone, Copy)]
enum Work {
    Reads,
    Writes,
    Copies,
}

fn named(what: &str) -> Option<Work> {
    match what {
        "read" => Some(Work::Reads),
        "append" => Some(Work::Writes),
        "copy" => Some(Work::Copies),
        _ => None,
    }
}

fn done<H: Home>(
    alloc: Global,
    opened: Opened<Shape>,
    what: Work,
    length: u32,
    times: u32,
) -> Result<(), AllocError>
    requires { opened.seen.book ≡ H.book }
{
    let terms = Terms::<H>::new(alloc, opened.named::<H>());
    let mut memory: Memory<H, Plain> = Plain::start(alloc, &[])?;
    write_often(&terms, &mut memory, length)?;
    match what {
        Work::Reads => read_often(&terms, &memory, times),
        Work::Writes => write_often(&terms, &mut memory, times),
        Work::Copies => copy_often(&memory, times),
    }
}

/// The work over a new table.
fn done_anew(alloc: Global, what: Work, length: u32, times: u32) -> Result<(), AllocError> {
    done::<Brand>(alloc, Opened::new(), what, length, times)
}

pub(crate) fn timed(rt: &HostRuntime, words: &[String]) -> io::Result<()> {
    let Some(what) = words.get(0).and_then(|word| named(word.as_str())) else {
        return refused(rt);
    };
    let (Some(length), Some(times)) = (number(words, 1), number(words, 2)) else {
        return refused(rt);
    };
    if done_anew(rt.alloc(), what, length, times).is_err() {
        println!(rt; "no memory")?;
    }
    Ok(())
}
