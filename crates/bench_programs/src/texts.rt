//! Reading of a module: `reader keep|lex|read FILE`.
ghost use Rattle.std.specs.Prelude.{◌<◌, ◌^◌, ◌≡◌, None, length, string_bytes};

use crate::words::{refused, word_at};
use chop_outside::{HostFiles, read_whole};
use ir_lexer::text::lex;
use ir_reader::text::read;
use std::alloc::{AllocError, Global};
use std::io;

/// How many bytes a text may have.
const MOST: usize = 1 << 30;

/// What is to be done with the text.
#[derive(Clone, Copy)]
enum Work {
    Keep,
    Lex,
    Read,
}

fn named(what: &str) -> Option<Work> {
    match what {
        "keep" => Some(Work::Keep),
        "lex" => Some(Work::Lex),
        "read" => Some(Work::Read),
        _ => None,
    }
}

/// Whether the text is what the work needs; a text that is kept always is.
fn done(alloc: Global, what: Work, bytes: &[u8]) -> Result<bool, AllocError>
    requires { length bytes.now < 2 ^ 32 }
{
    match what {
        Work::Keep => Ok(true),
        Work::Lex => {
            let tokens = lex(alloc, bytes)?;
            Ok(!tokens.is_empty())
        }
        Work::Read => {
            let tokens = lex(alloc, bytes)?;
            Ok(read(alloc, bytes, tokens.as_slice()).is_ok())
        }
    }
}

pub(crate) fn timed(rt: &HostRuntime, words: &[String]) -> io::Result<()> {
    let alloc = rt.alloc();
    let Some(what) = words.get(0).and_then(|word| named(word.as_str())) else {
        return refused(rt);
    };
    let Some(name) = word_at(words, 1) else {
        return refused(rt);
    };
    let mut files = HostFiles::new(rt);
    let Ok(bytes) = read_whole(alloc, &mut files, name, MOST) else {
        return println!(rt; "the file can't be read");
    };
    if bytes.len() >= 1 << 32 {
        return Ok(());
    }
    match done(alloc, what, bytes.as_slice()) {
        Ok(true) => println!(rt; "done"),
        Ok(false) => println!(rt; "the text is refused"),
        Err(AllocError) => println!(rt; "no memory"),
    }
}
