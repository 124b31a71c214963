//! One call of the top, over a file and a sink in memory, and tables of calls.
use chop_outside::{FreeGate, MemFiles, MemSink};
use chop_top::{Status, chop_main};
use std::alloc::{AllocError, Global};
use std::process::Abort;
use std::sync::Wait;
use std::test::Fail;
use std::thread::Threads;

/// A call, the text of the file F, and what is written.
pub type Row = (&'static str, &'static str, &'static str);

// The words of a call, where `_` is a word without a letter.
fn words_of(alloc: Global, call: &str) -> Result<Vec<String>, AllocError> {
    let mut words = Vec::new(alloc);
    for word in call.split_whitespace() {
        let word = if word == "_" { "" } else { word };
        words.push(String::from_str(alloc, word)?)?;
    }
    Ok(words)
}

/// The status, and what was written, where the file F holds that text. Calls of the files and of the sink pass 16 bytes each, and the calls
/// of these numbers, from 1, fail.
pub fn answered<R: Threads + Wait + Sync>(
    rt: &R,
    alloc: Global,
    call: &str,
    text: &[u8],
    fails: (u64, u64),
) -> Result<(Status, Vec<u8>), AllocError> {
    let words = words_of(alloc, call)?;
    let mut named = Vec::new(alloc);
    named.push((String::from_str(alloc, "F")?, Vec::from_slice(alloc, text)?))?;
    let mut files = MemFiles::new(named, 16, vec![in alloc; fails.0]?);
    let mut sink = MemSink::new(alloc, 4000, 16, vec![in alloc; fails.1]?)?;
    let status = chop_main(rt, alloc, &words, &mut files, &mut sink, &FreeGate);
    Ok((status, Vec::from_slice(alloc, sink.bytes())?))
}

/// Each call ends with that status, and writes its text.
pub fn all_end<R: Threads + Wait + Abort + Sync>(
    rt: &R,
    alloc: Global,
    status: Status,
    rows: &[Row],
) -> Result<(), Fail> {
    for row in rows {
        let got = answered(rt, alloc, row.0, row.1.as_bytes(), (0, 0))?;
        assert_eq!(rt; got.0, status, "at {}", row.0);
        assert_eq!(rt; got.1.as_slice(), row.2.as_bytes(), "at {}", row.0);
    }
    Ok(())
}
