//! Calls of the outside that fail on the way, in the top call and alone, and the host's files and sink.
ghost use Rattle.std.specs.Prelude.{◌≡◌, IfOk, None};
ghost use Rattle.chop_outside.specs.MemState.{mem_files_state};

use crate::modules::RETURNS_ZERO;
use crate::running::answered;
use chop_outside::{
    FreeGate, Gate, HostFiles, HostSink, MemFiles, MemSink, ReadError, read_whole, write_whole,
};
use chop_top::Status;
use std::alloc::{AllocError, Global};
use std::test::Fail;
use std::{env, fs, process};

// Which call of the files fails, and which of the sink; the status; and how much of the report is written. The file is opened, read in two
// pieces, and read again at its end; the report is written in 9 pieces.
const FAILS: [(u64, u64, Status, usize); 8] = [
    (1, 0, Status::ReadFault, 0),
    (3, 0, Status::ReadFault, 0),
    (4, 0, Status::ReadFault, 0),
    (5, 0, Status::Done, 143),
    (0, 1, Status::WriteFault, 0),
    (0, 3, Status::WriteFault, 32),
    (0, 9, Status::WriteFault, 128),
    (0, 10, Status::Done, 143),
];

#[test]
fn calls_that_fail(rt: HostRuntime) -> Result<(), Fail> {
    let alloc = rt.alloc();
    let call = "explore --input 0 F";
    let whole = answered(&rt, alloc, call, RETURNS_ZERO.as_bytes(), (0, 0))?;
    for (read, write, status, length) in FAILS {
        let got = answered(&rt, alloc, call, RETURNS_ZERO.as_bytes(), (read, write))?;
        assert_eq!(rt; got.0, status, "at {read} and {write}");
        assert_eq!(rt; got.1.len(), length, "at {read} and {write}");
        assert!(rt; whole.1.as_slice().starts_with(got.1.as_slice()));
    }
    // A file of a command's name is looked for as any other.
    let got = answered(&rt, alloc, "print print", RETURNS_ZERO.as_bytes(), (0, 0))?;
    assert_eq!(rt; got.0, Status::ReadFault);
    Ok(())
}

// Two files of one name, read five bytes at a time, of which some calls fail.
fn files(alloc: Global, fails: Vec<u64>) -> Result<MemFiles, AllocError>
    ensures fresh { IfOk result (λ files. (mem_files_state files).asked ≡ None) }
    ensures room { IfOk result (λ files. (mem_files_state files).faults ≡ 0) }
{
    let mut files = Vec::new(alloc);
    let name = String::from_str(alloc, "f")?;
    files.push((name, Vec::from_slice(alloc, b"seven bytes")?))?;
    let name = String::from_str(alloc, "f")?;
    files.push((name, Vec::from_slice(alloc, b"others")?))?;
    Ok(MemFiles::new(files, 5, fails))
}

#[test]
fn files_in_memory(rt: HostRuntime) -> Result<(), Fail> {
    let alloc = rt.alloc();
    let mut whole = files(alloc, Vec::new(alloc))?;
    let read = read_whole(alloc, &mut whole, String::from_str(alloc, "f")?, 16);
    assert!(rt; read.is_ok_and(|bytes| bytes.as_slice() == b"seven bytes".as_slice()));
    let mut longer = files(alloc, Vec::new(alloc))?;
    let read = read_whole(alloc, &mut longer, String::from_str(alloc, "f")?, 10);
    assert!(rt; matches!(read, Err(ReadError::TooLarge)));
    // Open, three pieces and the end make five calls.
    for (call, fails) in [(1, true), (5, true), (6, false)] {
        let mut failing = files(alloc, vec![in alloc; call]?)?;
        let read = read_whole(alloc, &mut failing, String::from_str(alloc, "f")?, 16);
        assert_eq!(rt; matches!(read, Err(ReadError::Fault)), fails);
    }
    Ok(())
}

#[test]
fn a_sink_in_memory(rt: HostRuntime) -> Result<(), Fail> {
    let alloc = rt.alloc();
    for (room, call, kept) in [(9, 9, "seven"), (4, 9, "seve"), (9, 2, "se"), (9, 1, "")] {
        let mut sink = MemSink::new(alloc, room, 2, vec![in alloc; call]?)?;
        assert_eq!(rt; write_whole(&mut sink, b"seven").is_ok(), kept.len() == 5);
        assert_eq!(rt; sink.bytes(), kept.as_bytes());
    }
    Ok(())
}

// What the host's file of that name holds, if it can be read and has at most so many bytes.
fn kept(rt: &HostRuntime, place: &str, limit: usize) -> Result<Vec<u8>, ReadError> {
    let Ok(name) = String::from_str(rt.alloc(), place) else {
        return Err(ReadError::Memory);
    };
    let mut files = HostFiles::new(rt);
    read_whole(rt.alloc(), &mut files, name, limit)
}

#[test]
fn the_host_keeps_what_was_written(rt: HostRuntime) -> Result<(), Fail> {
    let alloc = rt.alloc();
    let name = format!(in alloc; "chop-outside-test-{}", process::id(rt.process()))?;
    let path = env::temp_dir(&rt)?.join(alloc, name.as_str())?;
    let place = path
        .as_path()
        .to_str()
        .expect(&rt, "the folder's name is text");
    let mut sink = HostSink::new(fs::create(&rt, place)?);
    assert!(rt; write_whole(&mut sink, b"seven bytes").is_ok());
    let whole = kept(&rt, place, 11);
    let most = kept(&rt, place, 10);
    fs::remove_file(&rt, place)?;
    let gone = kept(&rt, place, 16);
    assert!(rt; whole.is_ok_and(|bytes| bytes.as_slice() == b"seven bytes".as_slice()));
    assert!(rt; matches!(most, Err(ReadError::TooLarge)));
    assert!(rt; matches!(gone, Err(ReadError::Fault)));
    FreeGate.pass(7);
    Ok(())
}
