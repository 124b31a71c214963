//! A whole file, and a whole text.
ghost use Rattle.std.specs.Prelude.{◌≡◌, ◌<◌, ◌≤◌, ◌-◌, ◌^◌, ◌↔◌, None, string_bytes, IfOk, IfSome, OnOk, OnErr, IsErrOf, length, ◌++◌};
ghost use Rattle.std.specs.Option.{option_map};
ghost use Rattle.chop_outside.specs.Reading.{ReadWhole, contents_of};
ghost use Rattle.chop_outside.specs.Writing.{WrotePrefix};

use crate::{Fault, Files, Sink};
use std::alloc::{AllocError, Global};
use thiserror::Error;

/// Why a file wasn't read to its end.
#[derive(Debug, Drop, Error)]
pub enum ReadError {
    /// A call on the files failed.
    #[error("the file can't be read")]
    Fault,
    /// More bytes were read than the limit.
    #[error("the file is too large")]
    TooLarge,
    /// Memory ran out.
    #[error("out of memory")]
    Memory,
}

/// The bytes of the named file to its end, at most `limit` of them. Each turn takes a byte, so it ends at its limit.
///
/// # Errors
/// `Fault` only where the count of faults rose, `TooLarge` exactly where more than `limit` bytes were read, and `Memory`.
pub fn read_whole<F: Files>(
    alloc: Global,
    files: &mut F,
    name: String,
    limit: usize,
) -> Result<Vec<u8>, ReadError>
    requires fresh { (F.state files.old).asked ≡ None }
    requires room { (F.state files.old).faults < 2 ^ 64 - 1 }
    ensures asked { (F.state files.new).asked ≡ Some (string_bytes name) }
    ensures named { (F.state files.new).named ≡ (F.state files.old).named }
    ensures later { (F.state files.old).faults ≤ (F.state files.new).faults }
    ensures ok { IfOk result (λ bytes. ReadWhole (string_bytes name) bytes.items limit (F.state files.old) (F.state files.new)) }
    ensures fault { IsErrOf result ReadError.Fault → (F.state files.old).faults < (F.state files.new).faults }
    ensures too_large_told { IsErrOf result ReadError.TooLarge → IfSome (contents_of (F.state files.old).named (string_bytes name)) (λ contents. limit < length contents) }
    ensures too_large { IsErrOf result ReadError.TooLarge ↔ (limit < (F.state files.new).count) }
{
    if files.open_file(name).is_err() {
        return Err(ReadError::Fault);
    }
    let mut bytes = Vec::new(alloc);
    let mut buffer = [0u8; 4096];
    loop {
        let count = match files.read(&mut buffer) {
            Ok(count) => count,
            Err(Fault) => return Err(ReadError::Fault),
        };
        if count == 0 {
            return Ok(bytes);
        }
        if count > limit - bytes.len() {
            return Err(ReadError::TooLarge);
        }
        if bytes.extend_from_slice(&buffer[..count]).is_err() {
            return Err(ReadError::Memory);
        }
    }
}

/// Writes all the bytes, or a prefix of them before a fault. It takes no memory.
pub fn write_whole<S: Sink>(sink: &mut S, bytes: &[u8]) -> Result<(), Fault>
    requires { (S.state sink.old).faults < 2 ^ 64 - 1 }
    ensures ok { OnOk result ((S.state sink.new).written ≡ option_map (λ w. w ++ bytes.now) (S.state sink.old).written) }
    ensures quiet { OnOk result ((S.state sink.new).faults ≡ (S.state sink.old).faults) }
    ensures prefix { OnErr result (WrotePrefix (S.state sink.old) (S.state sink.new) bytes.now) }
    ensures fault { OnErr result ((S.state sink.old).faults < (S.state sink.new).faults) }
{
    let mut at = 0;
    while at < bytes.len() {
        at += sink.write(&bytes[at..])?;
    }
    Ok(())
}
