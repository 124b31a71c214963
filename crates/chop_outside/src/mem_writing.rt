//! A sink in memory, whose calls fail where they are told to.
ghost use Rattle.std.specs.Prelude.{◌≡◌, ◌≤◌, Some, [], IfOk, vec_len, vec_capacity};

use crate::{Fault, Sink};
use std::alloc::{AllocError, Global};

/// A sink in memory with room for some bytes, which tells what was written. Each call takes at most `piece` bytes, and
/// the calls whose numbers, from 1, stand in `fails` fail. It takes its memory when it is made.
#[derive(Drop)]
pub struct MemSink {
    bytes: Vec<u8>,
    room: usize,
    piece: usize,
    fails: Vec<u64>,
    calls: u64,
    faults: u64,
    ghost takes_some: { 1 ≤ piece },
    ghost within: { vec_len bytes ≤ room },
    ghost reserved: { room ≤ vec_capacity bytes },
}

impl MemSink {
    ghost use Rattle.chop_outside.specs.MemState.{mem_sink_state};

    /// An empty sink. Once `room` bytes are written a nonempty piece is a `Fault`.
    pub fn new(
        alloc: Global,
        room: usize,
        piece: usize,
        fails: Vec<u64>,
    ) -> Result<MemSink, AllocError>
        requires { 1 ≤ piece }
        ensures { IfOk result (λ sink. mem_sink_state sink ≡ record { written = Some []; faults = 0 }) }
    {
        Ok(MemSink {
            bytes: Vec::with_capacity(alloc, room)?,
            room,
            piece,
            fails,
            calls: 0,
            faults: 0,
        })
    }

    /// What was written.
    pub fn bytes(&self) -> &[u8]
        ensures { (mem_sink_state self.now).written ≡ Some result.now }
    {
        self.bytes.as_slice()
    }
}

impl Sink for MemSink {
    ghost use Rattle.chop_outside.specs.MemState.{mem_sink_state};

    ghost state = { mem_sink_state };

    fn write(&mut self, bytes: &[u8]) -> Result<usize, Fault> {
        self.calls = self.calls.saturating_add(1);
        let left = self.room - self.bytes.len();
        let count = self.piece.min(bytes.len()).min(left);
        let full = count == 0 && bytes.len() > 0;
        if full
            || self.fails.contains(&self.calls)
            || self.bytes.extend_from_slice(&bytes[..count]).is_err()
        {
            self.faults += 1;
            return Err(Fault);
        }
        Ok(count)
    }
}
