//! The memory that keeps nothing beside the log.
ghost use Rattle.std.specs.Prelude.{◌≡◌, IfOk};

use crate::{Index, Log, Memory, SymMemory};
use flat_ir::{GlobalVar, Location, ObjectName};
use places::Home;
use plain_list::Sequence;
use std::alloc::{AllocError, Global};
use sym_bytes::{CallId, Entry, LifeOf, ReadByte, Wanted};
use term_store::Conditions;
use terms::{Term, Terms};

/// The memory that keeps the log alone and looks for all in it.
#[derive(Drop)]
pub struct Plain;

impl Index for Plain {
    ghost use Rattle.std.specs.Prelude.{true};

    ghost fits = { λ index memory. true };
}

// The memory of a log.
fn kept<H: Home>(log: Log<H>) -> Memory<H, Plain>
    ensures { result ≡ log }
{
    Memory { log, index: Plain }
}

impl SymMemory for Plain {
    fn start<H: Home>(
        alloc: Global,
        globals: &[GlobalVar],
    ) -> Result<Memory<H, Plain>, AllocError> {
        Ok(kept(Log::start(alloc, globals)?))
    }

    fn append<H: Home>(memory: &mut Memory<H, Plain>, e: Entry<H>) -> Result<(), AllocError> {
        memory.log.append(e)
    }

    fn mark<H: Home>(
        memory: &mut Memory<H, Plain>,
        call: CallId,
        mods: Sequence<Location>,
    ) -> Result<(), AllocError> {
        memory.log.mark(call, mods)
    }

    fn fill<H: Home>(
        memory: &mut Memory<H, Plain>,
        call: CallId,
        at: Location,
        entries: Sequence<Entry<H>>,
    ) -> Result<(), AllocError> {
        memory.log.fill(call, at, entries)
    }

    fn need<H: Home>(
        memory: &Memory<H, Plain>,
        what: &Wanted<H>,
    ) -> Result<Sequence<CallId>, AllocError> {
        memory.log.need(what)
    }

    fn read<H: Home>(
        memory: &Memory<H, Plain>,
        terms: &Terms<H>,
        name: &ObjectName,
        offset: &Term<H>,
        known: &Conditions<H>,
    ) -> Result<ReadByte<H>, AllocError> {
        memory.log.read(terms, name, offset, known)
    }

    fn life<H: Home>(
        memory: &Memory<H, Plain>,
        terms: &Terms<H>,
        name: &ObjectName,
    ) -> Result<LifeOf<H>, AllocError> {
        memory.log.life(terms, name)
    }

    fn position<H: Home>(memory: &Memory<H, Plain>) -> u64 {
        memory.log.position()
    }

    fn output<H: Home>(memory: &Memory<H, Plain>) -> Result<Sequence<Term<H>>, AllocError> {
        memory.log.output()
    }

    fn entries_since<H: Home>(
        memory: &Memory<H, Plain>,
        old: u64,
        at: Location,
    ) -> Result<Sequence<Entry<H>>, AllocError> {
        memory.log.entries_since(old, at)
    }

    fn length<H: Home>(memory: &Memory<H, Plain>) -> u64 {
        memory.log.length()
    }

    fn cut<H: Home>(
        memory: &Memory<H, Plain>,
        call: CallId,
    ) -> Result<Memory<H, Plain>, AllocError> {
        Ok(kept(memory.log.cut(call)?))
    }

    fn copy_log<H: Home>(memory: &Memory<H, Plain>) -> Result<Memory<H, Plain>, AllocError> {
        Ok(kept(memory.log.copy_log()?))
    }
}
