//! What callers of symbolic memory are generic over: the log, with what a kind of memory keeps beside it.
ghost use Rattle.std.specs.Prelude.{◌≡◌, ◌^◌, ◌-◌, [], min, length, IfOk, OnOk, OnErr};
ghost use Rattle.terms.specs.Tree.{width_of};
ghost use Rattle.sym_bytes.specs.ShownAnswers.{want_of, read_of, living_of};
ghost use Rattle.log_laws.specs.Logs as log;
ghost use Rattle.log_laws.specs.Needs as needs;
ghost use Rattle.log_laws.specs.Reading as reading;
ghost use Rattle.write_log.specs.Memory.{with_item, with_log, IsWanted};

use crate::Log;
use flat_ir::{GlobalVar, Location, ObjectName};
use places::Home;
use plain_list::Sequence;
use std::alloc::{AllocError, Global};
use std::marker::Model;
use sym_bytes::{CallId, Entry, LifeOf, ReadByte, Wanted};
use term_store::Conditions;
use terms::{Term, Terms};

/// What a kind of memory keeps beside the log, to find there sooner what is asked.
pub trait Index: Drop {
    ghost use Rattle.std.specs.Prelude.{Bool};
    ghost use Rattle.write_log.specs.Memory.{Memory};

    // Whether it fits the log.
    ghost fits: { Self → Memory → Bool };
}

/// The log of a path, and what is kept beside it. Contracts see the log alone.
pub struct Memory<H: Home, K: Index> {
    pub log: Log<H>,
    pub index: K,
}

// All that lets one go is in this one place, and each end of a scope is a call.
impl<H: Home, K: Index> Drop for Memory<H, K> {
    fn drop(self) {
        let Memory { log: _, index: _ } = self;
    }
}

impl<H: Home, K: Index> Model for Memory<H, K> {
    ghost use Rattle.std.specs.Prelude.{◌≡◌, true};
    ghost use Rattle.write_log.specs.Memory.{Memory};

    ghost Value = { Memory };

    ghost use Rattle.std.specs.Coded.{codes};
    ghost use Rattle.terms.specs.Codes.{coded_tree};

    ghost coded = { Prim.hlevel (codes, coded_tree) };

    ghost view = { λ m. m.log };

    ghost invariant = { λ m. K.fits m.index m.log ≡ true };
}

/// A kind of memory. Whatever it keeps beside the log, each call answers by the log.
pub trait SymMemory: Index + Sized {
    /// The memory at the start of a path, with these globals.
    fn start<H: Home>(alloc: Global, globals: &[GlobalVar]) -> Result<Memory<H, Self>, AllocError>
        ensures { IfOk result (λ m. m ≡ record { globals = globals.now; log = [] }) };

    /// Appends an entry.
    fn append<H: Home>(memory: &mut Memory<H, Self>, e: Entry<H>) -> Result<(), AllocError>
        ensures ok { OnOk result (memory.new ≡ with_item (log.Did e) memory.old) }
        ensures err { OnErr result (memory.new ≡ memory.old) };

    /// Appends the mark of a skipped call, which may change these locations.
    fn mark<H: Home>(
        memory: &mut Memory<H, Self>,
        call: CallId,
        mods: Sequence<Location>,
    ) -> Result<(), AllocError>
        ensures ok { OnOk result (memory.new ≡ with_item (log.Marked call mods []) memory.old) }
        ensures err { OnErr result (memory.new ≡ memory.old) };

    /// Puts what a skipped call changed in a location, the newest entry first, at the call's mark.
    fn fill<H: Home>(
        memory: &mut Memory<H, Self>,
        call: CallId,
        at: Location,
        entries: Sequence<Entry<H>>,
    ) -> Result<(), AllocError>
        ensures ok { OnOk result (memory.new ≡ with_log (log.fill call at entries memory.old.log) memory.old) }
        ensures err { OnErr result (memory.new ≡ memory.old) };

    /// The skipped calls that have to be recovered before that is known, oldest first.
    fn need<H: Home>(
        memory: &Memory<H, Self>,
        what: &Wanted<H>,
    ) -> Result<Sequence<CallId>, AllocError>
        requires { IsWanted (want_of what.now) }
        ensures { IfOk result (λ calls. calls ≡ needs.need (want_of what.now) memory.now.log) };

    /// The byte of an object at an offset of 64 bits, under a condition.
    fn read<H: Home>(
        memory: &Memory<H, Self>,
        terms: &Terms<H>,
        name: &ObjectName,
        offset: &Term<H>,
        known: &Conditions<H>,
    ) -> Result<ReadByte<H>, AllocError>
        requires { width_of offset.now ≡ 64 }
        ensures { IfOk result (λ r. read_of r ≡ reading.read_byte memory.now.globals known.now name.now offset.now memory.now.log) };

    /// Whether an object lives, and its size.
    fn life<H: Home>(
        memory: &Memory<H, Self>,
        terms: &Terms<H>,
        name: &ObjectName,
    ) -> Result<LifeOf<H>, AllocError>
        ensures { IfOk result (λ l. living_of l ≡ log.life memory.now.globals name.now memory.now.log) };

    /// How many bytes of the input were read, at most 2^64 - 1.
    fn position<H: Home>(memory: &Memory<H, Self>) -> u64
        ensures { result ≡ min (log.position memory.now.log) (2 ^ 64 - 1) };

    /// What was written out, the oldest byte first.
    fn output<H: Home>(memory: &Memory<H, Self>) -> Result<Sequence<Term<H>>, AllocError>
        ensures { IfOk result (λ list. list ≡ log.output memory.now.log) };

    /// The entries in a location since the log had that length, the newest first.
    fn entries_since<H: Home>(
        memory: &Memory<H, Self>,
        old: u64,
        at: Location,
    ) -> Result<Sequence<Entry<H>>, AllocError>
        ensures { IfOk result (λ list. list ≡ log.entries_since old at memory.now.log) };

    /// How many entries and marks the log has.
    fn length<H: Home>(memory: &Memory<H, Self>) -> u64
        ensures { result ≡ length memory.now.log };

    /// The memory before a call's mark.
    fn cut<H: Home>(memory: &Memory<H, Self>, call: CallId) -> Result<Memory<H, Self>, AllocError>
        ensures { IfOk result (λ m. m ≡ with_log (log.cut call memory.now.log) memory.now) };

    /// An equal memory, which shares what was written before.
    fn copy_log<H: Home>(memory: &Memory<H, Self>) -> Result<Memory<H, Self>, AllocError>
        ensures { IfOk result (λ m. m ≡ memory.now) };
}
