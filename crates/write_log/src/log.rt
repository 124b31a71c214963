//! Memory on a path: one list that forks share.
ghost use Rattle.std.specs.Prelude.{◌≡◌, ◌^◌, ◌-◌, [], min, length, IfOk, OnOk, OnErr};
ghost use Rattle.terms.specs.Tree.{width_of};
ghost use Rattle.sym_bytes.specs.ShownAnswers.{want_of, read_of, living_of};
ghost use Rattle.log_laws.specs.Logs as log;
ghost use Rattle.log_laws.specs.Needs as needs;
ghost use Rattle.log_laws.specs.Reading as reading;
ghost use Rattle.log_laws.specs.Reading.{initial_bytes};
ghost use Rattle.write_log.specs.Memory.{with_item, with_log, IsWanted};

use crate::items::Item;
use crate::lives::{life_of_made, size_of_global};
use crate::marks::{cut_at, filled_at};
use crate::needs::needed;
use crate::reading::read_from;
use crate::totals::{entries_in, gets_in, puts_in};
use crate::trail::Trail;
use bitnum::Num;
use flat_ir::{GlobalVar, InitByte, Location, ObjectName};
use places::Home;
use plain_list::Sequence;
use std::alloc::{AllocError, Global};
use std::marker::Model;
use std::sync::Arc;
use sym_bytes::{CallId, Entry, LifeOf, ReadByte, Wanted};
use term_store::Conditions;
use terms::{Term, Terms, constant};

/// The log of a path, over the globals that it began with. Copies share both.
pub struct Log<H: Home> {
    alloc: Global,
    globals: Arc<Sequence<GlobalVar>, Global>,
    trail: Trail<H>,
}

// All that lets one go is in this one place, and each end of a scope is a call.
impl<H: Home> Drop for Log<H> {
    fn drop(self) {
        let Log {
            alloc: _,
            globals: _,
            trail: _,
        } = self;
    }
}

impl<H: Home> Model for Log<H> {
    ghost use Rattle.write_log.specs.Memory.{Memory};

    ghost Value = { Memory };

    ghost use Rattle.std.specs.Coded.{codes};
    ghost use Rattle.terms.specs.Codes.{coded_tree};

    ghost coded = { Prim.hlevel (codes, coded_tree) };

    ghost view = { λ m. record { globals = m.globals.value; log = m.trail } };
}

fn copy_global(alloc: Global, global: &GlobalVar) -> Result<GlobalVar, AllocError>
    ensures { IfOk result (λ g. g ≡ global.now) }
{
    Ok(GlobalVar {
        name: global.name.copy(alloc)?,
        size: global.size,
        init: global.init.copy(alloc)?,
    })
}

fn copy_globals(alloc: Global, globals: &[GlobalVar]) -> Result<Sequence<GlobalVar>, AllocError>
    ensures { IfOk result (λ list. list ≡ globals.now) }
{
    let mut list = Sequence::new(alloc);
    for global in globals {
        list.push(copy_global(alloc, global)?)?;
    }
    Ok(list)
}

impl<H: Home> Log<H> {
    // The memory with other items.
    fn with(&self, trail: Trail<H>) -> Result<Log<H>, AllocError>
        ensures { IfOk result (λ m. m ≡ with_log trail self.now) }
    {
        Ok(Log {
            alloc: self.alloc,
            globals: Arc::try_clone(&self.globals)?,
            trail,
        })
    }

    // Appends an item.
    fn push(&mut self, item: Item<H>) -> Result<(), AllocError>
        ensures ok { OnOk result (self.new ≡ with_item item self.old) }
        ensures err { OnErr result (self.new ≡ self.old) }
    {
        let trail = self.trail.with(self.alloc, item)?;
        self.trail = trail;
        Ok(())
    }

    // The bytes that an object begins with.
    fn initial(&self, name: &ObjectName) -> &[InitByte]
        ensures { result.now ≡ initial_bytes self.now.globals name.now }
    {
        match name {
            ObjectName::Global(global) => match self.globals.get(*global as usize) {
                Some(global) => global.init.as_slice(),
                None => &[],
            },
            ObjectName::Made { frame: _, made: _ } => &[],
        }
    }
}

impl<H: Home> Log<H> {
    /// The memory at the start of a path, with these globals.
    pub fn start(alloc: Global, globals: &[GlobalVar]) -> Result<Log<H>, AllocError>
        ensures { IfOk result (λ m. m ≡ record { globals = globals.now; log = [] }) }
    {
        let globals = copy_globals(alloc, globals)?;
        Ok(Log {
            alloc,
            globals: Arc::new(alloc, globals)?,
            trail: Trail::new(alloc)?,
        })
    }

    /// Appends an entry, in constant time.
    pub fn append(&mut self, e: Entry<H>) -> Result<(), AllocError>
        ensures ok { OnOk result (self.new ≡ with_item (log.Did e) self.old) }
        ensures err { OnErr result (self.new ≡ self.old) }
    {
        self.push(Item::did(e))
    }

    /// Appends the mark of a skipped call, which may change these locations.
    pub fn mark(&mut self, call: CallId, mods: Sequence<Location>) -> Result<(), AllocError>
        ensures ok { OnOk result (self.new ≡ with_item (log.Marked call mods []) self.old) }
        ensures err { OnErr result (self.new ≡ self.old) }
    {
        let fills = Sequence::new(self.alloc);
        self.push(Item::marked(call, mods, fills))
    }

    /// Puts what a skipped call changed in a location, the newest entry first, at the call's mark.
    pub fn fill(
        &mut self,
        call: CallId,
        at: Location,
        entries: Sequence<Entry<H>>,
    ) -> Result<(), AllocError>
        ensures ok { OnOk result (self.new ≡ with_log (log.fill call at entries self.old.log) self.old) }
        ensures err { OnErr result (self.new ≡ self.old) }
    {
        let trail = filled_at(self.alloc, &self.trail, call, at, entries)?;
        self.trail = trail;
        Ok(())
    }

    /// The skipped calls that have to be recovered before that is known, oldest first.
    pub fn need(&self, what: &Wanted<H>) -> Result<Sequence<CallId>, AllocError>
        requires { IsWanted (want_of what.now) }
        ensures { IfOk result (λ calls. calls ≡ needs.need (want_of what.now) self.now.log) }
    {
        needed(self.alloc, &self.trail, what)
    }

    /// The byte of an object at an offset of 64 bits, under a condition.
    pub fn read(
        &self,
        terms: &Terms<H>,
        name: &ObjectName,
        offset: &Term<H>,
        known: &Conditions<H>,
    ) -> Result<ReadByte<H>, AllocError>
        requires { width_of offset.now ≡ 64 }
        ensures { IfOk result (λ r. read_of r ≡ reading.read_byte self.now.globals known.now name.now offset.now self.now.log) }
    {
        read_from(terms, known, name, offset, &self.trail, self.initial(name))
    }

    /// Whether an object lives, and its size.
    pub fn life(&self, terms: &Terms<H>, name: &ObjectName) -> Result<LifeOf<H>, AllocError>
        ensures { IfOk result (λ l. living_of l ≡ log.life self.now.globals name.now self.now.log) }
    {
        match name {
            ObjectName::Global(global) => {
                let size = size_of_global(self.globals.as_slice(), *global);
                Ok(LifeOf::Alive(constant(terms, Num::new(64, size))?))
            }
            ObjectName::Made { frame: _, made: _ } => life_of_made(&self.trail, name),
        }
    }

    /// How many bytes of the input were read, at most 2^64 - 1.
    pub fn position(&self) -> u64
        ensures { result ≡ min (log.position self.now.log) (2 ^ 64 - 1) }
    {
        gets_in(&self.trail)
    }

    /// What was written out, the oldest byte first.
    pub fn output(&self) -> Result<Sequence<Term<H>>, AllocError>
        ensures { IfOk result (λ list. list ≡ log.output self.now.log) }
    {
        puts_in(self.alloc, &self.trail)
    }

    /// The entries in a location since the log had that length, the newest first.
    pub fn entries_since(&self, old: u64, at: Location) -> Result<Sequence<Entry<H>>, AllocError>
        ensures { IfOk result (λ list. list ≡ log.entries_since old at self.now.log) }
    {
        entries_in(self.alloc, &self.trail, old, at)
    }

    /// How many entries and marks the log has.
    pub fn length(&self) -> u64
        ensures { result ≡ length self.now.log }
    {
        self.trail.len()
    }

    /// The memory before a call's mark.
    pub fn cut(&self, call: CallId) -> Result<Log<H>, AllocError>
        ensures { IfOk result (λ m. m ≡ with_log (log.cut call self.now.log) self.now) }
    {
        self.with(cut_at(self.alloc, &self.trail, call)?)
    }

    /// An equal memory, which shares what was written before.
    pub fn copy_log(&self) -> Result<Log<H>, AllocError>
        ensures { IfOk result (λ m. m ≡ self.now) }
    {
        self.with(self.trail.copy()?)
    }
}
