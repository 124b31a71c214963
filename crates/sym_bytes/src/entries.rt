//! What a path did to memory, input and output.
ghost use Rattle.std.specs.Prelude.{◌≡◌, ◌≤◌, IfOk, length};
ghost use Rattle.terms.specs.Tree.{width_of};
ghost use Rattle.sym_bytes.specs.Entry as entry;
ghost use Rattle.sym_bytes.specs.Fitting.{IsEntry};
ghost use Rattle.sym_bytes.specs.ShownEntries.{entry_of_kind};

use crate::SymByte;
use flat_ir::ObjectName;
use places::Home;
use plain_list::Sequence;
use std::alloc::{AllocError, Global};
use std::marker::Model;
use terms::Term;

/// A change.
#[derive(Drop)]
pub enum EntryKind<H: Home> {
    /// Bytes are written from an offset of an object on, the lowest first.
    Write(ObjectName, Term<H>, Sequence<SymByte<H>>),
    /// An object of a size is made.
    Alloc(ObjectName, Term<H>),
    /// An object ends.
    Free(ObjectName),
    /// A byte is written out.
    Put(Term<H>),
    /// A byte of the input is read.
    Get,
}

/// A change of memory, input or output, as a path records it.
pub struct Entry<H: Home> {
    kind: EntryKind<H>,
}

// All that lets one go is in this one place, and each end of a scope is a call.
impl<H: Home> Drop for Entry<H> {
    fn drop(self) {
        let Entry { kind: _ } = self;
    }
}

impl<H: Home> Model for Entry<H> {
    ghost use Rattle.sym_bytes.specs.Entry.{Entry};

    ghost Value = { Entry };

    ghost use Rattle.std.specs.Coded.{codes, coded_list};
    ghost use Rattle.terms.specs.Codes.{coded_tree};

    ghost coded = { Prim.hlevel (codes, coded_tree) };

    ghost use Rattle.sym_bytes.specs.Fitting.{IsEntry};
    ghost use Rattle.sym_bytes.specs.ShownEntries.{entry_of_kind};

    ghost view = { λ e. entry_of_kind e.kind };

    ghost invariant = { λ e. IsEntry (entry_of_kind e.kind) };
}

/// Equal bytes, which share their parts.
pub fn copy_bytes<H: Home>(
    alloc: Global,
    bytes: &[SymByte<H>],
) -> Result<Sequence<SymByte<H>>, AllocError>
    ensures { IfOk result (λ list. list ≡ bytes.now) }
{
    let mut list = Sequence::new(alloc);
    for byte in bytes {
        list.push(byte.copy()?)?;
    }
    Ok(list)
}

fn copy_write<H: Home>(
    alloc: Global,
    name: &ObjectName,
    offset: &Term<H>,
    bytes: &[SymByte<H>],
) -> Result<Entry<H>, AllocError>
    requires wide { width_of offset.now ≡ 64 }
    requires most { length bytes.now ≤ 8 }
    ensures { IfOk result (λ e. e ≡ entry.Write name.now offset.now bytes.now) }
{
    let bytes = copy_bytes(alloc, bytes)?;
    let name = name.copy()?;
    Ok(Entry::write(name, offset.copy()?, bytes))
}

impl<H: Home> Entry<H> {
    /// Bytes are written from an offset of an object on, the lowest first.
    pub fn write(name: ObjectName, offset: Term<H>, bytes: Sequence<SymByte<H>>) -> Entry<H>
        requires wide { width_of offset ≡ 64 }
        requires most { length bytes ≤ 8 }
        ensures { result ≡ entry.Write name offset bytes }
    {
        let _width = offset.width();
        Entry {
            kind: EntryKind::Write(name, offset, bytes),
        }
    }

    /// An object of a size is made.
    pub fn alloc(name: ObjectName, size: Term<H>) -> Entry<H>
        requires { width_of size ≡ 64 }
        ensures { result ≡ entry.Alloc name size }
    {
        let _width = size.width();
        Entry {
            kind: EntryKind::Alloc(name, size),
        }
    }

    /// An object ends.
    pub fn free(name: ObjectName) -> Entry<H>
        ensures { result ≡ entry.Free name }
    {
        Entry {
            kind: EntryKind::Free(name),
        }
    }

    /// A byte is written out.
    pub fn put(byte: Term<H>) -> Entry<H>
        requires { width_of byte ≡ 8 }
        ensures { result ≡ entry.Put byte }
    {
        let _width = byte.width();
        Entry {
            kind: EntryKind::Put(byte),
        }
    }

    /// A byte of the input is read.
    pub fn get() -> Entry<H>
        ensures { result ≡ entry.Get }
    {
        Entry {
            kind: EntryKind::Get,
        }
    }

    /// What the entry is.
    pub fn kind(&self) -> &EntryKind<H>
        ensures kind { entry_of_kind result.now ≡ self.now }
        ensures fits { IsEntry self.now }
    {
        &self.kind
    }

    /// An equal entry, which shares its parts.
    pub fn copy(&self, alloc: Global) -> Result<Entry<H>, AllocError>
        ensures { IfOk result (λ e. e ≡ self.now) }
    {
        match &self.kind {
            EntryKind::Write(name, offset, bytes) => {
                copy_write(alloc, name, offset, bytes.as_slice())
            }
            EntryKind::Alloc(name, size) => Ok(Entry::alloc(name.copy()?, size.copy()?)),
            EntryKind::Free(name) => Ok(Entry::free(name.copy()?)),
            EntryKind::Put(byte) => Ok(Entry::put(byte.copy()?)),
            EntryKind::Get => Ok(Entry::get()),
        }
    }
}
