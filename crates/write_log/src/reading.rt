//! A byte of an object, looked for from the newest entry back.
ghost use Rattle.std.specs.Prelude.{◌≡◌, ◌∷◌, ◌++◌, ◌≤◌, List, [], None, IfOk, OnOk, length, slice_get};
ghost use Rattle.terms.specs.Tree.{width_of};
ghost use Rattle.terms.specs.Folding.{constant_of};
ghost use Rattle.term_store.specs.Condition.{answer};
ghost use Rattle.sym_bytes.specs.Building as building;
ghost use Rattle.sym_bytes.specs.Entry as changes;
ghost use Rattle.sym_bytes.specs.ShownAnswers.{read_of};
ghost use Rattle.flat_ir.specs.Locations.{cells_of};
ghost use Rattle.log_laws.specs.Logs.{seen_at};
ghost use Rattle.log_laws.specs.Reading as reading;
ghost use Rattle.log_laws.specs.Reading.{Chain};
ghost use Rattle.write_log.specs.Walks as walks;
ghost use Rattle.write_log.specs.Walks.{ended};

use crate::chains::{Candidate, answered};
use crate::totals::{seen_in, site_of};
use crate::trail::Trail;
use bitnum::{BinOp, Num};
use flat_ir::{InitByte, Location, ObjectName};
use places::Home;
use plain_list::Sequence;
use std::alloc::AllocError;
use sym_bytes::{Base, Entry, EntryKind, Pointer, ReadByte, SymByte};
use term_store::{Added, Conditions};
use terms::{Term, Terms, bin, constant, eq};

fn wide<H: Home>(terms: &Terms<H>, n: u64) -> Result<Term<H>, AllocError>
    ensures { IfOk result (λ t. t ≡ building.wide n) }
{
    constant(terms, Num::new(64, n))
}

// One bit, whether j behind one offset is another.
fn is_behind<H: Home>(
    terms: &Terms<H>,
    offset: &Term<H>,
    j: u8,
    at: &Term<H>,
) -> Result<Term<H>, AllocError>
    requires offset_is { width_of offset.now ≡ 64 }
    requires at_is { width_of at.now ≡ 64 }
    ensures test { IfOk result (λ t. t ≡ building.equal (building.behind offset.now j) at.now) }
    ensures bit { IfOk result (λ t. width_of t ≡ 1) }
{
    let by = wide(terms, u64::from(j))?;
    let there = bin(terms, BinOp::Add, offset, &by)?;
    eq(terms, &there, at)
}

// One bit, whether a number is an offset.
fn is_at<H: Home>(terms: &Terms<H>, k: u64, at: &Term<H>) -> Result<Term<H>, AllocError>
    requires { width_of at.now ≡ 64 }
    ensures test { IfOk result (λ t. t ≡ building.equal (building.wide k) at.now) }
    ensures bit { IfOk result (λ t. width_of t ≡ 1) }
{
    let there = wide(terms, k)?;
    eq(terms, &there, at)
}

// Keeps a candidate, unless its test is 1 or 0 under the condition; gives its byte where it is 1.
fn judge<H: Home>(
    terms: &Terms<H>,
    known: &Conditions<H>,
    candidate: Candidate<H>,
    kept: &mut Sequence<Candidate<H>>,
) -> Result<Option<SymByte<H>>, AllocError>
    ensures held { IfOk result (λ r. r ≡ walks.held_byte (answer known.now candidate.test) candidate.found) }
    ensures kept { IfOk result (λ r. kept.new ≡ kept.old ++ walks.kept (answer known.now candidate.test) candidate) }
{
    match known.answer(terms, candidate.test())? {
        Added::Held => Ok(Some(candidate.found().copy()?)),
        Added::Contradicted => Ok(None),
        Added::Appended => {
            kept.push(candidate)?;
            Ok(None)
        }
    }
}

// The first byte of a write whose test is 1 under the condition, and those whose test isn't 0.
#[tactic(auto, using(crate::proofs::Chained::sure_none, crate::proofs::Chained::sure_some, crate::proofs::Chained::open_none))]
fn judged<H: Home>(
    terms: &Terms<H>,
    known: &Conditions<H>,
    at: &Term<H>,
    offset: &Term<H>,
    bytes: &[SymByte<H>],
) -> Result<(Option<SymByte<H>>, Sequence<Candidate<H>>), AllocError>
    requires at_is { width_of at.now ≡ 64 }
    requires offset_is { width_of offset.now ≡ 64 }
    requires most { length bytes.now ≤ 8 }
    ensures sure { IfOk result (λ r. r.0 ≡ reading.sure_of known.now (reading.candidates_of at.now offset.now 0 bytes.now)) }
    ensures open { IfOk result (λ r. r.0 ≡ None → r.1 ≡ reading.open_of known.now (reading.candidates_of at.now offset.now 0 bytes.now)) }
{
    let mut open = Sequence::new(terms.alloc());
    let mut j = 0u8;
    for byte in bytes {
        let candidate = candidate(terms, at, offset, j, byte)?;
        if let Some(sure) = judge(terms, known, candidate, &mut open)? {
            return Ok((Some(sure), open));
        }
        j += 1;
    }
    Ok((None, open))
}

// Byte j of a write, where its offset is the one looked for.
fn candidate<H: Home>(
    terms: &Terms<H>,
    at: &Term<H>,
    offset: &Term<H>,
    j: u8,
    byte: &SymByte<H>,
) -> Result<Candidate<H>, AllocError>
    requires at_is { width_of at.now ≡ 64 }
    requires offset_is { width_of offset.now ≡ 64 }
    ensures { IfOk result (λ c. c ≡ record { test = building.equal (building.behind offset.now j) at.now; found = byte.now }) }
{
    let found = byte.copy()?;
    Ok(Candidate::new(is_behind(terms, offset, j, at)?, found))
}

// Goes on with the bytes of a write of the object.
fn look_in_write<H: Home>(
    terms: &Terms<H>,
    known: &Conditions<H>,
    at: &Term<H>,
    offset: &Term<H>,
    bytes: &[SymByte<H>],
    chain: &mut Sequence<Candidate<H>>,
) -> Result<Option<SymByte<H>>, AllocError>
    requires at_is { width_of at.now ≡ 64 }
    requires offset_is { width_of offset.now ≡ 64 }
    requires most { length bytes.now ≤ 8 }
    ensures { IfOk result (λ r. (rest : Chain) → reading.or_else chain.old (walks.written known.now at.now offset.now bytes.now rest) ≡ reading.or_else chain.new (ended r rest)) }
{
    let (sure, open) = judged(terms, known, at, offset, bytes)?;
    match sure {
        Some(byte) => Ok(Some(byte)),
        None => {
            chain.append(open)?;
            Ok(None)
        }
    }
}

// Goes on with an entry.
fn look_in_entry<H: Home>(
    terms: &Terms<H>,
    known: &Conditions<H>,
    name: &ObjectName,
    at: &Term<H>,
    entry: &Entry<H>,
    chain: &mut Sequence<Candidate<H>>,
) -> Result<Option<SymByte<H>>, AllocError>
    requires { width_of at.now ≡ 64 }
    ensures { IfOk result (λ r. (es : List changes.Entry) (last : Chain) → reading.or_else chain.old (reading.chain_through known.now name.now at.now (entry.now ∷ es) last) ≡ reading.or_else chain.new (ended r (reading.chain_through known.now name.now at.now es last))) }
{
    match entry.kind() {
        EntryKind::Write(other, offset, bytes) if name == other => {
            look_in_write(terms, known, at, offset, bytes.as_slice(), chain)
        }
        _ => Ok(None),
    }
}

// Goes on with some entries.
fn look_in_entries<H: Home>(
    terms: &Terms<H>,
    known: &Conditions<H>,
    name: &ObjectName,
    at: &Term<H>,
    entries: &[Entry<H>],
    chain: &mut Sequence<Candidate<H>>,
) -> Result<Option<SymByte<H>>, AllocError>
    requires { width_of at.now ≡ 64 }
    ensures { IfOk result (λ r. (es : List changes.Entry) (last : Chain) → reading.or_else chain.old (reading.chain_through known.now name.now at.now (entries.now ++ es) last) ≡ reading.or_else chain.new (ended r (reading.chain_through known.now name.now at.now es last))) }
{
    for entry in entries {
        if let Some(byte) = look_in_entry(terms, known, name, at, entry, chain)? {
            return Ok(Some(byte));
        }
    }
    Ok(None)
}

// Goes back through a log.
fn look_in_log<H: Home>(
    terms: &Terms<H>,
    known: &Conditions<H>,
    name: &ObjectName,
    at: &Term<H>,
    trail: &Trail<H>,
    chain: &mut Sequence<Candidate<H>>,
) -> Result<Option<SymByte<H>>, AllocError>
    requires { width_of at.now ≡ 64 }
    ensures { IfOk result (λ r. (last : Chain) → reading.or_else chain.old (reading.chain_through known.now name.now at.now (seen_at (cells_of name.now) trail.now) last) ≡ reading.or_else chain.new (ended r last)) }
{
    let cells = Location::Cells(site_of(name));
    let mut left = trail;
    while let Some((item, older)) = left.newest() {
        let entries = seen_in(cells, item);
        if let Some(byte) = look_in_entries(terms, known, name, at, entries, chain)? {
            return Ok(Some(byte));
        }
        left = older;
    }
    Ok(None)
}

// A byte that an object begins with.
fn initial_byte<H: Home>(terms: &Terms<H>, byte: InitByte) -> Result<SymByte<H>, AllocError>
    ensures { IfOk result (λ b. b ≡ reading.initial_byte byte) }
{
    match byte {
        InitByte::Int(b) => Ok(SymByte::int(constant(terms, Num::new(8, u64::from(b)))?)),
        InitByte::PtrByte { global, offset, j } => {
            let base = Base::Object(ObjectName::Global(global));
            let offset = wide(terms, offset)?;
            Ok(SymByte::of_pointer(Pointer::new(base, offset), j))
        }
    }
}

fn zero_byte<H: Home>(terms: &Terms<H>) -> Result<SymByte<H>, AllocError>
    ensures { IfOk result (λ b. b ≡ reading.zero_byte) }
{
    Ok(SymByte::int(constant(terms, Num::new(8, 0))?))
}

fn is_zero(byte: InitByte) -> bool
    ensures { result ≡ reading.is_zero byte }
{
    match byte {
        InitByte::Int(b) => b == 0,
        InitByte::PtrByte {
            global: _,
            offset: _,
            j: _,
        } => false,
    }
}

// Goes on with byte k of those that the object begins with.
#[tactic(auto, using(crate::proofs::Chained::judged_scan))]
fn look_at_initial<H: Home>(
    terms: &Terms<H>,
    known: &Conditions<H>,
    at: &Term<H>,
    k: u64,
    byte: InitByte,
    chain: &mut Sequence<Candidate<H>>,
) -> Result<Option<SymByte<H>>, AllocError>
    requires { width_of at.now ≡ 64 }
    ensures { IfOk result (λ r. (rest : Chain) → reading.or_else chain.old (walks.begun known.now at.now k byte rest) ≡ reading.or_else chain.new (ended r rest)) }
{
    if is_zero(byte) {
        return Ok(None);
    }
    let found = initial_byte(terms, byte)?;
    let candidate = Candidate::new(is_at(terms, k, at)?, found);
    judge(terms, known, candidate, chain)
}

// Goes on with the bytes that the object begins with, at an offset that isn't constant.
fn scan<H: Home>(
    terms: &Terms<H>,
    known: &Conditions<H>,
    at: &Term<H>,
    bytes: &[InitByte],
    chain: &mut Sequence<Candidate<H>>,
) -> Result<SymByte<H>, AllocError>
    requires { width_of at.now ≡ 64 }
    ensures { IfOk result (λ b. reading.or_else chain.old (reading.scanned known.now at.now 0 bytes.now) ≡ reading.or_else chain.new (reading.surely b)) }
{
    for k in 0..bytes.len() {
        if let Some(byte) = look_at_initial(terms, known, at, k as u64, bytes[k], chain)? {
            return Ok(byte);
        }
    }
    zero_byte(terms)
}

fn byte_or_zero<H: Home>(
    terms: &Terms<H>,
    bytes: &[InitByte],
    at: u64,
) -> Result<SymByte<H>, AllocError>
    ensures { IfOk result (λ b. b ≡ reading.byte_or_zero (slice_get bytes.now at)) }
{
    match bytes.get(at as usize) {
        None => zero_byte(terms),
        Some(byte) => initial_byte(terms, *byte),
    }
}

// Goes on with the bytes that the object begins with.
fn look_in_initial<H: Home>(
    terms: &Terms<H>,
    known: &Conditions<H>,
    at: &Term<H>,
    bytes: &[InitByte],
    chain: &mut Sequence<Candidate<H>>,
) -> Result<SymByte<H>, AllocError>
    requires { width_of at.now ≡ 64 }
    ensures { IfOk result (λ b. reading.or_else chain.old (reading.initial_at (constant_of at.now) known.now at.now bytes.now) ≡ reading.or_else chain.new (reading.surely b)) }
{
    match at.as_constant() {
        Some(n) => byte_or_zero(terms, bytes, n.bits()),
        None => scan(terms, known, at, bytes, chain),
    }
}

// The byte behind all candidates of a chain.
fn look<H: Home>(
    terms: &Terms<H>,
    known: &Conditions<H>,
    name: &ObjectName,
    at: &Term<H>,
    trail: &Trail<H>,
    initial: &[InitByte],
    chain: &mut Sequence<Candidate<H>>,
) -> Result<SymByte<H>, AllocError>
    requires { width_of at.now ≡ 64 }
    ensures { IfOk result (λ b. reading.or_else chain.old (reading.chain_through known.now name.now at.now (seen_at (cells_of name.now) trail.now) (reading.initial_at (constant_of at.now) known.now at.now initial.now)) ≡ reading.or_else chain.new (reading.surely b)) }
{
    match look_in_log(terms, known, name, at, trail, chain)? {
        Some(byte) => Ok(byte),
        None => look_in_initial(terms, known, at, initial, chain),
    }
}

/// The byte of an object at an offset, where these are the bytes that it began with.
pub(crate) fn read_from<H: Home>(
    terms: &Terms<H>,
    known: &Conditions<H>,
    name: &ObjectName,
    at: &Term<H>,
    trail: &Trail<H>,
    initial: &[InitByte],
) -> Result<ReadByte<H>, AllocError>
    requires { width_of at.now ≡ 64 }
    ensures { IfOk result (λ r. read_of r ≡ reading.answer_of (reading.chain_through known.now name.now at.now (seen_at (cells_of name.now) trail.now) (reading.initial_at (constant_of at.now) known.now at.now initial.now))) }
{
    let mut chain = Sequence::new(terms.alloc());
    let last = look(terms, known, name, at, trail, initial, &mut chain)?;
    answered(terms, chain.as_slice(), last)
}
