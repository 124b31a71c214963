ghost use Rattle.std.specs.Prelude.{◌≡◌, IfOk};
ghost use Rattle.terms.specs.Tree.{width_of};

use bitnum::Num;
use flat_ir::{CallStep, FrameName, FuncId, GlobalVar, Location, NodeId, ObjectName, Site};
use places::{Home, Opened};
use plain_list::Sequence;
use std::alloc::{AllocError, Global};
use std::marker::Brand;
use std::test::Fail;
use sym_bytes::{ByteKind, CallId, Entry, LifeOf, ReadByte, SymByte, Wanted};
use term_store::Conditions;
use terms::{Shape, Term, Terms, constant, eq, input_byte, not, zext_term};
use write_log::{Memory, Plain, SymMemory};

/// What was read or asked, as a test compares it.
#[derive(Clone, Copy, Debug, PartialEq, Eq)]
enum Seen {
    Number(u64),
    Term,
    PointerOrPending,
    Undecided,
    Dead,
}

/// Global 0, of eight bytes, all 0.
fn global(alloc: Global) -> GlobalVar {
    GlobalVar {
        name: Sequence::new(alloc),
        size: 8,
        init: Sequence::new(alloc),
    }
}

fn x() -> ObjectName {
    ObjectName::Global(0)
}

fn cells_of_x() -> Location {
    Location::Cells(Site::Global(0))
}

/// What node 3 of function 1 made.
fn y() -> ObjectName {
    ObjectName::Made {
        frame: FrameName::main(),
        made: CallStep {
            func: FuncId(1),
            node: NodeId(3),
            count: 1,
        },
    }
}

fn site_of_y() -> Site {
    Site::Node(FuncId(1), NodeId(3))
}

fn wide<H: Home>(terms: &Terms<H>, n: u64) -> Result<Term<H>, AllocError>
    ensures { IfOk result (λ t. width_of t ≡ 64) }
{
    let t = constant(terms, Num::new(64, n))?;
    Ok(t)
}

/// The first byte of the input, as an offset.
fn chosen<H: Home>(terms: &Terms<H>) -> Result<Term<H>, AllocError>
    ensures { IfOk result (λ t. width_of t ≡ 64) }
{
    let byte = input_byte(terms, 0)?;
    let t = zext_term(terms, &byte, 64)?;
    Ok(t)
}

fn small<H: Home>(terms: &Terms<H>, n: u8) -> Result<SymByte<H>, AllocError> {
    let t = constant(terms, Num::new(8, u64::from(n)))?;
    Ok(SymByte::int(t))
}

/// One byte of x is written.
fn write_at<H: Home>(
    terms: &Terms<H>,
    offset: Term<H>,
    byte: SymByte<H>,
) -> Result<Entry<H>, AllocError>
    requires { width_of offset ≡ 64 }
{
    let bytes = Sequence::of_one(terms.alloc(), byte)?;
    Ok(Entry::write(x(), offset, bytes))
}

fn write<H: Home>(terms: &Terms<H>, offset: u64, byte: u8) -> Result<Entry<H>, AllocError> {
    let place = wide(terms, offset)?;
    write_at(terms, place, small(terms, byte)?)
}

fn alloc_of_y<H: Home>(terms: &Terms<H>) -> Result<Entry<H>, AllocError> {
    let size = wide(terms, 4)?;
    Ok(Entry::alloc(y(), size))
}

fn put<H: Home>(terms: &Terms<H>, n: u8) -> Result<Entry<H>, AllocError> {
    let byte = constant(terms, Num::new(8, u64::from(n)))?;
    Ok(Entry::put(byte))
}

fn started<H: Home>(alloc: Global) -> Result<Memory<H, Plain>, AllocError> {
    let globals = [global(alloc)];
    Plain::start(alloc, &globals)
}

fn mark_one<H: Home>(
    alloc: Global,
    memory: &mut Memory<H, Plain>,
    call: u32,
    at: Location,
) -> Result<(), AllocError> {
    let mods = Sequence::of_one(alloc, at)?;
    Plain::mark(memory, CallId(call), mods)
}

fn fill_one<H: Home>(
    alloc: Global,
    memory: &mut Memory<H, Plain>,
    call: u32,
    at: Location,
    entry: Entry<H>,
) -> Result<(), AllocError> {
    let entries = Sequence::of_one(alloc, entry)?;
    Plain::fill(memory, CallId(call), at, entries)
}

/// The calls that are needed for the first byte of an object.
fn needed<H: Home, K: SymMemory>(
    terms: &Terms<H>,
    memory: &Memory<H, K>,
    name: ObjectName,
) -> Result<Sequence<CallId>, AllocError> {
    let at = wide(terms, 0)?;
    let what = Wanted::Bytes(name, at, 1);
    let calls = K::need(memory, &what)?;
    Ok(calls)
}

fn seen_in<H: Home>(t: &Term<H>) -> Seen {
    match t.as_constant() {
        Some(n) => Seen::Number(n.bits()),
        None => Seen::Term,
    }
}

fn seen_of<H: Home>(read: &ReadByte<H>) -> Seen {
    match read {
        ReadByte::Byte(byte) => match byte.kind() {
            ByteKind::Int(t) => seen_in(t),
            _ => Seen::PointerOrPending,
        },
        ReadByte::Undecided(_) => Seen::Undecided,
    }
}

/// The first byte of x.
fn first_byte<H: Home>(
    terms: &Terms<H>,
    memory: &Memory<H, Plain>,
    known: &Conditions<H>,
) -> Result<Seen, AllocError> {
    let at = wide(terms, 0)?;
    let name = x();
    let read = Plain::read(memory, terms, &name, &at, known)?;
    Ok(seen_of(&read))
}

/// The first byte of x, where nothing is known of the input.
fn plain_byte<H: Home>(terms: &Terms<H>, memory: &Memory<H, Plain>) -> Result<Seen, AllocError> {
    let known = Conditions::new(terms.alloc());
    first_byte(terms, memory, &known)
}

fn size_in<H: Home>(life: &LifeOf<H>) -> Seen {
    match life {
        LifeOf::Alive(size) => seen_in(size),
        LifeOf::Dead => Seen::Dead,
    }
}

/// The size of y, if it lives.
fn life_of_y<H: Home>(terms: &Terms<H>, memory: &Memory<H, Plain>) -> Result<Seen, AllocError> {
    let name = y();
    let life = Plain::life(memory, terms, &name)?;
    Ok(size_in(&life))
}

/// A write of another byte behind the mark.
fn far_write<H: Home>(terms: &Terms<H>) -> Result<Sequence<CallId>, AllocError> {
    let mut memory = started::<H>(terms.alloc())?;
    mark_one(terms.alloc(), &mut memory, 1, cells_of_x())?;
    Plain::append(&mut memory, write(terms, 5, 7)?)?;
    needed(terms, &memory, x())
}

/// Two calls that may write y, the second of which makes it.
fn filled_alloc<H: Home>(terms: &Terms<H>) -> Result<Memory<H, Plain>, AllocError> {
    let mut memory = started::<H>(terms.alloc())?;
    mark_one(terms.alloc(), &mut memory, 1, Location::Cells(site_of_y()))?;
    mark_one(terms.alloc(), &mut memory, 2, Location::Cells(site_of_y()))?;
    let made = alloc_of_y(terms)?;
    fill_one(
        terms.alloc(),
        &mut memory,
        2,
        Location::Life(site_of_y()),
        made,
    )?;
    Ok(memory)
}

/// Two calls that may write x, the second of which wrote it.
fn filled_write<H: Home>(terms: &Terms<H>) -> Result<Memory<H, Plain>, AllocError> {
    let mut memory = started::<H>(terms.alloc())?;
    mark_one(terms.alloc(), &mut memory, 1, cells_of_x())?;
    mark_one(terms.alloc(), &mut memory, 2, cells_of_x())?;
    let written = write(terms, 0, 3)?;
    fill_one(terms.alloc(), &mut memory, 2, cells_of_x(), written)?;
    Ok(memory)
}

/// The first byte, where a call before a write of it is filled.
fn filled_below<H: Home>(terms: &Terms<H>) -> Result<Seen, AllocError> {
    let mut memory = filled_write(terms)?;
    Plain::append(&mut memory, write(terms, 0, 9)?)?;
    let older = write(terms, 0, 4)?;
    fill_one(terms.alloc(), &mut memory, 1, cells_of_x(), older)?;
    plain_byte(terms, &memory)
}

/// A byte at 0, and one at an offset that the input decides.
fn chosen_write<H: Home>(terms: &Terms<H>) -> Result<Memory<H, Plain>, AllocError> {
    let mut memory = started::<H>(terms.alloc())?;
    Plain::append(&mut memory, write(terms, 0, 9)?)?;
    let byte = small(terms, 5)?;
    let written = write_at(terms, chosen(terms)?, byte)?;
    Plain::append(&mut memory, written)?;
    Ok(memory)
}

/// Whether the input decides for 0.
fn chosen_is_zero<H: Home>(terms: &Terms<H>) -> Result<Term<H>, AllocError>
    ensures { IfOk result (λ t. width_of t ≡ 1) }
{
    let offset = chosen(terms)?;
    let zero = wide(terms, 0)?;
    let equal = eq(terms, &offset, &zero)?;
    Ok(equal)
}

/// The first byte where a test of the input is known.
fn byte_where<H: Home>(terms: &Terms<H>, test: &Term<H>) -> Result<Seen, AllocError>
    requires { width_of test.now ≡ 1 }
{
    let memory = chosen_write(terms)?;
    let mut known = Conditions::new(terms.alloc());
    known.add(terms, test)?;
    first_byte(terms, &memory, &known)
}

fn hit<H: Home>(terms: &Terms<H>) -> Result<Seen, AllocError> {
    let equal = chosen_is_zero(terms)?;
    byte_where(terms, &equal)
}

fn missed<H: Home>(terms: &Terms<H>) -> Result<Seen, AllocError> {
    let equal = chosen_is_zero(terms)?;
    let unequal = not(terms, &equal)?;
    byte_where(terms, &unequal)
}

fn open<H: Home>(terms: &Terms<H>) -> Result<Seen, AllocError> {
    let memory = chosen_write(terms)?;
    plain_byte(terms, &memory)
}

/// The life of an object that was made and freed.
fn freed<H: Home>(terms: &Terms<H>) -> Result<Seen, AllocError> {
    let mut memory = started::<H>(terms.alloc())?;
    Plain::append(&mut memory, alloc_of_y(terms)?)?;
    Plain::append(&mut memory, Entry::free(y()))?;
    life_of_y(terms, &memory)
}

/// How much was read, a part of it in a recovered call.
fn passed<H: Home>(terms: &Terms<H>) -> Result<u64, AllocError> {
    let mut memory = started::<H>(terms.alloc())?;
    mark_one(terms.alloc(), &mut memory, 1, Location::Input)?;
    fill_one(terms.alloc(), &mut memory, 1, Location::Input, Entry::get())?;
    Plain::append(&mut memory, Entry::get())?;
    Ok(Plain::position(&memory))
}

fn first_in<H: Home>(list: &[Term<H>]) -> Option<Seen> {
    let first = list.first()?;
    Some(seen_in(first))
}

/// What was written out first.
fn put_first<H: Home>(terms: &Terms<H>) -> Result<Option<Seen>, AllocError> {
    let mut memory = started::<H>(terms.alloc())?;
    Plain::append(&mut memory, put(terms, 1)?)?;
    Plain::append(&mut memory, put(terms, 2)?)?;
    let written = Plain::output(&memory)?;
    Ok(first_in(written.as_slice()))
}

/// A write and a mark.
fn written<H: Home>(terms: &Terms<H>) -> Result<Memory<H, Plain>, AllocError> {
    let mut memory = started::<H>(terms.alloc())?;
    Plain::append(&mut memory, write(terms, 0, 1)?)?;
    mark_one(terms.alloc(), &mut memory, 1, cells_of_x())?;
    Ok(memory)
}

/// The lengths of a memory and of a copy that goes on.
fn lengths<H: Home>(terms: &Terms<H>) -> Result<(u64, u64), AllocError> {
    let memory = written(terms)?;
    let mut copy = Plain::copy_log(&memory)?;
    Plain::append(&mut copy, write(terms, 1, 2)?)?;
    Ok((Plain::length(&memory), Plain::length(&copy)))
}

/// The length of what stands before the mark.
fn length_before<H: Home>(terms: &Terms<H>) -> Result<u64, AllocError> {
    let memory = written(terms)?;
    let before = Plain::cut(&memory, CallId(1))?;
    Ok(Plain::length(&before))
}

/// How many entries of x were written in all.
fn entries_of_x<H: Home>(terms: &Terms<H>) -> Result<usize, AllocError> {
    let memory = written(terms)?;
    let entries = Plain::entries_since(&memory, 0, cells_of_x())?;
    Ok(entries.len())
}

fn needs_of<H: Home>(
    opened: Opened<Shape>,
    alloc: Global,
) -> Result<(Sequence<CallId>, Sequence<CallId>, Sequence<CallId>), AllocError>
    requires { opened.seen.book ≡ H.book }
{
    let terms = Terms::<H>::new(alloc, opened.named::<H>());
    let far = far_write(&terms)?;
    let allocated = needed(&terms, &filled_alloc(&terms)?, y())?;
    let covered = needed(&terms, &filled_write(&terms)?, x())?;
    Ok((far, allocated, covered))
}

#[test]
fn marks_are_needed_where_nothing_covers(rt: HostRuntime) -> Result<(), Fail> {
    let (far, allocated, covered) = needs_of::<Brand>(Opened::new(), rt.alloc())?;
    assert!(rt; far.as_slice() == [CallId(1)].as_slice());
    assert!(rt; allocated.as_slice() == [CallId(2)].as_slice());
    assert!(rt; covered.is_empty());
    Ok(())
}

fn bytes_of<H: Home>(opened: Opened<Shape>, alloc: Global) -> Result<[Seen; 5], AllocError>
    requires { opened.seen.book ≡ H.book }
{
    let terms = Terms::<H>::new(alloc, opened.named::<H>());
    let filled = plain_byte(&terms, &filled_write(&terms)?)?;
    let newer = filled_below(&terms)?;
    let open = open(&terms)?;
    let hit = hit(&terms)?;
    let missed = missed(&terms)?;
    Ok([filled, newer, open, hit, missed])
}

#[test]
fn the_input_decides_between_writes(rt: HostRuntime) -> Result<(), Fail> {
    let bytes = bytes_of::<Brand>(Opened::new(), rt.alloc())?;
    assert_eq!(rt; bytes[0], Seen::Number(3));
    assert_eq!(rt; bytes[1], Seen::Number(9));
    assert_eq!(rt; bytes[2], Seen::Term);
    assert_eq!(rt; bytes[3], Seen::Number(5));
    assert_eq!(rt; bytes[4], Seen::Number(9));
    Ok(())
}

fn lives_of<H: Home>(opened: Opened<Shape>, alloc: Global) -> Result<(Seen, Seen), AllocError>
    requires { opened.seen.book ≡ H.book }
{
    let terms = Terms::<H>::new(alloc, opened.named::<H>());
    let made = life_of_y(&terms, &filled_alloc(&terms)?)?;
    let freed = freed(&terms)?;
    Ok((made, freed))
}

#[test]
fn an_object_lives_until_it_is_freed(rt: HostRuntime) -> Result<(), Fail> {
    let lives = lives_of::<Brand>(Opened::new(), rt.alloc())?;
    assert_eq!(rt; lives.0, Seen::Number(4));
    assert_eq!(rt; lives.1, Seen::Dead);
    Ok(())
}

fn totals_of<H: Home>(
    opened: Opened<Shape>,
    alloc: Global,
) -> Result<(u64, Option<Seen>), AllocError>
    requires { opened.seen.book ≡ H.book }
{
    let terms = Terms::<H>::new(alloc, opened.named::<H>());
    let passed = passed(&terms)?;
    let first = put_first(&terms)?;
    Ok((passed, first))
}

#[test]
fn recovered_input_is_counted(rt: HostRuntime) -> Result<(), Fail> {
    let totals = totals_of::<Brand>(Opened::new(), rt.alloc())?;
    assert_eq!(rt; totals.0, 2);
    assert_eq!(rt; totals.1, Some(Seen::Number(1)));
    Ok(())
}

fn lengths_of<H: Home>(
    opened: Opened<Shape>,
    alloc: Global,
) -> Result<((u64, u64), u64, usize), AllocError>
    requires { opened.seen.book ≡ H.book }
{
    let terms = Terms::<H>::new(alloc, opened.named::<H>());
    let lengths = lengths(&terms)?;
    let before = length_before(&terms)?;
    let entries = entries_of_x(&terms)?;
    Ok((lengths, before, entries))
}

#[test]
fn a_copy_goes_on_alone(rt: HostRuntime) -> Result<(), Fail> {
    let (lengths, before, entries) = lengths_of::<Brand>(Opened::new(), rt.alloc())?;
    assert_eq!(rt; lengths, (2, 3));
    assert_eq!(rt; before, 1);
    assert_eq!(rt; entries, 1);
    Ok(())
}
