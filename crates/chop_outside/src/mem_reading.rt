//! Files in memory, whose calls fail where they are told to.
ghost use Rattle.std.specs.Prelude.{◌≡◌, ◌<◌, ◌≤◌, ◌+◌, length, take, drop, None, false, Some, [], string_bytes, true, nat_lt, ◌==◌, ◌&&◌, if◌then◌else◌};
ghost use Rattle.std.specs.Option.{option_map, ForSome};
ghost use Rattle.chop_outside.specs.MemReading.{contents_at, first_named};

use crate::{Fault, Files};

/// Files in memory, which tell what they hold. Each call passes at most `piece` bytes, and the calls whose numbers, from
/// 1, stand in `fails` fail.
#[derive(Drop)]
pub struct MemFiles {
    files: Vec<(String, Vec<u8>)>,
    piece: usize,
    fails: Vec<u64>,
    calls: u64,
    asked: Option<String>,
    opened: Option<usize>,
    at: usize,
    count: u64,
    ended: bool,
    faults: u64,
    ghost takes_some: { 1 ≤ piece },
    ghost there: { ForSome opened (λ place. place < length files.items) },
    ghost within: { ForSome opened (λ place. at ≤ length (contents_at files.items place)) },
    ghost asks_first: { asked ≡ None → opened ≡ None },
    ghost unread: { asked ≡ None → count ≡ 0 },
    ghost unended: { asked ≡ None → ended ≡ false },
}

impl MemFiles {
    ghost use Rattle.chop_outside.specs.MemReading.{are_fresh};
    ghost use Rattle.chop_outside.specs.MemState.{mem_files_state};

    /// Files of these names and contents, the first of each name.
    pub fn new(files: Vec<(String, Vec<u8>)>, piece: usize, fails: Vec<u64>) -> MemFiles
        requires { 1 ≤ piece }
        ensures { mem_files_state result ≡ are_fresh files.items }
    {
        MemFiles {
            files,
            piece,
            fails,
            calls: 0,
            asked: None,
            opened: None,
            at: 0,
            count: 0,
            ended: false,
            faults: 0,
        }
    }

    // Counts a call, and says whether it is to fail.
    fn is_failing(calls: &mut u64, fails: &[u64]) -> bool {
        *calls = calls.saturating_add(1);
        fails.contains(calls)
    }
}

// The place of the first file of that name.
fn place_of(files: &[(String, Vec<u8>)], name: &str) -> Option<usize>
    ensures contents { option_map (contents_at files.now) result ≡ first_named files.now name.now }
    ensures there { ForSome result (λ place. place < length files.now) }
{
    for (place, file) in files.iter().enumerate() {
        if file.0.as_str() == name {
            return Some(place);
        }
    }
    None
}

// What the file at a place holds.
fn contents(files: &[(String, Vec<u8>)], place: usize) -> &[u8]
    requires { place < length files.now }
    ensures { result.now ≡ contents_at files.now place }
{
    files[place].1.as_slice()
}

// Copies at most `most` bytes from there on, and some where there are any and there is room.
fn copy_from(contents: &[u8], at: usize, into: &mut [u8], most: usize) -> usize
    requires there { at ≤ length contents.now }
    requires some { 1 ≤ most }
    ensures within { result ≤ length into.new }
    ensures there { at + result ≤ length contents.now }
    ensures copied { take result into.new ≡ take result (drop at contents.now) }
    ensures some { result ≡ 0 → 0 < length into.new → drop at contents.now ≡ [] }
{
    let from = &contents[at..];
    let count = most.min(into.len()).min(from.len());
    into[..count].copy_from_slice(&from[..count]);
    count
}

// Whether the end was met, after so many bytes were read into a buffer.
pub(crate) fn is_ended(before: bool, count: usize, into: &[u8]) -> bool
    ensures { result ≡ (if (count == 0) && nat_lt 0 (length into.now) then true else before) }
{
    before || (count == 0 && !into.is_empty())
}

impl Files for MemFiles {
    ghost use Rattle.chop_outside.specs.MemReading.{none_asked};
    ghost use Rattle.chop_outside.specs.MemState.{mem_files_state};

    ghost state = { mem_files_state };

    fn open_file(&mut self, name: String) -> Result<(), Fault> {
        let fails = Self::is_failing(&mut self.calls, &self.fails);
        let place = place_of(&self.files, name.as_str());
        self.asked = Some(name);
        self.at = 0;
        self.opened = if fails { None } else { place };
        if self.opened.is_none() {
            self.faults += 1;
            return Err(Fault);
        }
        Ok(())
    }

    fn read(&mut self, into: &mut [u8]) -> Result<usize, Fault> {
        let fails = Self::is_failing(&mut self.calls, &self.fails);
        let Some(place) = self.opened else {
            unreachable!()
        };
        if fails {
            self.faults += 1;
            return Err(Fault);
        }
        let contents = contents(&self.files, place);
        let count = copy_from(contents, self.at, into, self.piece);
        self.at += count;
        self.count = self.count.saturating_add(count as u64);
        self.ended = is_ended(self.ended, count, into);
        Ok(count)
    }

    ghost unread = { λ m fresh. m.unread (none_asked m.asked fresh) };

    ghost unended = { λ m fresh. m.unended (none_asked m.asked fresh) };
}
