//! The traits.
ghost use Rattle.std.specs.Prelude.{◌≡◌, ◌<◌, ◌-◌, ◌^◌, string_bytes, None, false, IsTrue};
ghost use Rattle.chop_outside.specs.Reading.{FilesState, Opens, Reads};
ghost use Rattle.chop_outside.specs.Writing.{SinkState, Writes};

/// The outside refused a call, and the count of faults rose.
#[derive(Clone, Copy, Debug, PartialEq, Eq)]
pub struct Fault;

/// Named files, of which one is read.
///
/// An implementation may tell what the files hold or leave it untold. The count of faults never falls; a caller keeps it
/// below 2^64 - 1.
pub trait Files {
    /// What was asked for, what is left of it, and how often a call has failed.
    ghost state: { Self → FilesState };

    /// Opens the file of that name, the only one that is ever asked for. A name that isn't there is a `Fault`, after which
    /// no file is open.
    fn open_file(&mut self, name: String) -> Result<(), Fault>
        requires fresh { (state self.old).asked ≡ None }
        requires room { (state self.old).faults < 2 ^ 64 - 1 }
        ensures { Opens (string_bytes name) (state self.old) (state self.new) result };

    /// Reads some bytes into the front of a buffer, and 0 for a nonempty buffer only at the end, which this alone marks.
    /// After a `Fault` the bytes left are the same.
    fn read(&mut self, into: &mut [u8]) -> Result<usize, Fault>
        requires open { IsTrue (state self.old).is_open }
        requires room { (state self.old).faults < 2 ^ 64 - 1 }
        ensures { Reads (state self.old) (state self.new) into.new result };

    /// Nothing was read before a name was asked for.
    ghost unread: { (f : Self) → (state f).asked ≡ None → (state f).count ≡ 0 };

    /// No end was met before a name was asked for.
    ghost unended: { (f : Self) → (state f).asked ≡ None → (state f).ended ≡ false };
}

/// Takes the bytes that a program writes, and may tell what was written. The count of faults never falls; a caller keeps
/// it below 2^64 - 1.
pub trait Sink {
    /// What was written, and how often a call has failed.
    ghost state: { Self → SinkState };

    /// Takes some first bytes of a piece, and at least one of a nonempty piece. A `Fault` adds nothing.
    fn write(&mut self, bytes: &[u8]) -> Result<usize, Fault>
        requires { (state self.old).faults < 2 ^ 64 - 1 }
        ensures { Writes (state self.old) (state self.new) bytes.now result };
}

/// A worker passes it before each task. It changes no result.
pub trait Gate: Sync {
    /// Returns when the worker that has this ticket may go on.
    fn pass(&self, ticket: u64);
}
