//! The log of a path: what it did, a mark for each skipped call, and the fills that stand at the marks. Definitions of what
//! is read from it and what has to be recovered before, and the laws that tie it to the history of a run.
#![tactic(auto)]

ghost use Rattle.std.specs.Prelude.{◌≡◌, ◌≤◌, ◌<◌, ◌+◌, ◌%◌, ◌^◌, ◌∷◌, ◌++◌, ℕ, List, [], true, length, map, filter};
ghost use Rattle.terms.specs.Tree.{Tree};
ghost use Rattle.terms.specs.Value.{are_met_by};
ghost use Rattle.flat_ir.specs.declared.names.Location.{Location};
ghost use Rattle.flat_ir.specs.declared.names.Location.TheVariants as location;
ghost use Rattle.flat_ir.specs.declared.names.ObjectName.{ObjectName};
ghost use Rattle.flat_ir.specs.declared.program.ProgramData.{ProgramData};
ghost use Rattle.flat_ir.specs.History as history;
ghost use Rattle.flat_ir.specs.History.{History, byte_at};
ghost use Rattle.sym_bytes.specs.declared.names.CallId.{CallId};
ghost use Rattle.sym_bytes.specs.Answers as want;
ghost use Rattle.sym_bytes.specs.Answers.{Byte};
ghost use Rattle.sym_bytes.specs.Building.{behind};
ghost use Rattle.sym_bytes.specs.Byte.{SymByte};
ghost use Rattle.sym_bytes.specs.Entry.{Entry};
ghost use Rattle.sym_bytes.specs.Fitting.{IsWide, AreEntries};
ghost use Rattle.sym_bytes.specs.Under.{Results, bits_under, byte_under};
ghost use Rattle.log_laws.specs.Law.{IsBorn, IsOnce, LifeIs, Wants};
ghost use Rattle.flat_ir.specs.Locations.{cells_of, lies_in};
ghost use Rattle.log_laws.specs.Logs.{Did, Marked, Log, seen_at, life, position, output, fill};
ghost use Rattle.log_laws.specs.Needs.{need, need_bytes};
ghost use Rattle.log_laws.specs.Reading.{initial_bytes, read_byte};
ghost use Rattle.log_laws.specs.Standing.{Gave, changes_under, all_under, log_under, OnlyIn, StandsFor, StandsIn};

/// Where the log stands for the history and no skipped call is needed for so many bytes of an object, a byte that is read
/// of them is, under each input that meets the condition, the byte last written there.
pub fn reads_give_last_writes()
    ensures { (p : ProgramData) (input : List ℕ) (results : Results) (gave : Gave) (known : List Tree) (x : ObjectName) (offset : Tree) (count j : ℕ) (log : Log) (h : History) (b : SymByte)
        → are_met_by input known ≡ true → IsWide offset → j < count → count ≤ 8 → length (initial_bytes p.globals x) ≤ 2 ^ 64 → AreEntries (seen_at (cells_of x) log)
        → StandsFor log h input results gave → IsBorn x h
        → need (want.Bytes x offset count) log ≡ []
        → read_byte p.globals known x (behind offset j) log ≡ Byte b
        → byte_under input results b ≡ byte_at p h x ((bits_under input offset + j) % 2 ^ 64) }
{}

/// Where the log stands for the history and no skipped call is needed for an object's life, what it says of that is so.
pub fn lives_are_of_the_history()
    ensures { (p : ProgramData) (input : List ℕ) (results : Results) (gave : Gave) (x : ObjectName) (log : Log) (h : History)
        → StandsFor log h input results gave → IsOnce x h
        → need (want.Life x) log ≡ []
        → LifeIs p input x h (life p.globals x log) }
{}

/// Where no skipped call is needed for the input, the log's position is the history's.
pub fn positions_are_of_the_history()
    ensures { (input : List ℕ) (results : Results) (gave : Gave) (log : Log) (h : History)
        → StandsFor log h input results gave
        → need want.Input log ≡ []
        → position log ≡ history.position h }
{}

/// Where no skipped call is needed for the output, what the log has written out is, under the input, what the history has.
pub fn outputs_are_of_the_history()
    ensures { (input : List ℕ) (results : Results) (gave : Gave) (log : Log) (h : History)
        → StandsFor log h input results gave
        → need want.Output log ≡ []
        → map (bits_under input) (output log) ≡ history.output h }
{}

/// A fill with the part of the call's changes that lies in its location keeps that the log stands for the history.
pub fn fills_keep_the_history()
    ensures { (input : List ℕ) (results : Results) (gave : Gave) (call : CallId) (at : Location) (es : List Entry) (log : Log) (h : History)
        → all_under input results es ≡ filter (lies_in at) (gave call)
        → StandsFor log h input results gave
        → StandsFor (fill call at es log) h input results gave }
{}

/// An entry that is appended stands for its changes, and a mark for what its call changed, if that lies in what the mark
/// names.
pub fn appending_goes_on()
    ensures entry { (input : List ℕ) (results : Results) (gave : Gave) (e : Entry) (log : Log) (h : History)
        → StandsFor log h input results gave
        → StandsFor (Did e ∷ log) (changes_under input results e ++ h) input results gave }
    ensures mark { (input : List ℕ) (results : Results) (gave : Gave) (call : CallId) (mods : List Location) (log : Log) (h : History)
        → OnlyIn mods (gave call)
        → StandsFor log h input results gave
        → StandsFor (Marked call mods [] ∷ log) (gave call ++ h) input results gave }
{}

/// The same of bytes where the log stands for the history in the object's cells alone, as that of a part of a call does.
pub fn reads_in_one_location()
    ensures { (p : ProgramData) (input : List ℕ) (results : Results) (gave : Gave) (known : List Tree) (x : ObjectName) (offset : Tree) (count j : ℕ) (log : Log) (h : History) (b : SymByte)
        → are_met_by input known ≡ true → IsWide offset → j < count → count ≤ 8 → length (initial_bytes p.globals x) ≤ 2 ^ 64 → AreEntries (seen_at (cells_of x) log)
        → StandsIn (cells_of x) log h input results gave → IsBorn x (log_under input results gave log)
        → need (want.Bytes x offset count) log ≡ []
        → read_byte p.globals known x (behind offset j) log ≡ Byte b
        → byte_under input results b ≡ byte_at p h x ((bits_under input offset + j) % 2 ^ 64) }
{}
