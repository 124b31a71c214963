//! Commands: what the words of a call ask for.
ghost use Rattle.std.specs.Prelude.{◌≡◌, codes, map, option_map, slice_get, string_bytes, Some, IfOk, IfErr, IfSome};
ghost use Rattle.chop_words.specs.declared.words.Verb.TheVariants as verb;
ghost use Rattle.chop_words.specs.Words as spec;
ghost use Rattle.chop_words.specs.Words.{Printed, Sited, wanted, wanted_by, file_of, IsInRange, AreInRange, usage_line as usage_in, misfit, Misses};

use crate::options::Options;
use crate::words::{Verb, asked_of, fitting, hex_word};
use hex::FromHexError;
use std::alloc::{AllocError, Global};
use std::fmt;
use thiserror::Error;

/// A command: to explore the program of a file, to run it on an input for so many steps, to print its module, to tell where its pointers point
/// and what its functions change, or to tell what of it a location at the end of a function's call depends on.
#[derive(Drop)]
pub enum Command {
    Explore {
        options: Options,
        file: String,
    },
    Run {
        input: Vec<u8>,
        steps: u64,
        file: String,
    },
    Print {
        file: String,
    },
    Sites {
        file: String,
    },
    Slice {
        file: String,
        function: String,
        location: String,
    },
}

impl Command {
    /// The file that the command names.
    pub fn file(&self) -> &String
        ensures { string_bytes result.now ≡ file_of (wanted_by self.now) }
    {
        match self {
            Command::Explore { file, .. } => file,
            Command::Run { file, .. } => file,
            Command::Print { file } => file,
            Command::Sites { file } => file,
            Command::Slice { file, .. } => file,
        }
    }
}

/// Why words are no command: they aren't in the table, and `index` is the first that no command has after the words before it,
/// or the number of words.
#[derive(Drop, Error)]
pub enum UsageError {
    #[error("word {index} cannot stand there")]
    Usage { index: usize },
    #[error("out of memory")]
    Memory,
}

impl fmt::Debug for UsageError {
    fn fmt<W: fmt::Write>(&self, f: &mut fmt::Formatter<W>) -> fmt::Result {
        write!(f, "{self}")
    }
}

// A copy of the word at a place.
fn word_at(words: &[String], place: usize) -> Result<Option<String>, AllocError>
    ensures { IfOk result (λ word. option_map string_bytes word ≡ slice_get (map string_bytes words.now) place) }
{
    match words.get(place) {
        Some(word) => Ok(Some(word.clone()?)),
        None => Ok(None),
    }
}

fn last_word(words: &[String]) -> Result<Option<String>, AllocError>
    ensures { IfOk result (λ word. option_map string_bytes word ≡ spec.last_word (map string_bytes words.now)) }
{
    match words.last() {
        Some(word) => Ok(Some(word.clone()?)),
        None => Ok(None),
    }
}

// The bytes that a word says, in memory of the word's own kind.
fn bytes_in(word: &String) -> Result<Option<Vec<u8>>, AllocError>
    ensures { IfOk result (λ found. option_map (λ bytes. bytes.items) found ≡ spec.bytes_in (string_bytes word.now)) }
{
    let mut text = word.clone()?.into_bytes();
    if word.as_str() == "-" {
        text.clear();
        return Ok(Some(text));
    }
    match hex::decode(*text.allocator(), text.as_slice()) {
        Ok(bytes) => Ok(Some(bytes)),
        Err(FromHexError::OutOfMemory) => Err(AllocError),
        Err(_) => Ok(None),
    }
}

fn input_in(words: &[String]) -> Result<Option<Vec<u8>>, AllocError>
    ensures { IfOk result (λ found. option_map (λ bytes. bytes.items) found ≡ spec.input_of (spec.word_after (codes "--hex") (map string_bytes words.now))) }
{
    match hex_word(words) {
        Some(word) => bytes_in(word),
        None => Ok(None),
    }
}

fn exploring(words: &[String], options: Options) -> Result<Option<Command>, AllocError>
    requires { AreInRange options }
    ensures value { IfOk result (λ c. option_map wanted_by c ≡ spec.command_of verb.Explore options (map string_bytes words.now)) }
    ensures range { IfOk result (λ c. IfSome c (λ c. IsInRange (wanted_by c))) }
{
    match last_word(words)? {
        Some(file) => Ok(Some(Command::Explore { options, file })),
        None => Ok(None),
    }
}

fn running(words: &[String], options: Options) -> Result<Option<Command>, AllocError>
    requires { AreInRange options }
    ensures value { IfOk result (λ c. option_map wanted_by c ≡ spec.command_of verb.Run options (map string_bytes words.now)) }
    ensures range { IfOk result (λ c. IfSome c (λ c. IsInRange (wanted_by c))) }
{
    let steps = options.steps;
    let Some(input) = input_in(words)? else {
        return Ok(None);
    };
    match last_word(words)? {
        Some(file) => Ok(Some(Command::Run { input, steps, file })),
        None => Ok(None),
    }
}

fn printing(words: &[String]) -> Result<Option<Command>, AllocError>
    ensures value { IfOk result (λ c. option_map wanted_by c ≡ spec.of_file Printed (spec.last_word (map string_bytes words.now))) }
    ensures range { IfOk result (λ c. IfSome c (λ c. IsInRange (wanted_by c))) }
{
    match last_word(words)? {
        Some(file) => Ok(Some(Command::Print { file })),
        None => Ok(None),
    }
}

fn telling_sites(words: &[String]) -> Result<Option<Command>, AllocError>
    ensures value { IfOk result (λ c. option_map wanted_by c ≡ spec.of_file Sited (spec.last_word (map string_bytes words.now))) }
    ensures range { IfOk result (λ c. IfSome c (λ c. IsInRange (wanted_by c))) }
{
    match last_word(words)? {
        Some(file) => Ok(Some(Command::Sites { file })),
        None => Ok(None),
    }
}

fn slicing(words: &[String]) -> Result<Option<Command>, AllocError>
    ensures value { IfOk result (λ c. option_map wanted_by c ≡ spec.slice_of (slice_get (map string_bytes words.now) 1) (slice_get (map string_bytes words.now) 2) (slice_get (map string_bytes words.now) 3)) }
    ensures range { IfOk result (λ c. IfSome c (λ c. IsInRange (wanted_by c))) }
{
    let Some(file) = word_at(words, 1)? else {
        return Ok(None);
    };
    let Some(function) = word_at(words, 2)? else {
        return Ok(None);
    };
    match word_at(words, 3)? {
        Some(location) => Ok(Some(Command::Slice {
            file,
            function,
            location,
        })),
        None => Ok(None),
    }
}

fn command_of(verb: Verb, options: Options, words: &[String]) -> Result<Option<Command>, AllocError>
    requires { AreInRange options }
    ensures value { IfOk result (λ c. option_map wanted_by c ≡ spec.command_of verb options (map string_bytes words.now)) }
    ensures range { IfOk result (λ c. IfSome c (λ c. IsInRange (wanted_by c))) }
{
    match verb {
        Verb::Explore => exploring(words, options),
        Verb::Run => running(words, options),
        Verb::Print => printing(words),
        Verb::Sites => telling_sites(words),
        Verb::Slice => slicing(words),
    }
}

// The command of words that are in the table.
fn command_in(words: &[String]) -> Result<Option<Command>, AllocError>
    ensures value { IfOk result (λ c. option_map wanted_by c ≡ wanted (map string_bytes words.now)) }
    ensures range { IfOk result (λ c. IfSome c (λ c. IsInRange (wanted_by c))) }
{
    match asked_of(words) {
        Some((verb, options)) => command_of(verb, options, words),
        None => Ok(None),
    }
}

/// The command of words: `explore [--input N] [--steps S] [--leaves B] [--shares A] [--trace] [--conditions] FILE`,
/// `run --hex H --steps S FILE`, `print FILE`, `sites FILE` or `slice FILE FUNCTION LOCATION`. Options stand in any order, each at most once;
/// those of `run` are needed. `--trace` and `--conditions` are flags and stand alone, while each value stands in the word after its option's
/// name. N is at most 64, S and B are 1 to 1,000,000, A is 1 to 100,000; where they aren't named they are 4, 100,000, 10,000 and 1,024. A
/// number has no sign and no 0 in front. H is a dash, or two lower-case hexadecimal digits for each of 1 to 64 bytes. Each other word isn't
/// empty and doesn't begin with a dash.
///
/// # Errors
/// `Usage` exactly where the words aren't in this table; and `Memory`.
pub fn read_words(words: &[String]) -> Result<Command, UsageError>
    // What is asked for is what the words say.
    ensures command { IfOk result (λ c. wanted (map string_bytes words.now) ≡ Some (wanted_by c)) }
    // Its numbers are within their ranges.
    ensures range { IfOk result (λ c. IsInRange (wanted_by c)) }
    // Words that aren't in the table are refused, at the first that may not stand where it does.
    ensures usage { IfErr result (λ e. Misses e (map string_bytes words.now)) }
{
    match command_in(words) {
        Ok(Some(command)) => Ok(command),
        Ok(None) => Err(UsageError::Usage {
            index: fitting(words),
        }),
        Err(AllocError) => Err(UsageError::Memory),
    }
}

/// The line that names the first word that doesn't fit, by its place, or says that words are missing.
pub fn usage_line(alloc: Global, words: &[String], index: usize) -> Result<String, AllocError>
    ensures { index ≡ misfit (map string_bytes words.now) → IfOk result (λ line. string_bytes line ≡ usage_in (map string_bytes words.now)) }
{
    let word = match words.get(index) {
        Some(word) => word.as_str(),
        None => "end",
    };
    format!(in alloc; "usage {word}\n")
}
