//! The words of the program, one after the other: what may stand next, and what was heard so far.
ghost use Rattle.std.specs.Prelude.{◌≡◌, ◌≤◌, ◌<◌, ℕ, List, ◌∷◌, IfSome, codes, map, option_map, string_bytes, Some};
ghost use Rattle.std.specs.List.{list_all};
ghost use Rattle.chop_words.specs.declared.words.Choice.TheVariants.{Bytes};
ghost use Rattle.chop_words.specs.Words as spec;
ghost use Rattle.chop_words.specs.Words.{AreInRange};

use crate::options::Options;
use ir_lexer::classes::is_number;

/// What is to be done.
#[derive(Clone, Copy, Debug, PartialEq, Eq)]
pub enum Verb {
    Explore,
    Run,
    Print,
    Sites,
    Slice,
}

/// An option that has a number.
#[derive(Clone, Copy, Debug, PartialEq, Eq)]
pub enum Setting {
    Input,
    Steps,
    Leaves,
    Shares,
}

/// An option that stands alone.
#[derive(Clone, Copy, Debug, PartialEq, Eq)]
pub enum Flag {
    Trace,
    Conditions,
}

/// An option: one that has a number, the one that has bytes, or one that stands alone.
#[derive(Clone, Copy, Debug, PartialEq, Eq)]
pub enum Choice {
    Number(Setting),
    Bytes,
    Switch(Flag),
}

/// Which options were named.
#[derive(Clone, Copy, Debug)]
pub struct Given {
    pub input: bool,
    pub steps: bool,
    pub leaves: bool,
    pub shares: bool,
    pub bytes: bool,
    pub trace: bool,
    pub conditions: bool,
}

/// What may stand next: the command, one of its options or its file, an option's value, a function, a location, or nothing.
#[derive(Clone, Copy, Debug)]
pub enum Stage {
    Start,
    Open(Verb),
    Value(Verb, Choice),
    Function,
    Location,
    End(Verb),
}

/// What was heard so far.
#[derive(Clone, Copy, Debug)]
pub struct Heard {
    pub stage: Stage,
    pub given: Given,
    pub options: Options,
}

const NOTHING: Heard = Heard {
    stage: Stage::Start,
    given: Given {
        input: false,
        steps: false,
        leaves: false,
        shares: false,
        bytes: false,
        trace: false,
        conditions: false,
    },
    options: Options {
        input: 4,
        steps: 100_000,
        leaves: 10_000,
        shares: 1_024,
        trace: false,
        conditions: false,
    },
};

fn verb_named(word: &str) -> Option<Verb>
    ensures { result ≡ spec.verb_named word.now }
{
    match word {
        "explore" => Some(Verb::Explore),
        "run" => Some(Verb::Run),
        "print" => Some(Verb::Print),
        "sites" => Some(Verb::Sites),
        "slice" => Some(Verb::Slice),
        _ => None,
    }
}

fn takes(verb: Verb, choice: Choice) -> bool
    ensures { result ≡ spec.takes verb choice }
{
    match (verb, choice) {
        (Verb::Explore, Choice::Number(_) | Choice::Switch(_)) => true,
        (Verb::Run, Choice::Bytes | Choice::Number(Setting::Steps)) => true,
        (Verb::Explore | Verb::Run | Verb::Print | Verb::Sites | Verb::Slice, _) => false,
    }
}

fn is_given(choice: Choice, given: Given) -> bool
    ensures { result ≡ spec.is_given choice given }
{
    match choice {
        Choice::Number(Setting::Input) => given.input,
        Choice::Number(Setting::Steps) => given.steps,
        Choice::Number(Setting::Leaves) => given.leaves,
        Choice::Number(Setting::Shares) => given.shares,
        Choice::Bytes => given.bytes,
        Choice::Switch(Flag::Trace) => given.trace,
        Choice::Switch(Flag::Conditions) => given.conditions,
    }
}

fn with_given(choice: Choice, given: Given) -> Given
    ensures { result ≡ spec.with_given choice given }
{
    match choice {
        Choice::Number(Setting::Input) => Given {
            input: true,
            ..given
        },
        Choice::Number(Setting::Steps) => Given {
            steps: true,
            ..given
        },
        Choice::Number(Setting::Leaves) => Given {
            leaves: true,
            ..given
        },
        Choice::Number(Setting::Shares) => Given {
            shares: true,
            ..given
        },
        Choice::Bytes => Given {
            bytes: true,
            ..given
        },
        Choice::Switch(Flag::Trace) => Given {
            trace: true,
            ..given
        },
        Choice::Switch(Flag::Conditions) => Given {
            conditions: true,
            ..given
        },
    }
}

// Whether no option is missing that the command needs.
fn has_needed(verb: Verb, given: Given) -> bool
    ensures { result ≡ spec.has_needed verb given }
{
    match verb {
        Verb::Run => given.steps && given.bytes,
        Verb::Explore | Verb::Print | Verb::Sites | Verb::Slice => true,
    }
}

fn low(setting: Setting) -> u64
    ensures { result ≡ spec.low setting }
{
    match setting {
        Setting::Input => 0,
        Setting::Steps | Setting::Leaves | Setting::Shares => 1,
    }
}

fn high(setting: Setting) -> u64
    ensures high { result ≡ spec.high setting }
    ensures small { result ≤ 1000000 }
{
    match setting {
        Setting::Input => 64,
        Setting::Steps | Setting::Leaves => 1_000_000,
        Setting::Shares => 100_000,
    }
}

fn named(word: &str) -> Option<Choice>
    ensures { result ≡ spec.named word.now }
{
    match word {
        "--input" => Some(Choice::Number(Setting::Input)),
        "--steps" => Some(Choice::Number(Setting::Steps)),
        "--leaves" => Some(Choice::Number(Setting::Leaves)),
        "--shares" => Some(Choice::Number(Setting::Shares)),
        "--hex" => Some(Choice::Bytes),
        "--trace" => Some(Choice::Switch(Flag::Trace)),
        "--conditions" => Some(Choice::Switch(Flag::Conditions)),
        _ => None,
    }
}

fn with_number(setting: Setting, number: u64, options: Options) -> Options
    requires least { spec.low setting ≤ number }
    requires most { number ≤ spec.high setting }
    requires range { AreInRange options }
    ensures value { result ≡ spec.with_number setting number options }
    ensures range { AreInRange result }
{
    match setting {
        Setting::Input => Options {
            input: number as u8,
            ..options
        },
        Setting::Steps => Options {
            steps: number,
            ..options
        },
        Setting::Leaves => Options {
            leaves: number,
            ..options
        },
        Setting::Shares => Options {
            shares: number,
            ..options
        },
    }
}

fn with_flag(flag: Flag, options: Options) -> Options
    requires { AreInRange options }
    ensures value { result ≡ spec.with_flag flag options }
    ensures range { AreInRange result }
{
    match flag {
        Flag::Trace => Options {
            trace: true,
            ..options
        },
        Flag::Conditions => Options {
            conditions: true,
            ..options
        },
    }
}

fn starts_plain(word: &[u8]) -> bool
    ensures { result ≡ spec.starts_plain word.now }
{
    match word {
        [] => false,
        [_] => true,
        [first, ..] => *first != b'0',
    }
}

fn at_most(most: u64, number: u64) -> Option<u64>
    ensures value { result ≡ spec.at_most most number }
    ensures most { IfSome result (λ n. n ≤ most) }
{
    if number <= most { Some(number) } else { None }
}

// A number with a digit more, if that is at most so much.
#[tactic(auto, using(crate::proofs::Numbers::one_more))]
fn with_digit(number: Option<u64>, digit: u8, most: u64) -> Option<u64>
    requires small { most ≤ 1000000 }
    requires within { IfSome number (λ n. n ≤ most) }
    ensures value { (more : List ℕ) → spec.within most result more ≡ spec.within most number (digit ∷ more) }
    ensures most { IfSome result (λ n. n ≤ most) }
{
    match number {
        Some(number) => at_most(most, number * 10 + u64::from(digit.saturating_sub(b'0'))),
        None => None,
    }
}

// What digits are worth, if that is at most so much.
#[tactic(auto, using(crate::proofs::Numbers::no_more))]
fn worth(digits: &[u8], most: u64) -> Option<u64>
    requires { most ≤ 1000000 }
    ensures value { result ≡ spec.within most (Some 0) digits.now }
    ensures most { IfSome result (λ n. n ≤ most) }
{
    let mut number = Some(0);
    'bytes: for byte in digits {
        number = with_digit(number, *byte, most);
    }
    number
}

fn at_least(least: u64, number: Option<u64>) -> Option<u64>
    ensures value { result ≡ spec.at_least least number }
    ensures least { IfSome result (λ n. least ≤ n) }
    ensures same { (most : ℕ) → IfSome number (λ n. n ≤ most) → IfSome result (λ n. n ≤ most) }
{
    match number {
        Some(number) => { if least <= number { Some(number) } else { None } }
        None => None,
    }
}

fn number_in(setting: Setting, word: &str) -> Option<u64>
    ensures value { result ≡ spec.number_in setting word.now }
    ensures range { IfSome result (λ n. (spec.low setting ≤ n) × (n ≤ spec.high setting)) }
{
    let digits = word.as_bytes();
    if is_number(digits) && starts_plain(digits) {
        at_least(low(setting), worth(digits, high(setting)))
    } else {
        None
    }
}

fn is_lower_digit(byte: u8) -> bool
    ensures { result ≡ spec.is_lower_digit byte }
{
    (48 <= byte && byte <= 57) || (97 <= byte && byte <= 102)
}

fn are_lower_digits(word: &[u8]) -> bool
    ensures { result ≡ list_all spec.is_lower_digit word.now }
{
    word.iter().all(|byte| is_lower_digit(*byte))
}

fn is_hex(word: &str) -> bool
    ensures { result ≡ spec.is_hex word.now }
{
    let digits = word.as_bytes();
    word == "-"
        || (2 <= digits.len()
            && digits.len() <= 128
            && digits.len() % 2 == 0
            && are_lower_digits(digits))
}

fn is_positional(word: &str) -> bool
    ensures { result ≡ spec.is_positional word.now }
{
    match word.as_bytes().first() {
        Some(byte) => *byte != b'-',
        None => false,
    }
}

fn at_stage(stage: Stage, heard: Heard) -> Heard
    ensures { result ≡ record heard { stage = stage } }
{
    Heard { stage, ..heard }
}

fn begun(heard: Heard, verb: Option<Verb>) -> Option<Heard>
    requires { AreInRange heard.options }
    ensures value { result ≡ spec.begun heard verb }
    ensures range { IfSome result (λ h. AreInRange h.options) }
{
    match verb {
        Some(verb) => Some(at_stage(Stage::Open(verb), heard)),
        None => None,
    }
}

fn placed(heard: Heard, stage: Stage, positional: bool) -> Option<Heard>
    requires { AreInRange heard.options }
    ensures value { result ≡ spec.placed heard stage positional }
    ensures range { IfSome result (λ h. AreInRange h.options) }
{
    if positional {
        Some(at_stage(stage, heard))
    } else {
        None
    }
}

fn behind_file(verb: Verb) -> Stage
    ensures { result ≡ spec.behind_file verb }
{
    match verb {
        Verb::Slice => Stage::Function,
        Verb::Explore | Verb::Run | Verb::Print | Verb::Sites => Stage::End(verb),
    }
}

// What was heard with an option's name more: an option that stands alone is set, and another one waits for its value.
fn taken(verb: Verb, choice: Choice, heard: Heard) -> Heard
    requires { AreInRange heard.options }
    ensures value { result ≡ spec.taken verb choice heard }
    ensures range { AreInRange result.options }
{
    match choice {
        Choice::Switch(flag) => Heard {
            stage: Stage::Open(verb),
            given: with_given(choice, heard.given),
            options: with_flag(flag, heard.options),
        },
        Choice::Number(_) | Choice::Bytes => at_stage(Stage::Value(verb, choice), heard),
    }
}

fn chosen(verb: Verb, heard: Heard, named: Option<Choice>, positional: bool) -> Option<Heard>
    requires { AreInRange heard.options }
    ensures value { result ≡ spec.chosen verb heard named positional }
    ensures range { IfSome result (λ h. AreInRange h.options) }
{
    match named {
        Some(choice) => {
            if takes(verb, choice) && !is_given(choice, heard.given) {
                Some(taken(verb, choice, heard))
            } else {
                None
            }
        }
        None => placed(
            heard,
            behind_file(verb),
            positional && has_needed(verb, heard.given),
        ),
    }
}

fn numbered(verb: Verb, setting: Setting, heard: Heard, word: &str) -> Option<Heard>
    requires { AreInRange heard.options }
    ensures value { result ≡ spec.numbered verb setting heard (spec.number_in setting word.now) }
    ensures range { IfSome result (λ h. AreInRange h.options) }
{
    match number_in(setting, word) {
        Some(number) => Some(Heard {
            stage: Stage::Open(verb),
            given: with_given(Choice::Number(setting), heard.given),
            options: with_number(setting, number, heard.options),
        }),
        None => None,
    }
}

fn with_bytes(verb: Verb, heard: Heard, word: &str) -> Option<Heard>
    requires { AreInRange heard.options }
    ensures value { result ≡ spec.set verb Bytes heard word.now }
    ensures range { IfSome result (λ h. AreInRange h.options) }
{
    if is_hex(word) {
        Some(Heard {
            stage: Stage::Open(verb),
            given: with_given(Choice::Bytes, heard.given),
            ..heard
        })
    } else {
        None
    }
}

fn set(verb: Verb, choice: Choice, heard: Heard, word: &str) -> Option<Heard>
    requires { AreInRange heard.options }
    ensures value { result ≡ spec.set verb choice heard word.now }
    ensures range { IfSome result (λ h. AreInRange h.options) }
{
    match choice {
        Choice::Number(setting) => numbered(verb, setting, heard, word),
        Choice::Bytes => with_bytes(verb, heard, word),
        Choice::Switch(_) => None,
    }
}

// What was heard with a word more, if the word may stand there.
fn next(heard: Heard, word: &str) -> Option<Heard>
    requires { AreInRange heard.options }
    ensures value { result ≡ spec.next heard.stage heard word.now }
    ensures range { IfSome result (λ h. AreInRange h.options) }
{
    match heard.stage {
        Stage::Start => begun(heard, verb_named(word)),
        Stage::Open(verb) => chosen(verb, heard, named(word), is_positional(word)),
        Stage::Value(verb, choice) => set(verb, choice, heard, word),
        Stage::Function => placed(heard, Stage::Location, is_positional(word)),
        Stage::Location => placed(heard, Stage::End(Verb::Slice), is_positional(word)),
        Stage::End(_) => None,
    }
}

fn then_heard(heard: Option<Heard>, word: &str) -> Option<Heard>
    requires { IfSome heard (λ h. AreInRange h.options) }
    ensures value { result ≡ spec.then_heard heard word.now }
    ensures range { IfSome result (λ h. AreInRange h.options) }
{
    match heard {
        Some(heard) => next(heard, word),
        None => None,
    }
}

// What was heard with all words, if each may stand where it does.
fn hear_all(words: &[String]) -> Option<Heard>
    ensures value { result ≡ spec.heard (Some spec.nothing_heard) (map string_bytes words.now) }
    ensures range { IfSome result (λ h. AreInRange h.options) }
{
    let mut so_far = Some(NOTHING);
    'words: for word in words {
        so_far = then_heard(so_far, word.as_str());
    }
    so_far
}

/// How many words stand where they may, from the first on.
pub fn fitting(words: &[String]) -> usize
    ensures { result ≡ spec.fitting (Some spec.nothing_heard) (map string_bytes words.now) }
{
    let mut so_far = NOTHING;
    for (place, word) in words.iter().enumerate() {
        match next(so_far, word.as_str()) {
            Some(more) => so_far = more,
            None => return place,
        }
    }
    words.len()
}

/// The command with its options, where the words are in the table.
pub fn asked_of(words: &[String]) -> Option<(Verb, Options)>
    ensures value { result ≡ spec.asked_of (spec.heard (Some spec.nothing_heard) (map string_bytes words.now)) }
    ensures range { IfSome result (λ asked. AreInRange asked.1) }
{
    match hear_all(words) {
        Some(
            Heard {
                stage: Stage::End(verb),
                options,
                ..
            },
        ) => Some((verb, options)),
        _ => None,
    }
}

/// The word after `--hex`.
pub fn hex_word(words: &[String]) -> Option<&String>
    ensures { option_map (λ word. string_bytes word.now) result ≡ spec.word_after (codes "--hex") (map string_bytes words.now) }
{
    let mut rest = words;
    'words: while let Some((word, more)) = rest.split_first() {
        if word.as_str() == "--hex" {
            return more.first();
        }
        rest = more;
    }
    None
}
