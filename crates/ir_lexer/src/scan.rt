//! The longest token in front, found by scanning from its first byte.

ghost use Rattle.std.specs.Prelude.{◌≡◌, ◌<◌, ◌≤◌, ◌^◌, length, MatchOption, IfSome};
ghost use Rattle.ir_lexer.specs.Forms as forms;
ghost use Rattle.ir_lexer.specs.Lexing.{NoneFrom, IsTokenAt};
ghost use Rattle.ir_lexer.specs.Scanning as spec;
ghost use Rattle.ir_lexer.specs.Classes.{in_class};

use crate::classes::{Class, is_digit, is_mark_byte, is_name_start, is_word_start};
use crate::token::TokenKind;

/// How many bytes of a class stand in front.
fn run(class: Class, bytes: &[u8]) -> usize
    ensures value { result ≡ spec.run (in_class class) bytes.now }
    ensures within { result ≤ length bytes.now }
{
    for (i, byte) in bytes.iter().enumerate() {
        if !class.has(*byte) {
            return i;
        }
    }
    bytes.len()
}

/// Whether a text stands in front.
fn begins(text: &[u8], bytes: &[u8]) -> bool
    ensures { result ≡ spec.begins text.now bytes.now }
{
    bytes.len() >= text.len() && text == &bytes[..text.len()]
}

/// How many bytes of a class stand in front with the ending behind them, the ending's bytes among them.
fn run_to(class: Class, ending: &[u8], bytes: &[u8]) -> Option<usize>
    ensures value { result ≡ spec.run_to (in_class class) ending.now bytes.now }
    ensures within { IfSome result (λ n. n ≤ length bytes.now) }
{
    let len = run(class, bytes);
    let rest = &bytes[len..];
    if begins(ending, rest) {
        Some(len + ending.len())
    } else {
        None
    }
}

/// A name without quotes.
fn plain_name(bytes: &[u8]) -> Option<usize>
    ensures value { result ≡ spec.plain_name bytes.now }
    ensures within { IfSome result (λ n. n ≤ length bytes.now) }
{
    match bytes {
        [] => None,
        [first, rest @ ..] => {
            if is_name_start(*first) {
                Some(run(Class::Name, rest) + 1)
            } else {
                None
            }
        }
    }
}

/// Digits.
fn number(bytes: &[u8]) -> Option<usize>
    ensures value { result ≡ spec.number bytes.now }
    ensures within { IfSome result (λ n. n ≤ length bytes.now) }
{
    match bytes {
        [] => None,
        [first, rest @ ..] => {
            if is_digit(*first) {
                Some(run(Class::Digit, rest) + 1)
            } else {
                None
            }
        }
    }
}

/// A length with the byte in front.
fn one_more(len: Option<usize>) -> Option<usize>
    requires { IfSome len (λ n. n < 2 ^ 63) }
    ensures { result ≡ spec.one_more len }
{
    match len {
        Some(n) => Some(n + 1),
        None => None,
    }
}

/// `".."`
fn quoted(bytes: &[u8]) -> Option<usize>
    ensures value { result ≡ spec.quoted bytes.now }
    ensures within { IfSome result (λ n. n ≤ length bytes.now) }
{
    match bytes {
        [] => None,
        [first, rest @ ..] => {
            if *first == 34 {
                one_more(run_to(Class::Unquoted, b"\"", rest))
            } else {
                None
            }
        }
    }
}

/// A quoted name, a number, or a name without quotes.
fn name(bytes: &[u8]) -> Option<usize>
    ensures value { result ≡ spec.name bytes.now }
    ensures within { IfSome result (λ n. n ≤ length bytes.now) }
{
    match bytes {
        [] => None,
        [first, rest @ ..] => {
            if *first == 34 {
                one_more(run_to(Class::Unquoted, b"\"", rest))
            } else if is_digit(*first) {
                Some(run(Class::Digit, rest) + 1)
            } else if is_name_start(*first) {
                Some(run(Class::Name, rest) + 1)
            } else {
                None
            }
        }
    }
}

/// What follows the first byte of a label.
fn label_behind(first: u8, rest: &[u8]) -> Option<usize>
    ensures value { result ≡ spec.label_behind first rest.now }
    ensures within { IfSome result (λ n. n ≤ length rest.now) }
{
    if first == 34 {
        run_to(Class::Unquoted, b"\":", rest)
    } else if is_digit(first) {
        run_to(Class::Digit, b":", rest)
    } else if is_name_start(first) {
        run_to(Class::Name, b":", rest)
    } else {
        None
    }
}

/// A token's kind, and how many bytes follow its first one.
type Found = Option<(TokenKind, usize)>;

fn of_kind(kind: TokenKind, len: Option<usize>) -> Found
    ensures { result ≡ spec.of_kind kind len }
{
    match len {
        Some(n) => Some((kind, n)),
        None => None,
    }
}

/// Behind `#`.
fn after_hash(rest: &[u8]) -> Found
    ensures value { result ≡ spec.after_hash rest.now }
    ensures within { IfSome result (λ x. x.1 ≤ length rest.now) }
{
    if let Some(n) = number(rest) {
        return Some((TokenKind::AttrGroup, n));
    }
    of_kind(TokenKind::Punct, plain_name(rest))
}

/// Behind `!`.
fn after_bang(rest: &[u8]) -> Found
    ensures value { result ≡ spec.after_bang rest.now }
    ensures within { IfSome result (λ x. x.1 ≤ length rest.now) }
{
    if let Some(n) = number(rest) {
        return Some((TokenKind::Meta, n));
    }
    if let Some(n) = plain_name(rest) {
        return Some((TokenKind::Meta, n));
    }
    Some((TokenKind::Meta, 0))
}

/// A word, or a string with a `c` before it.
fn word_or_string(first: u8, rest: &[u8]) -> Found
    ensures value { result ≡ spec.word_or_string first rest.now }
    ensures within { IfSome result (λ x. x.1 ≤ length rest.now) }
{
    if first == 99 {
        if let Some(n) = quoted(rest) {
            return Some((TokenKind::CStr, n));
        }
    }
    Some((TokenKind::Word, run(Class::Word, rest)))
}

/// `...`
fn dots(first: u8, rest: &[u8]) -> Found
    ensures value { result ≡ spec.dots first rest.now }
    ensures within { IfSome result (λ x. x.1 ≤ length rest.now) }
{
    if first == 46 && begins(b"..", rest) {
        Some((TokenKind::Punct, 2))
    } else {
        None
    }
}

/// A mark of one or two bytes.
fn marks(first: u8, rest: &[u8]) -> Found
    ensures value { result ≡ spec.marks first rest.now }
    ensures within { IfSome result (λ x. x.1 ≤ length rest.now) }
{
    if first == 60 && begins(b"{", rest) || first == 125 && begins(b">", rest) {
        Some((TokenKind::Punct, 1))
    } else if is_mark_byte(first) {
        Some((TokenKind::Punct, 0))
    } else {
        None
    }
}

/// The longest token that begins with this byte and isn't a label.
fn found_behind(first: u8, rest: &[u8]) -> Found
    ensures value { result ≡ spec.found_behind first rest.now }
    ensures within { IfSome result (λ x. x.1 ≤ length rest.now) }
{
    if first == 64 {
        of_kind(TokenKind::Global, name(rest))
    } else if first == 37 {
        of_kind(TokenKind::Local, name(rest))
    } else if first == 35 {
        after_hash(rest)
    } else if first == 33 {
        after_bang(rest)
    } else if first == 34 {
        of_kind(TokenKind::Str, run_to(Class::Unquoted, b"\"", rest))
    } else if is_word_start(first) {
        word_or_string(first, rest)
    } else if is_digit(first) {
        Some((TokenKind::Int, run(Class::Digit, rest)))
    } else if first == 45 {
        of_kind(TokenKind::Int, number(rest))
    } else if is_name_start(first) {
        dots(first, rest)
    } else {
        marks(first, rest)
    }
}

/// The longest token that begins with this byte.
fn found_whole(first: u8, rest: &[u8]) -> Found
    ensures value { result ≡ spec.found_whole first rest.now }
    ensures within { IfSome result (λ x. x.1 ≤ length rest.now) }
{
    if let Some(n) = label_behind(first, rest) {
        return Some((TokenKind::Label, n));
    }
    found_behind(first, rest)
}

/// The longest token in front, by its kind and length.
pub fn token_at(bytes: &[u8]) -> Option<(TokenKind, usize)>
    requires { 0 < length bytes.now }
    ensures { MatchOption result (NoneFrom bytes.now 1) (λ x. IsTokenAt bytes.now x.0 x.1) }
{
    match found_whole(bytes[0], &bytes[1..]) {
        Some((kind, n)) => Some((kind, n + 1)),
        None => None,
    }
}
