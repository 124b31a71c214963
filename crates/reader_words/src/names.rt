//! Names, and the texts of strings.

ghost use Rattle.std.specs.Prelude.{◌≡◌, ◌≤◌, ◌<◌, ◌∷◌, [], length, IfOk, IfSome, MatchOption};
ghost use Rattle.ir_grammar.specs.Names as spec;
ghost use Rattle.ir_grammar.specs.Types.{global_name as global_phrase, local_name as local_phrase, label_name as label_phrase};
ghost use Rattle.reader_words.specs.Source.{pieces};
ghost use Rattle.reader_words.specs.Gives.{Gives};

use crate::source::Source;
use crate::stop::Stop;
use ir_lexer::token::TokenKind;
use ir_tree::types::Name;
use plain_list::Sequence;
use std::alloc::{AllocError, Global};

fn is_hex(byte: u8) -> bool
    ensures { result ≡ spec.is_hex byte }
{
    matches!(byte, b'0'..=b'9' | b'A'..=b'F' | b'a'..=b'f')
}

fn hex_value(byte: u8) -> u8
    ensures { result ≡ spec.hex_value byte }
{
    if byte <= 57 {
        byte.saturating_sub(48)
    } else if byte <= 70 {
        byte.saturating_sub(55)
    } else {
        byte.saturating_sub(87)
    }
}

/// What a backslash stands for with what is behind it, and the bytes behind that.
#[tactic(auto, using(crate::proofs::Escapes::escapes))]
fn escape_of(more: &[u8]) -> (u8, &[u8])
    ensures value { spec.unescaped (92 ∷ more.now) ≡ result.0 ∷ spec.unescaped result.1.now }
    ensures within { length result.1.now ≤ length more.now }
{
    let Some((second, rest)) = more.split_first() else {
        return (b'\\', more);
    };
    if *second == b'\\' {
        return (b'\\', rest);
    }
    let Some((third, last)) = rest.split_first() else {
        return (b'\\', more);
    };
    if is_hex(*second) && is_hex(*third) {
        return (16 * hex_value(*second) + hex_value(*third), last);
    }
    (b'\\', more)
}

/// The first byte with its escape undone, and what is behind it.
#[tactic(auto, using(crate::proofs::Escapes::escapes))]
fn next_byte(text: &[u8]) -> Option<(u8, &[u8])>
    ensures next { MatchOption result (text.now ≡ []) (λ x. spec.unescaped text.now ≡ x.0 ∷ spec.unescaped x.1.now) }
    ensures shorter { IfSome result (λ x. length x.1.now < length text.now) }
{
    let (first, more) = text.split_first()?;
    if *first == b'\\' {
        return Some(escape_of(more));
    }
    Some((*first, more))
}

/// The text with its escapes undone.
fn unescaped(alloc: Global, text: &[u8]) -> Result<Vec<u8>, AllocError>
    ensures { IfOk result (λ found. found.items ≡ spec.unescaped text.now) }
{
    let mut found = Vec::new(alloc);
    let mut rest = text;
    'bytes: while let Some((byte, more)) = next_byte(rest) {
        found.push(byte)?;
        rest = more;
    }
    Ok(found)
}

#[tactic(auto, using(crate::proofs::Escapes::front_of))]
fn without_last(text: &[u8]) -> &[u8]
    ensures { result.now ≡ spec.without_last text.now }
{
    match text.split_last() {
        None => text,
        Some((_, front)) => front,
    }
}

/// The name with its quotes undone.
fn name_of(alloc: Global, text: &[u8]) -> Result<Sequence<u8>, AllocError>
    ensures { IfOk result (λ name. name ≡ spec.name_of text.now) }
{
    match text.split_first() {
        Some((first, rest)) if *first == b'"' => {
            Ok(Sequence::from_vec(unescaped(alloc, without_last(rest))?))
        }
        _ => Sequence::from_slice(alloc, text),
    }
}

/// The name of a text with `@` or `%` in front.
pub fn after_sigil(alloc: Global, text: &[u8]) -> Result<Sequence<u8>, AllocError>
    ensures { IfOk result (λ name. name ≡ spec.after_sigil text.now) }
{
    match text.split_first() {
        None => Ok(Sequence::new(alloc)),
        Some((_, rest)) => name_of(alloc, rest),
    }
}

/// The name of a text with a colon behind it.
fn before_colon(alloc: Global, text: &[u8]) -> Result<Sequence<u8>, AllocError>
    ensures { IfOk result (λ name. name ≡ spec.before_colon text.now) }
{
    name_of(alloc, without_last(text))
}

/// The bytes of a text `c".."`.
pub fn string_bytes(alloc: Global, text: &[u8]) -> Result<Sequence<u8>, AllocError>
    ensures { IfOk result (λ bytes. bytes ≡ spec.string_bytes text.now) }
{
    match text.split_first() {
        None => Ok(Sequence::new(alloc)),
        Some((_, rest)) => name_of(alloc, rest),
    }
}

/// A name with `@` in front.
pub fn global_name<'a>(alloc: Global, source: Source<'a>) -> Result<(Name, Source<'a>), Stop<'a>>
    ensures { Gives result (global_phrase.reads (pieces source.entry)) }
{
    match source.next() {
        Some((found, rest)) if found.is(TokenKind::Global) => {
            let text = after_sigil(alloc, found.text)?;
            Ok((Name { text, at: found.at }, rest))
        }
        _ => Err(Stop::Refused(false, source)),
    }
}

/// A name with `%` in front.
pub fn local_name<'a>(alloc: Global, source: Source<'a>) -> Result<(Name, Source<'a>), Stop<'a>>
    ensures { Gives result (local_phrase.reads (pieces source.entry)) }
{
    match source.next() {
        Some((found, rest)) if found.is(TokenKind::Local) => {
            let text = after_sigil(alloc, found.text)?;
            Ok((Name { text, at: found.at }, rest))
        }
        _ => Err(Stop::Refused(false, source)),
    }
}

/// A name with a colon behind it.
pub fn label_name<'a>(alloc: Global, source: Source<'a>) -> Result<(Name, Source<'a>), Stop<'a>>
    ensures { Gives result (label_phrase.reads (pieces source.entry)) }
{
    match source.next() {
        Some((found, rest)) if found.is(TokenKind::Label) => {
            let text = before_colon(alloc, found.text)?;
            Ok((Name { text, at: found.at }, rest))
        }
        _ => Err(Stop::Refused(false, source)),
    }
}
