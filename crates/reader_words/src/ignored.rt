//! What is read and has no place in the tree: flags, attributes, alignments and attachments; and lists that end where
//! attachments begin.

ghost use Rattle.std.specs.Prelude.{◌≡◌, ◌∷◌, ◌++◌, [], map, OnOk};
ghost use Rattle.phrases.specs.Piece.{starts};
ghost use Rattle.phrases.specs.Phrase.{got, skip, but};
ghost use Rattle.ir_grammar.specs.Tokens.{words, integer_type};
ghost use Rattle.ir_grammar.specs.Words.{attribute_words, linkage_words};
ghost use Rattle.ir_grammar.specs.Types.{flags as flags_phrase, alignment as alignment_phrase, long_attribute as long_phrase, attribute_or, attribute_starts, attributes as attributes_phrase};
ghost use Rattle.ir_grammar.specs.Instructions.{attached as attached_phrase, after as after_phrase, after_alloca as after_alloca_phrase, string_attribute as string_phrase, tail_item as tail_item_phrase, tail_starts, tail as tail_phrase, volatile as volatile_phrase, tail_mark as tail_mark_phrase, attachments_begun, present};
ghost use Rattle.ir_grammar.specs.Module.{ignored as ignored_phrase};
ghost use Rattle.reader_words.specs.Source.{pieces};
ghost use Rattle.reader_words.specs.Gives.{Moves};

use crate::numbers::{Range, int};
use crate::source::Source;
use crate::stop::Stop;
use crate::words::{
    has_integer_type, has_kind, has_mark, has_word, has_word_of, skip_all_but, skip_kind,
    skip_mark, skip_word, skip_word_of, skip_words,
};
use ir_lexer::token::TokenKind;
use plain_list::Sequence;
use std::alloc::AllocError;

const FLAGS: [&[u8]; 8] = [
    b"nsw",
    b"nuw",
    b"exact",
    b"inbounds",
    b"nusw",
    b"nneg",
    b"disjoint",
    b"samesign",
];

/// Attributes with parentheses behind them.
const LONG: [&[u8]; 5] = [
    b"dereferenceable",
    b"dereferenceable_or_null",
    b"captures",
    b"range",
    b"memory",
];

/// Attributes that are one word.
const ATTRIBUTES: [&[u8]; 22] = [
    b"noundef",
    b"nonnull",
    b"zeroext",
    b"signext",
    b"inreg",
    b"noalias",
    b"nocapture",
    b"readonly",
    b"readnone",
    b"writeonly",
    b"returned",
    b"immarg",
    b"nofree",
    b"noreturn",
    b"nounwind",
    b"willreturn",
    b"unnamed_addr",
    b"local_unnamed_addr",
    b"fastcc",
    b"ccc",
    b"allocptr",
    b"allocalign",
];

/// What may stand in front of a global or a function beside attributes.
const LINKAGE: [&[u8]; 10] = [
    b"private",
    b"internal",
    b"common",
    b"weak",
    b"linkonce",
    b"linkonce_odr",
    b"weak_odr",
    b"dso_local",
    b"hidden",
    b"protected",
];

const TAIL_MARKS: [&[u8]; 2] = [b"tail", b"notail"];

/// Flags of an instruction.
pub fn flags(source: Source<'_>) -> Source<'_>
    ensures { flags_phrase.reads (pieces source.entry) ≡ got tt (pieces result) }
{
    skip_words(source, &FLAGS)
}

/// `align` and a number.
fn alignment(source: Source<'_>) -> Result<Source<'_>, Stop<'_>>
    ensures { Moves result (alignment_phrase.reads (pieces source.entry)) }
{
    let source = skip_word(source, b"align")?;
    let (_, source) = int(source, Range::Any)?;
    Ok(source)
}

// ---- attributes

/// An attribute with its parentheses.
fn long_attribute(source: Source<'_>) -> Result<Source<'_>, Stop<'_>>
    ensures { Moves result (long_phrase.reads (pieces source.entry)) }
{
    let source = skip_word_of(source, &LONG)?;
    let source = skip_mark(source, b"(")?;
    let source = skip_all_but(source, b")");
    skip_mark(source, b")")
}

/// Whether an attribute comes next.
pub fn has_attribute(source: Source<'_>) -> bool
    ensures { result ≡ starts (attribute_starts []) (pieces source.entry) }
{
    if has_word_of(source, &LONG) {
        return true;
    }
    if has_word(source, b"align") {
        return true;
    }
    has_word_of(source, &ATTRIBUTES)
}

/// An attribute.
fn attribute(source: Source<'_>) -> Result<Source<'_>, Stop<'_>>
    ensures { Moves result ((attribute_or []).reads (pieces source.entry)) }
{
    if has_word_of(source, &LONG) {
        long_attribute(source)
    } else if has_word(source, b"align") {
        alignment(source)
    } else {
        skip_word_of(source, &ATTRIBUTES)
    }
}

/// Any number of attributes.
pub fn attributes(source: Source<'_>) -> Result<Source<'_>, Stop<'_>>
    ensures { Moves result (attributes_phrase.reads (pieces source.entry)) }
{
    let mut rest = source;
    'attributes: while has_attribute(rest) {
        rest = attribute(rest)?;
    }
    Ok(rest)
}

/// Whether an attribute or another word comes next that may stand in front of a global or a function.
fn has_ignored(source: Source<'_>) -> bool
    ensures { result ≡ starts (attribute_starts linkage_words) (pieces source.entry) }
{
    if has_attribute(source) {
        return true;
    }
    has_word_of(source, &LINKAGE)
}

fn has_ignored_word(source: Source<'_>) -> bool
    ensures { result ≡ starts (words (attribute_words ++ linkage_words)) (pieces source.entry) }
{
    if has_word_of(source, &ATTRIBUTES) {
        return true;
    }
    has_word_of(source, &LINKAGE)
}

/// One of the words of attributes and of linkage.
fn ignored_word(source: Source<'_>) -> Result<Source<'_>, Stop<'_>>
    ensures { Moves result ((skip (words (attribute_words ++ linkage_words))).reads (pieces source.entry)) }
{
    if has_ignored_word(source) {
        if let Some((_, rest)) = source.next() {
            return Ok(rest);
        }
    }
    Err(Stop::Refused(false, source))
}

fn one_ignored(source: Source<'_>) -> Result<Source<'_>, Stop<'_>>
    ensures { Moves result ((attribute_or linkage_words).reads (pieces source.entry)) }
{
    if has_word_of(source, &LONG) {
        long_attribute(source)
    } else if has_word(source, b"align") {
        alignment(source)
    } else {
        ignored_word(source)
    }
}

/// What may stand in front of a global or a function.
pub fn ignored(source: Source<'_>) -> Result<Source<'_>, Stop<'_>>
    ensures { Moves result (ignored_phrase.reads (pieces source.entry)) }
{
    let mut rest = source;
    'ignored: while has_ignored(rest) {
        rest = one_ignored(rest)?;
    }
    Ok(rest)
}

// ---- behind instructions

/// An alignment or an attachment.
pub fn attached(source: Source<'_>) -> Result<Source<'_>, Stop<'_>>
    ensures { Moves result (attached_phrase.reads (pieces source.entry)) }
{
    if has_word(source, b"align") {
        return alignment(source);
    }
    skip_kind(skip_kind(source, TokenKind::Meta)?, TokenKind::Meta)
}

/// What may stand after an instruction.
pub fn after(source: Source<'_>) -> Result<Source<'_>, Stop<'_>>
    ensures { Moves result (after_phrase.reads (pieces source.entry)) }
{
    let mut rest = source;
    'commas: while has_mark(rest, b",") {
        let inner = skip_mark(rest, b",")?;
        rest = attached(inner)?;
    }
    Ok(rest)
}

/// An alignment or an attachment, where an integer type is unsupported.
fn attached_to_alloca(source: Source<'_>) -> Result<Source<'_>, Stop<'_>>
    ensures { Moves result ((but (integer_type ∷ []) attached_phrase).reads (pieces source.entry)) }
{
    if has_integer_type(source) {
        return Err(Stop::Refused(true, source));
    }
    attached(source)
}

/// What may stand after an alloca, where an integer type is unsupported.
pub fn after_alloca(source: Source<'_>) -> Result<Source<'_>, Stop<'_>>
    ensures { Moves result (after_alloca_phrase.reads (pieces source.entry)) }
{
    let mut rest = source;
    'commas: while has_mark(rest, b",") {
        let inner = skip_mark(rest, b",")?;
        rest = attached_to_alloca(inner)?;
    }
    Ok(rest)
}

// ---- behind headers and calls

/// A string, and another behind `=`.
fn string_attribute(source: Source<'_>) -> Result<Source<'_>, Stop<'_>>
    ensures { Moves result (string_phrase.reads (pieces source.entry)) }
{
    let source = skip_kind(source, TokenKind::Str)?;
    if has_mark(source, b"=") {
        return skip_kind(skip_mark(source, b"=")?, TokenKind::Str);
    }
    Ok(source)
}

fn has_tail(source: Source<'_>) -> bool
    ensures { result ≡ starts tail_starts (pieces source.entry) }
{
    has_kind(source, TokenKind::Str)
        || has_kind(source, TokenKind::AttrGroup)
        || has_attribute(source)
}

fn tail_item(source: Source<'_>) -> Result<Source<'_>, Stop<'_>>
    ensures { Moves result (tail_item_phrase.reads (pieces source.entry)) }
{
    if has_kind(source, TokenKind::Str) {
        string_attribute(source)
    } else if has_kind(source, TokenKind::AttrGroup) {
        skip_kind(source, TokenKind::AttrGroup)
    } else {
        attribute(source)
    }
}

/// What may stand after the parentheses of a header or a call.
pub fn tail(source: Source<'_>) -> Result<Source<'_>, Stop<'_>>
    ensures { Moves result (tail_phrase.reads (pieces source.entry)) }
{
    let mut rest = source;
    'tail: while has_tail(rest) {
        rest = tail_item(rest)?;
    }
    Ok(rest)
}

// ---- marks of instructions

/// `volatile`, or nothing.
pub fn volatile(source: Source<'_>) -> Result<Source<'_>, Stop<'_>>
    ensures { Moves result (volatile_phrase.reads (pieces source.entry)) }
{
    if has_word(source, b"volatile") {
        return skip_word(source, b"volatile");
    }
    Ok(source)
}

/// `tail` or `notail`, or nothing.
pub fn tail_mark(source: Source<'_>) -> Result<Source<'_>, Stop<'_>>
    ensures { Moves result (tail_mark_phrase.reads (pieces source.entry)) }
{
    if has_word_of(source, &TAIL_MARKS) {
        return skip_word_of(source, &TAIL_MARKS);
    }
    Ok(source)
}

// ---- lists that end where attachments begin

/// Keeps an item that is there.
pub fn keep<T: Drop>(found: &mut Sequence<T>, item: Option<T>) -> Result<(), AllocError>
    ensures { OnOk result (found.new ≡ found.old ++ present (item ∷ [])) }
{
    match item {
        Some(item) => found.push(item),
        None => Ok(()),
    }
}

/// Whether attachments have begun after an item, or what stands in its place.
pub fn has_begun<T>(begun: bool, item: &Option<T>) -> bool
    ensures { result ≡ attachments_begun begun item.now }
{
    match item {
        Some(_) => begun,
        None => true,
    }
}
