//! Types.

ghost use Rattle.std.specs.Prelude.{◌≡◌, ◌≤◌, ◌∷◌, [], IfOk, IfSome};
ghost use Rattle.phrases.specs.Piece.{starts};
ghost use Rattle.phrases.specs.Phrase.{one};
ghost use Rattle.ir_grammar.specs.Tokens.{mark, square, brace, packed_brace};
ghost use Rattle.ir_grammar.specs.Types.{behind_commas, listed, type_of as type_in, value_type as value_phrase, scalar_of as scalar_in, scalar_type as scalar_phrase, plain_of, array_type as array_phrase, struct_type as struct_phrase, mem_type as mem_phrase, width_in as bits_in};
ghost use Rattle.ir_grammar.specs.Instructions.{result_type as result_phrase};
ghost use Rattle.reader_types.specs.Parts.{aggregate_or_plain as aggregate_phrase};
ghost use Rattle.reader_words.specs.Source.{piece_of, pieces};
ghost use Rattle.reader_words.specs.Gives.{Gives};

use ir_lexer::token::TokenKind;
use ir_tree::types::IrType;
use reader_words::names::after_sigil;
use reader_words::numbers::{Range, int};
use reader_words::source::{Lexeme, Source};
use reader_words::stop::Stop;
use reader_words::words::{
    has_kind, has_mark, has_odd_integer_type, has_word, has_word_of, place_of_mark, skip_mark,
    skip_word,
};
use sqlite_items::{Boxed, Items};
use std::alloc::Global;

/// How deep types and constants nest.
pub const NESTING: u8 = 64;

/// The types that are one word and that memory holds.
const SCALARS: [&[u8]; 5] = [b"i8", b"i16", b"i32", b"i64", b"ptr"];

/// The integer type or `ptr` that a token is.
fn type_of(found: Lexeme<'_>) -> Option<IrType>
    ensures value { result ≡ type_in (piece_of found.entry) }
    ensures small { IfSome result (λ t. bits_in t ≤ 64) }
{
    if let Some(width) = found.width() {
        return Some(IrType::Int(width));
    }
    if found.is_word(b"ptr") {
        return Some(IrType::Ptr);
    }
    None
}

/// Whether a level opens.
fn has_opening(source: Source<'_>) -> bool
    ensures { result ≡ starts (square ∷ brace ∷ packed_brace ∷ []) (pieces source.entry) }
{
    has_mark(source, b"[") || has_mark(source, b"{") || has_mark(source, b"<{")
}

/// A type in a function: an aggregate or a name is unsupported.
#[tactic(auto, unfolding(ir_grammar::specs::Types::value_type))]
pub fn value_type(source: Source<'_>) -> Result<(IrType, Source<'_>), Stop<'_>>
    ensures given { Gives result (value_phrase.reads (pieces source.entry)) }
    ensures small { IfOk result (λ x. bits_in x.0 ≤ 64) }
{
    if has_opening(source) || has_kind(source, TokenKind::Local) {
        return Err(Stop::Refused(true, source));
    }
    if let Some((found, rest)) = source.next() {
        if let Some(kind) = type_of(found) {
            return Ok((kind, rest));
        }
    }
    Err(Stop::Refused(false, source))
}

fn scalar(source: Source<'_>) -> Result<(IrType, Source<'_>), Stop<'_>>
    ensures given { Gives result ((one scalar_in).reads (pieces source.entry)) }
    ensures small { IfOk result (λ x. bits_in x.0 ≤ 64) }
{
    if has_word_of(source, &SCALARS) {
        if let Some((found, rest)) = source.next() {
            if let Some(kind) = type_of(found) {
                return Ok((kind, rest));
            }
        }
    }
    Err(Stop::Refused(false, source))
}

/// A type that memory holds, in a function: an aggregate, a name or another integer type is unsupported.
#[tactic(auto, unfolding(ir_grammar::specs::Types::scalar_type))]
pub fn scalar_type(source: Source<'_>) -> Result<(IrType, Source<'_>), Stop<'_>>
    ensures given { Gives result (scalar_phrase.reads (pieces source.entry)) }
    ensures small { IfOk result (λ x. bits_in x.0 ≤ 64) }
{
    if has_opening(source) || has_kind(source, TokenKind::Local) || has_odd_integer_type(source) {
        return Err(Stop::Refused(true, source));
    }
    scalar(source)
}

/// `void`, which is none, or a type.
pub fn result_type(source: Source<'_>) -> Result<(Option<IrType>, Source<'_>), Stop<'_>>
    ensures { Gives result (result_phrase.reads (pieces source.entry)) }
{
    if has_word(source, b"void") {
        let source = skip_word(source, b"void")?;
        return Ok((None, source));
    }
    let (kind, source) = value_type(source)?;
    Ok((Some(kind), source))
}

/// The number of bits whose range an integer has where the type stands.
pub fn width_in(kind: &IrType) -> u8
    ensures { result ≡ bits_in kind.now }
{
    match kind {
        IrType::Int(width) => *width,
        _ => 64,
    }
}

// ---- types in memory

/// A scalar or the name of a type.
fn plain<'a>(alloc: Global, source: Source<'a>) -> Result<(IrType, Source<'a>), Stop<'a>>
    ensures { Gives result ((one plain_of).reads (pieces source.entry)) }
{
    match source.next() {
        Some((found, rest)) if found.is(TokenKind::Local) => {
            let name = after_sigil(alloc, found.text)?;
            Ok((IrType::Named { name, at: found.at }, rest))
        }
        _ => scalar(source),
    }
}

/// `[ LEN x ELEMENT ]`
#[cycle(types)]
fn array_type<'a>(
    alloc: Global,
    source: Source<'a>,
    inner: u8,
) -> Result<(IrType, Source<'a>), Stop<'a>>
    ensures { Gives result ((array_phrase (mem_phrase inner)).reads (pieces source.entry)) }
{
    let (at, source) = place_of_mark(source, b"[")?;
    let (len, source) = int(source, Range::Length)?;
    let source = skip_word(source, b"x")?;
    let (element, source) = mem_type(alloc, source, inner)?;
    let source = skip_mark(source, b"]")?;
    let element = Boxed::new(alloc, element)?;
    let len = len.magnitude;
    Ok((IrType::Array { at, len, element }, source))
}

/// `{ .. }` or `<{ .. }>`
#[cycle(types)]
fn struct_type<'a>(
    alloc: Global,
    source: Source<'a>,
    opening: &[u8],
    closing: &[u8],
    packed: bool,
    inner: u8,
) -> Result<(IrType, Source<'a>), Stop<'a>>
    ensures { Gives result ((struct_phrase opening.now closing.now packed (mem_phrase inner)).reads (pieces source.entry)) }
{
    let (at, source) = place_of_mark(source, opening)?;
    let (fields, source) = fields(alloc, source, closing, inner)?;
    Ok((IrType::Struct { at, fields, packed }, source))
}

/// Types with commas between them, and the closing mark.
#[cycle(types)]
fn fields<'a>(
    alloc: Global,
    source: Source<'a>,
    closing: &[u8],
    inner: u8,
) -> Result<(Items<IrType>, Source<'a>), Stop<'a>>
    ensures { Gives result ((listed closing.now (mem_phrase inner)).reads (pieces source.entry)) }
{
    let mut found = Items::new(alloc);
    if has_mark(source, closing) {
        let source = skip_mark(source, closing)?;
        return Ok((found, source));
    }
    let (first, source) = mem_type(alloc, source, inner)?;
    let (others, source) = other_fields(alloc, source, inner)?;
    let source = skip_mark(source, closing)?;
    found.push(first)?;
    found.append(others)?;
    Ok((found, source))
}

/// The types behind commas.
#[cycle(types)]
fn other_fields<'a>(
    alloc: Global,
    source: Source<'a>,
    inner: u8,
) -> Result<(Items<IrType>, Source<'a>), Stop<'a>>
    ensures { Gives result ((behind_commas (mem_phrase inner)).reads (pieces source.entry)) }
{
    let mut found = Items::new(alloc);
    let mut rest = source;
    'commas: while has_mark(rest, b",") {
        let after = skip_mark(rest, b",")?;
        let (next, after) = mem_type(alloc, after, inner)?;
        found.push(next)?;
        rest = after;
    }
    Ok((found, rest))
}

/// A type in memory that may open a level and, within it, so many more.
#[cycle(types)]
fn aggregate_or_plain<'a>(
    alloc: Global,
    source: Source<'a>,
    inner: u8,
) -> Result<(IrType, Source<'a>), Stop<'a>>
    ensures { Gives result ((aggregate_phrase inner).reads (pieces source.entry)) }
{
    if has_mark(source, b"[") {
        return array_type(alloc, source, inner);
    }
    if has_mark(source, b"{") {
        return struct_type(alloc, source, b"{", b"}", false, inner);
    }
    if has_mark(source, b"<{") {
        return struct_type(alloc, source, b"<{", b"}>", true, inner);
    }
    plain(alloc, source)
}

/// A type in memory that opens at most so many levels.
#[cycle(types)]
#[tactic(auto, unfolding(ir_grammar::specs::Types::mem_type))]
pub fn mem_type<'a>(
    alloc: Global,
    source: Source<'a>,
    levels: u8,
) -> Result<(IrType, Source<'a>), Stop<'a>>
    ensures { Gives result ((mem_phrase levels).reads (pieces source.entry)) }
{
    if has_odd_integer_type(source) {
        return Err(Stop::Refused(true, source));
    }
    if levels > 0 {
        return aggregate_or_plain(alloc, source, levels - 1);
    }
    if has_opening(source) {
        return Err(Stop::Refused(true, source));
    }
    plain(alloc, source)
}
