//! Constants of globals.

ghost use Rattle.std.specs.Prelude.{◌≡◌, ◌∷◌, [], codes};
ghost use Rattle.phrases.specs.Piece.{starts};
ghost use Rattle.ir_grammar.specs.Tokens.{word, mark, square, brace, packed_brace};
ghost use Rattle.ir_grammar.specs.Types.{behind_commas, listed};
ghost use Rattle.ir_grammar.specs.Constants.{flat_constant as flat_phrase, array_constant as array_phrase, struct_constant as struct_phrase, constant_of as constant_phrase, typed_constant as typed_phrase};
ghost use Rattle.reader_words.specs.Source.{pieces};
ghost use Rattle.reader_words.specs.Gives.{Gives};

use ir_lexer::token::TokenKind;
use ir_tree::constants::Constant;
use ir_tree::types::IrType;
use reader_types::operands::{gep_operand, simple};
use reader_types::types::{NESTING, mem_type};
use reader_words::names::string_bytes;
use reader_words::numbers::Range;
use reader_words::source::Source;
use reader_words::stop::Stop;
use reader_words::words::{has_mark, has_word, place_of_mark, skip_mark};
use sqlite_items::Items;
use std::alloc::Global;

/// A constant of one token.
fn flat_constant<'a>(
    alloc: Global,
    source: Source<'a>,
    kind: IrType,
) -> Result<(Constant, Source<'a>), Stop<'a>>
    ensures { Gives result ((flat_phrase kind).reads (pieces source.entry)) }
{
    let Some((found, rest)) = source.next() else {
        return Err(Stop::Refused(false, source));
    };
    if found.is(TokenKind::CStr) {
        let bytes = string_bytes(alloc, found.text)?;
        let at = found.at;
        return Ok((Constant::Bytes { kind, at, bytes }, rest));
    }
    match simple(alloc, found, Range::Any)? {
        Some(value) => Ok((Constant::Value { kind, value }, rest)),
        None => Err(Stop::Refused(false, source)),
    }
}

/// `[ .. ]`
#[cycle(constants)]
fn array_constant<'a>(
    alloc: Global,
    source: Source<'a>,
    kind: IrType,
    inner: u8,
) -> Result<(Constant, Source<'a>), Stop<'a>>
    ensures { Gives result ((array_phrase kind (typed_phrase inner)).reads (pieces source.entry)) }
{
    let (at, source) = place_of_mark(source, b"[")?;
    let (elements, source) = elements(alloc, source, b"]", inner)?;
    Ok((Constant::Array { kind, at, elements }, source))
}

/// `{ .. }` or `<{ .. }>`
#[cycle(constants)]
fn struct_constant<'a>(
    alloc: Global,
    source: Source<'a>,
    kind: IrType,
    opening: &[u8],
    closing: &[u8],
    packed: bool,
    inner: u8,
) -> Result<(Constant, Source<'a>), Stop<'a>>
    ensures { Gives result ((struct_phrase kind (mark opening.now) closing.now packed (typed_phrase inner)).reads (pieces source.entry)) }
{
    let (at, source) = place_of_mark(source, opening)?;
    let (fields, source) = elements(alloc, source, closing, inner)?;
    let constant = Constant::Struct {
        kind,
        at,
        fields,
        packed,
    };
    Ok((constant, source))
}

/// Constants with commas between them, and the closing mark.
#[cycle(constants)]
fn elements<'a>(
    alloc: Global,
    source: Source<'a>,
    closing: &[u8],
    inner: u8,
) -> Result<(Items<Constant>, Source<'a>), Stop<'a>>
    ensures { Gives result ((listed closing.now (typed_phrase inner)).reads (pieces source.entry)) }
{
    let mut found = Items::new(alloc);
    if has_mark(source, closing) {
        let source = skip_mark(source, closing)?;
        return Ok((found, source));
    }
    let (first, source) = typed_constant(alloc, source, inner)?;
    let (others, source) = other_elements(alloc, source, inner)?;
    let source = skip_mark(source, closing)?;
    found.push(first)?;
    found.append(others)?;
    Ok((found, source))
}

/// The constants behind commas.
#[cycle(constants)]
fn other_elements<'a>(
    alloc: Global,
    source: Source<'a>,
    inner: u8,
) -> Result<(Items<Constant>, Source<'a>), Stop<'a>>
    ensures { Gives result ((behind_commas (typed_phrase inner)).reads (pieces source.entry)) }
{
    let mut found = Items::new(alloc);
    let mut rest = source;
    'commas: while has_mark(rest, b",") {
        let after = skip_mark(rest, b",")?;
        let (next, after) = typed_constant(alloc, after, inner)?;
        found.push(next)?;
        rest = after;
    }
    Ok((found, rest))
}

/// A constant of the type, that opens a level and then at most so many.
#[cycle(constants)]
fn constant_of<'a>(
    alloc: Global,
    source: Source<'a>,
    kind: IrType,
    inner: u8,
) -> Result<(Constant, Source<'a>), Stop<'a>>
    ensures { Gives result ((constant_phrase inner (typed_phrase inner) kind).reads (pieces source.entry)) }
{
    if has_word(source, b"getelementptr") {
        let (value, source) = gep_operand(alloc, source, inner)?;
        Ok((Constant::Value { kind, value }, source))
    } else if has_mark(source, b"[") {
        array_constant(alloc, source, kind, inner)
    } else if has_mark(source, b"{") {
        struct_constant(alloc, source, kind, b"{", b"}", false, inner)
    } else if has_mark(source, b"<{") {
        struct_constant(alloc, source, kind, b"<{", b"}>", true, inner)
    } else {
        flat_constant(alloc, source, kind)
    }
}

/// Whether a level of a constant opens.
fn has_level(source: Source<'_>) -> bool
    ensures { result ≡ starts (word (codes "getelementptr") ∷ square ∷ brace ∷ packed_brace ∷ []) (pieces source.entry) }
{
    has_word(source, b"getelementptr")
        || has_mark(source, b"[")
        || has_mark(source, b"{")
        || has_mark(source, b"<{")
}

/// A type in memory and its constant, which opens at most so many levels.
#[cycle(constants)]
#[tactic(auto, unfolding(ir_grammar::specs::Constants::typed_constant))]
pub fn typed_constant<'a>(
    alloc: Global,
    source: Source<'a>,
    levels: u8,
) -> Result<(Constant, Source<'a>), Stop<'a>>
    ensures { Gives result ((typed_phrase levels).reads (pieces source.entry)) }
{
    let (kind, source) = mem_type(alloc, source, NESTING)?;
    if levels > 0 {
        return constant_of(alloc, source, kind, levels - 1);
    }
    if has_level(source) {
        return Err(Stop::Refused(true, source));
    }
    flat_constant(alloc, source, kind)
}
