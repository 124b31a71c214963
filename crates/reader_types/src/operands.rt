//! Operands and constant addresses.

ghost use Rattle.std.specs.Prelude.{◌≡◌, ◌≤◌, ◌∷◌, [], true, IfOk};
ghost use Rattle.phrases.specs.Phrase.{one};
ghost use Rattle.ir_grammar.specs.Tokens.{meaning as meaning_of};
ghost use Rattle.ir_grammar.specs.Numbers.{fits_offset};
ghost use Rattle.ir_grammar.specs.Types.{behind_commas, width_in as bits_in};
ghost use Rattle.ir_grammar.specs.Instructions.{typed as typed_phrase};
ghost use Rattle.ir_grammar.specs.Constants.{placed, const_index as index_phrase, gep_level as level_phrase, gep_global as global_phrase, gep_base as base_phrase, simple_form as form_in, simple_of, operand_of, gep_operand as gep_phrase, operand_where as where_phrase, operand as operand_phrase, operand_in as in_phrase, pointer as pointer_phrase, constant_rows, first_place as place_in};
ghost use Rattle.reader_words.specs.Ranges.{fits as fits_in, is_small};
ghost use Rattle.reader_words.specs.Source.{piece_of, pieces};
ghost use Rattle.reader_words.specs.Gives.{Gives};

use crate::types::{NESTING, mem_type, value_type, width_in};
use ir_lexer::token::TokenKind;
use ir_tree::constants::{ConstGep, ConstIndex, GepLevel, Value, ValueForm};
use ir_tree::instructions::Typed;
use ir_tree::types::IrType;
use plain_list::Sequence;
use reader_words::ignored::flags;
use reader_words::names::{after_sigil, global_name};
use reader_words::numbers::{Range, width};
use reader_words::source::{Lexeme, Source};
use reader_words::stop::Stop;
use reader_words::words::{has_mark, has_word, place_of_word, skip_mark, skip_word};
use std::alloc::{AllocError, Global};

// ---- constant addresses

/// The number of an index of a constant address, whose number of bits was read.
fn index_of(source: Source<'_>, width: u8) -> Result<(ConstIndex, Source<'_>), Stop<'_>>
    ensures { Gives result ((one (placed fits_offset (λ n at. record { width = width; value = n; at = at }))).reads (pieces source.entry)) }
{
    if let Some((found, rest)) = source.next() {
        if let Some(value) = found.int(Range::Offset) {
            let at = found.at;
            return Ok((ConstIndex { width, value, at }, rest));
        }
    }
    Err(Stop::Refused(false, source))
}

/// An index of a constant address.
fn const_index(source: Source<'_>) -> Result<(ConstIndex, Source<'_>), Stop<'_>>
    ensures { Gives result (index_phrase.reads (pieces source.entry)) }
{
    let (width, source) = width(source)?;
    index_of(source, width)
}

/// The indices behind commas.
fn const_indices<'a>(
    alloc: Global,
    source: Source<'a>,
) -> Result<(Sequence<ConstIndex>, Source<'a>), Stop<'a>>
    ensures { Gives result ((behind_commas index_phrase).reads (pieces source.entry)) }
{
    let mut found = Sequence::new(alloc);
    let mut rest = source;
    'commas: while has_mark(rest, b",") {
        let after = skip_mark(rest, b",")?;
        let (next, after) = const_index(after)?;
        found.push(next)?;
        rest = after;
    }
    Ok((found, rest))
}

/// A `getelementptr`, with at most so many in it.
#[cycle(addresses)]
fn gep_level<'a>(
    alloc: Global,
    source: Source<'a>,
    inner: u8,
) -> Result<(ConstGep, Source<'a>), Stop<'a>>
    ensures { Gives result ((level_phrase (base_phrase inner)).reads (pieces source.entry)) }
{
    let (at, after_word) = place_of_word(source, b"getelementptr")?;
    let after = skip_mark(flags(after_word), b"(")?;
    let (kind, after) = mem_type(alloc, after, NESTING)?;
    let after = skip_word(skip_mark(after, b",")?, b"ptr")?;
    let (base, after) = gep_base(alloc, after, inner)?;
    let (indices, after) = const_indices(alloc, after)?;
    let after = skip_mark(after, b")")?;
    let level = GepLevel {
        at,
        source: kind,
        indices,
    };
    Ok((with_level(alloc, level, base)?, after))
}

/// The address with one more level around it.
fn with_level(alloc: Global, level: GepLevel, inner: ConstGep) -> Result<ConstGep, AllocError>
    ensures { IfOk result (λ g. g ≡ record { levels = level ∷ inner.levels; base = inner.base }) }
{
    let mut levels = Sequence::of_one(alloc, level)?;
    levels.append(inner.levels)?;
    Ok(ConstGep {
        levels,
        base: inner.base,
    })
}

/// A global, or an address with at most so many levels.
#[cycle(addresses)]
#[tactic(auto, unfolding(ir_grammar::specs::Constants::gep_base))]
fn gep_base<'a>(
    alloc: Global,
    source: Source<'a>,
    levels: u8,
) -> Result<(ConstGep, Source<'a>), Stop<'a>>
    ensures { Gives result ((base_phrase levels).reads (pieces source.entry)) }
{
    if has_word(source, b"getelementptr") {
        if levels == 0 {
            return Err(Stop::Refused(true, source));
        }
        return gep_level(alloc, source, levels - 1);
    }
    gep_global(alloc, source)
}

fn gep_global<'a>(alloc: Global, source: Source<'a>) -> Result<(ConstGep, Source<'a>), Stop<'a>>
    ensures { Gives result (global_phrase.reads (pieces source.entry)) }
{
    let (base, source) = global_name(alloc, source)?;
    let levels = Sequence::new(alloc);
    Ok((ConstGep { levels, base }, source))
}

/// The place of the outermost level.
fn first_place(levels: &[GepLevel]) -> u32
    ensures { result ≡ place_in levels.now }
{
    match levels {
        [] => 0,
        [first, ..] => first.at,
    }
}

/// A constant address as an operand, with at most so many levels in it.
pub fn gep_operand<'a>(
    alloc: Global,
    source: Source<'a>,
    inner: u8,
) -> Result<(Value, Source<'a>), Stop<'a>>
    ensures { Gives result ((gep_phrase inner).reads (pieces source.entry)) }
{
    let (found, source) = gep_level(alloc, source, inner)?;
    let at = first_place(found.levels.as_slice());
    let form = ValueForm::Gep(found);
    Ok((Value { at, form }, source))
}

// ---- operands

/// The constant that a word is.
fn constant_word(found: Lexeme<'_>) -> Option<ValueForm>
    ensures { result ≡ meaning_of constant_rows (piece_of found.entry) }
{
    if found.is_word(b"true") {
        Some(ValueForm::True)
    } else if found.is_word(b"false") {
        Some(ValueForm::False)
    } else if found.is_word(b"null") {
        Some(ValueForm::Null)
    } else if found.is_word(b"undef") {
        Some(ValueForm::Undef)
    } else if found.is_word(b"poison") {
        Some(ValueForm::Poison)
    } else if found.is_word(b"zeroinitializer") {
        Some(ValueForm::ZeroInitializer)
    } else {
        None
    }
}

/// The constant of one token that it is, an integer only in the range.
fn simple_form(
    alloc: Global,
    found: Lexeme<'_>,
    range: Range,
) -> Result<Option<ValueForm>, AllocError>
    requires { is_small range ≡ true }
    ensures { IfOk result (λ form. form ≡ form_in (fits_in range) (piece_of found.entry)) }
{
    if found.is(TokenKind::Global) {
        return Ok(Some(ValueForm::Global(after_sigil(alloc, found.text)?)));
    }
    if let Some(form) = constant_word(found) {
        return Ok(Some(form));
    }
    Ok(found.int(range).map(ValueForm::Int))
}

/// The same with its place.
pub fn simple(alloc: Global, found: Lexeme<'_>, range: Range) -> Result<Option<Value>, AllocError>
    requires { is_small range ≡ true }
    ensures { IfOk result (λ value. value ≡ simple_of (fits_in range) (piece_of found.entry)) }
{
    match simple_form(alloc, found, range)? {
        None => Ok(None),
        Some(form) => Ok(Some(Value { at: found.at, form })),
    }
}

/// The operand of one token that it is, an integer only in the range.
fn one_token(alloc: Global, found: Lexeme<'_>, range: Range) -> Result<Option<Value>, AllocError>
    requires { is_small range ≡ true }
    ensures { IfOk result (λ value. value ≡ operand_of (fits_in range) (piece_of found.entry)) }
{
    if found.is(TokenKind::Local) {
        let form = ValueForm::Local(after_sigil(alloc, found.text)?);
        return Ok(Some(Value { at: found.at, form }));
    }
    simple(alloc, found, range)
}

/// An operand, an integer only in the range.
#[tactic(auto, unfolding(ir_grammar::specs::Constants::operand_where))]
pub fn operand_where<'a>(
    alloc: Global,
    source: Source<'a>,
    range: Range,
) -> Result<(Value, Source<'a>), Stop<'a>>
    requires { is_small range ≡ true }
    ensures { Gives result ((where_phrase (fits_in range)).reads (pieces source.entry)) }
{
    if has_word(source, b"getelementptr") {
        return gep_operand(alloc, source, NESTING - 1);
    }
    if let Some((found, rest)) = source.next() {
        if let Some(value) = one_token(alloc, found, range)? {
            return Ok((value, rest));
        }
    }
    Err(Stop::Refused(false, source))
}

/// An operand of so many bits.
pub fn operand<'a>(
    alloc: Global,
    source: Source<'a>,
    width: u8,
) -> Result<(Value, Source<'a>), Stop<'a>>
    requires { width ≤ 64 }
    ensures { Gives result ((operand_phrase width).reads (pieces source.entry)) }
{
    operand_where(alloc, source, Range::Width(width))
}

/// An operand of a type.
pub fn operand_in<'a>(
    alloc: Global,
    source: Source<'a>,
    kind: &IrType,
) -> Result<(Value, Source<'a>), Stop<'a>>
    requires { bits_in kind.now ≤ 64 }
    ensures { Gives result ((in_phrase kind.now).reads (pieces source.entry)) }
{
    operand(alloc, source, width_in(kind))
}

/// `ptr` and an operand.
pub fn pointer<'a>(alloc: Global, source: Source<'a>) -> Result<(Value, Source<'a>), Stop<'a>>
    ensures { Gives result (pointer_phrase.reads (pieces source.entry)) }
{
    let source = skip_word(source, b"ptr")?;
    operand_where(alloc, source, Range::Any)
}

/// A type and an operand of it.
pub fn typed<'a>(alloc: Global, source: Source<'a>) -> Result<(Typed, Source<'a>), Stop<'a>>
    ensures { Gives result (typed_phrase.reads (pieces source.entry)) }
{
    let (kind, source) = value_type(source)?;
    let (value, source) = operand_in(alloc, source, &kind)?;
    Ok((Typed { kind, value }, source))
}
