//! Addresses and calls, and every operation that sets a register.

ghost use Rattle.std.specs.Prelude.{◌∷◌, [], codes};
ghost use Rattle.ir_grammar.specs.Tokens.{integer_type};
ghost use Rattle.ir_grammar.specs.Types.{behind_commas, listed};
ghost use Rattle.ir_grammar.specs.Instructions.{item_or_attached, items_and_after, index as index_phrase, element_pointer as pointer_phrase, callee as callee_phrase, argument as argument_phrase, call_at as call_at_phrase, call as call_phrase, call_alone as alone_phrase, operation as operation_phrase};
ghost use Rattle.reader_words.specs.Source.{pieces};
ghost use Rattle.reader_words.specs.Gives.{Gives};

use crate::operations::{BINARY, CASTS, alloca, binary, cast, compare, load, select};
use ir_lexer::token::TokenKind;
use ir_tree::instructions::{Index, Instruction, Operation, Typed};
use ir_tree::types::Name;
use plain_list::Sequence;
use reader_types::operands::{operand_in, operand_where, pointer};
use reader_types::types::{NESTING, mem_type, result_type, value_type};
use reader_words::ignored::{after, attached, attributes, flags, has_begun, keep, tail, tail_mark};
use reader_words::names::global_name;
use reader_words::numbers::{Range, width};
use reader_words::source::Source;
use reader_words::stop::Stop;
use reader_words::words::{
    has_head, has_integer_type, has_kind, has_mark, has_word, has_word_of, place_of_word,
    place_of_word_of, skip_mark, skip_word,
};
use std::alloc::Global;

/// What may stand in front of a call.
const TAIL_MARKS: [&[u8]; 2] = [b"tail", b"notail"];

// ---- addresses

/// An index.
fn index<'a>(alloc: Global, source: Source<'a>) -> Result<(Index, Source<'a>), Stop<'a>>
    ensures { Gives result (index_phrase.reads (pieces source.entry)) }
{
    let (width, source) = width(source)?;
    let (value, source) = operand_where(alloc, source, Range::Index(width))?;
    Ok((Index { width, value }, source))
}

/// A comma, and an index or an attachment.
fn index_or_attached<'a>(
    alloc: Global,
    source: Source<'a>,
    begun: bool,
) -> Result<(Option<Index>, Source<'a>), Stop<'a>>
    ensures { Gives result ((item_or_attached (integer_type ∷ []) index_phrase begun).reads (pieces source.entry)) }
{
    let source = skip_mark(source, b",")?;
    if !begun && has_integer_type(source) {
        let (found, source) = index(alloc, source)?;
        return Ok((Some(found), source));
    }
    let source = attached(source)?;
    Ok((None, source))
}

/// Indices and attachments, each behind a comma.
fn indices<'a>(alloc: Global, source: Source<'a>) -> Result<(Sequence<Index>, Source<'a>), Stop<'a>>
    ensures { Gives result ((items_and_after (integer_type ∷ []) index_phrase).reads (pieces source.entry)) }
{
    let mut found = Sequence::new(alloc);
    let mut rest = source;
    let mut begun = false;
    'commas: while has_mark(rest, b",") {
        let (next, after) = index_or_attached(alloc, rest, begun)?;
        begun = has_begun(begun, &next);
        keep(&mut found, next)?;
        rest = after;
    }
    Ok((found, rest))
}

/// The address of a part of an object.
fn element_pointer<'a>(
    alloc: Global,
    source: Source<'a>,
) -> Result<(Operation, Source<'a>), Stop<'a>>
    ensures { Gives result (pointer_phrase.reads (pieces source.entry)) }
{
    let rest = flags(skip_word(source, b"getelementptr")?);
    let (source, rest) = mem_type(alloc, rest, NESTING)?;
    let rest = skip_mark(rest, b",")?;
    let (pointer, rest) = pointer(alloc, rest)?;
    let (indices, rest) = indices(alloc, rest)?;
    let operation = Operation::GetElementPtr {
        source,
        pointer,
        indices,
    };
    Ok((operation, rest))
}

// ---- calls

/// The name of what is called: a register there, or the type of a function, is unsupported.
fn callee<'a>(alloc: Global, source: Source<'a>) -> Result<(Name, Source<'a>), Stop<'a>>
    ensures { Gives result (callee_phrase.reads (pieces source.entry)) }
{
    if has_mark(source, b"(") || has_kind(source, TokenKind::Local) {
        return Err(Stop::Refused(true, source));
    }
    global_name(alloc, source)
}

fn argument<'a>(alloc: Global, source: Source<'a>) -> Result<(Typed, Source<'a>), Stop<'a>>
    ensures { Gives result (argument_phrase.reads (pieces source.entry)) }
{
    let (kind, source) = value_type(source)?;
    let source = attributes(source)?;
    let (value, source) = operand_in(alloc, source, &kind)?;
    Ok((Typed { kind, value }, source))
}

/// Arguments, each behind a comma.
fn other_arguments<'a>(
    alloc: Global,
    source: Source<'a>,
) -> Result<(Sequence<Typed>, Source<'a>), Stop<'a>>
    ensures { Gives result ((behind_commas argument_phrase).reads (pieces source.entry)) }
{
    let mut found = Sequence::new(alloc);
    let mut rest = source;
    'commas: while has_mark(rest, b",") {
        let after = skip_mark(rest, b",")?;
        let (next, after) = argument(alloc, after)?;
        found.push(next)?;
        rest = after;
    }
    Ok((found, rest))
}

/// Arguments with commas between them, and the closing parenthesis.
fn arguments<'a>(
    alloc: Global,
    source: Source<'a>,
) -> Result<(Sequence<Typed>, Source<'a>), Stop<'a>>
    ensures { Gives result ((listed (codes ")") argument_phrase).reads (pieces source.entry)) }
{
    let mut found = Sequence::new(alloc);
    if has_mark(source, b")") {
        let source = skip_mark(source, b")")?;
        return Ok((found, source));
    }
    let (first, source) = argument(alloc, source)?;
    let (others, source) = other_arguments(alloc, source)?;
    let source = skip_mark(source, b")")?;
    found.push(first)?;
    found.append(others)?;
    Ok((found, source))
}

/// A call from its word on, and the byte of that word.
pub fn call_at<'a>(
    alloc: Global,
    source: Source<'a>,
) -> Result<((u32, Operation), Source<'a>), Stop<'a>>
    ensures { Gives result (call_at_phrase.reads (pieces source.entry)) }
{
    let (at, source) = place_of_word(source, b"call")?;
    let source = attributes(source)?;
    let (kind, source) = result_type(source)?;
    let (callee, source) = callee(alloc, source)?;
    let source = skip_mark(source, b"(")?;
    let (arguments, source) = arguments(alloc, source)?;
    let source = tail(source)?;
    let source = after(source)?;
    let operation = Operation::Call {
        result: kind,
        callee,
        arguments,
    };
    Ok(((at, operation), source))
}

#[tactic(auto, unfolding(ir_grammar::specs::Instructions::call))]
fn call<'a>(alloc: Global, source: Source<'a>) -> Result<(Operation, Source<'a>), Stop<'a>>
    ensures { Gives result (call_phrase.reads (pieces source.entry)) }
{
    let source = tail_mark(source)?;
    let ((_, operation), source) = call_at(alloc, source)?;
    Ok((operation, source))
}

/// A call whose value is let go.
#[tactic(auto, unfolding(ir_grammar::specs::Instructions::call_alone))]
pub fn call_alone<'a>(
    alloc: Global,
    source: Source<'a>,
) -> Result<(Instruction, Source<'a>), Stop<'a>>
    ensures { Gives result (alone_phrase.reads (pieces source.entry)) }
{
    if has_word_of(source, &TAIL_MARKS) {
        let (at, source) = place_of_word_of(source, &TAIL_MARKS)?;
        let ((_, operation), source) = call_at(alloc, source)?;
        let found = Instruction {
            at,
            result: None,
            operation,
        };
        return Ok((found, source));
    }
    let ((at, operation), source) = call_at(alloc, source)?;
    let found = Instruction {
        at,
        result: None,
        operation,
    };
    Ok((found, source))
}

/// What may stand behind `%name =`, but a phi.
#[tactic(auto, unfolding(ir_grammar::specs::Instructions::operation))]
pub fn operation<'a>(alloc: Global, source: Source<'a>) -> Result<(Operation, Source<'a>), Stop<'a>>
    ensures { Gives result (operation_phrase.reads (pieces source.entry)) }
{
    if has_head(source, &BINARY) {
        binary(alloc, source)
    } else if has_word(source, b"icmp") {
        compare(alloc, source)
    } else if has_head(source, &CASTS) {
        cast(alloc, source)
    } else if has_word(source, b"select") {
        select(alloc, source)
    } else if has_word(source, b"alloca") {
        alloca(alloc, source)
    } else if has_word(source, b"load") {
        load(alloc, source)
    } else if has_word(source, b"getelementptr") {
        element_pointer(alloc, source)
    } else {
        call(alloc, source)
    }
}
