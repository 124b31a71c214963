//! What instructions do, but addresses and calls.

ghost use Rattle.ir_grammar.specs.Instructions.{binary as binary_phrase, compare as compare_phrase, cast as cast_phrase, select as select_phrase, alloca as alloca_phrase, load as load_phrase, store as store_phrase};
ghost use Rattle.reader_words.specs.Source.{pieces};
ghost use Rattle.reader_words.specs.Gives.{Gives};

use bitnum::{BinOp, Pred};
use ir_tree::instructions::{CastOp, Instruction, Operation};
use reader_types::operands::{operand, operand_in, pointer, typed};
use reader_types::types::{NESTING, mem_type, scalar_type, value_type};
use reader_words::ignored::{after, after_alloca, flags, volatile};
use reader_words::numbers::width;
use reader_words::source::Source;
use reader_words::stop::Stop;
use reader_words::words::{meaning, place_of_word, skip_mark, skip_word};
use std::alloc::Global;

/// The operations on two numbers.
pub const BINARY: [(&[u8], BinOp); 13] = [
    (b"add", BinOp::Add),
    (b"sub", BinOp::Sub),
    (b"mul", BinOp::Mul),
    (b"udiv", BinOp::Udiv),
    (b"sdiv", BinOp::Sdiv),
    (b"urem", BinOp::Urem),
    (b"srem", BinOp::Srem),
    (b"shl", BinOp::Shl),
    (b"lshr", BinOp::Lshr),
    (b"ashr", BinOp::Ashr),
    (b"and", BinOp::And),
    (b"or", BinOp::Or),
    (b"xor", BinOp::Xor),
];

/// The comparisons.
const PREDICATES: [(&[u8], Pred); 10] = [
    (b"eq", Pred::Eq),
    (b"ne", Pred::Ne),
    (b"ugt", Pred::Ugt),
    (b"uge", Pred::Uge),
    (b"ult", Pred::Ult),
    (b"ule", Pred::Ule),
    (b"sgt", Pred::Sgt),
    (b"sge", Pred::Sge),
    (b"slt", Pred::Slt),
    (b"sle", Pred::Sle),
];

/// The changes of width.
pub const CASTS: [(&[u8], CastOp); 3] = [
    (b"trunc", CastOp::Trunc),
    (b"zext", CastOp::Zext),
    (b"sext", CastOp::Sext),
];

/// An operation on two numbers.
pub fn binary<'a>(alloc: Global, source: Source<'a>) -> Result<(Operation, Source<'a>), Stop<'a>>
    ensures { Gives result (binary_phrase.reads (pieces source.entry)) }
{
    let (op, source) = meaning(source, &BINARY)?;
    let source = flags(source);
    let (width, source) = width(source)?;
    let (a, source) = operand(alloc, source, width)?;
    let source = skip_mark(source, b",")?;
    let (b, source) = operand(alloc, source, width)?;
    let source = after(source)?;
    Ok((Operation::Binary { op, width, a, b }, source))
}

/// A comparison.
pub fn compare<'a>(alloc: Global, source: Source<'a>) -> Result<(Operation, Source<'a>), Stop<'a>>
    ensures { Gives result (compare_phrase.reads (pieces source.entry)) }
{
    let source = flags(skip_word(source, b"icmp")?);
    let (pred, source) = meaning(source, &PREDICATES)?;
    let (kind, source) = value_type(source)?;
    let (a, source) = operand_in(alloc, source, &kind)?;
    let source = skip_mark(source, b",")?;
    let (b, source) = operand_in(alloc, source, &kind)?;
    let source = after(source)?;
    Ok((Operation::Compare { pred, kind, a, b }, source))
}

/// A change of width.
pub fn cast<'a>(alloc: Global, source: Source<'a>) -> Result<(Operation, Source<'a>), Stop<'a>>
    ensures { Gives result (cast_phrase.reads (pieces source.entry)) }
{
    let (op, source) = meaning(source, &CASTS)?;
    let source = flags(source);
    let (from, source) = width(source)?;
    let (value, source) = operand(alloc, source, from)?;
    let source = skip_word(source, b"to")?;
    let (to, source) = width(source)?;
    let source = after(source)?;
    Ok((
        Operation::Cast {
            op,
            from,
            value,
            to,
        },
        source,
    ))
}

/// A choice of two values.
pub fn select<'a>(alloc: Global, source: Source<'a>) -> Result<(Operation, Source<'a>), Stop<'a>>
    ensures { Gives result (select_phrase.reads (pieces source.entry)) }
{
    let source = skip_word(source, b"select")?;
    let source = skip_word(source, b"i1")?;
    let (condition, source) = operand(alloc, source, 1)?;
    let source = skip_mark(source, b",")?;
    let (a, source) = typed(alloc, source)?;
    let source = skip_mark(source, b",")?;
    let (b, source) = typed(alloc, source)?;
    let source = after(source)?;
    Ok((Operation::Select { condition, a, b }, source))
}

/// A new object.
pub fn alloca<'a>(alloc: Global, source: Source<'a>) -> Result<(Operation, Source<'a>), Stop<'a>>
    ensures { Gives result (alloca_phrase.reads (pieces source.entry)) }
{
    let source = skip_word(source, b"alloca")?;
    let (kind, source) = mem_type(alloc, source, NESTING)?;
    let source = after_alloca(source)?;
    Ok((Operation::Alloca { kind }, source))
}

/// A read of memory.
pub fn load<'a>(alloc: Global, source: Source<'a>) -> Result<(Operation, Source<'a>), Stop<'a>>
    ensures { Gives result (load_phrase.reads (pieces source.entry)) }
{
    let source = volatile(skip_word(source, b"load")?)?;
    let (kind, source) = scalar_type(source)?;
    let source = skip_mark(source, b",")?;
    let (pointer, source) = pointer(alloc, source)?;
    let source = after(source)?;
    Ok((Operation::Load { kind, pointer }, source))
}

/// A write of memory.
#[tactic(auto, unfolding(ir_grammar::specs::Instructions::store))]
pub fn store<'a>(alloc: Global, source: Source<'a>) -> Result<(Instruction, Source<'a>), Stop<'a>>
    ensures { Gives result (store_phrase.reads (pieces source.entry)) }
{
    let (at, source) = place_of_word(source, b"store")?;
    let source = volatile(source)?;
    let (kind, source) = scalar_type(source)?;
    let (value, source) = operand_in(alloc, source, &kind)?;
    let source = skip_mark(source, b",")?;
    let (pointer, source) = pointer(alloc, source)?;
    let source = after(source)?;
    let operation = Operation::Store {
        kind,
        value,
        pointer,
    };
    let found = Instruction {
        at,
        result: None,
        operation,
    };
    Ok((found, source))
}
