//! Terminators.

ghost use Rattle.std.specs.Prelude.{◌∷◌, []};
ghost use Rattle.phrases.specs.Phrase.{many};
ghost use Rattle.ir_grammar.specs.Tokens.{integer_type};
ghost use Rattle.ir_grammar.specs.Instructions.{return_term as return_phrase, target as target_phrase, jump as jump_phrase, branch as branch_phrase, branch_term as branch_term_phrase, case as case_phrase, switch_term as switch_phrase, unreachable_term as unreachable_phrase, terminator as terminator_phrase};
ghost use Rattle.reader_words.specs.Source.{pieces};
ghost use Rattle.reader_words.specs.Gives.{Gives};

use ir_tree::instructions::{Case, Terminator, TerminatorForm};
use ir_tree::types::Name;
use plain_list::Sequence;
use reader_types::operands::{operand, typed};
use reader_words::ignored::after;
use reader_words::names::local_name;
use reader_words::numbers::{Range, placed_int, width};
use reader_words::source::Source;
use reader_words::stop::Stop;
use reader_words::words::{has_integer_type, has_word, place_of_word, skip_mark, skip_word};
use std::alloc::Global;

/// The end of a function.
fn return_term<'a>(alloc: Global, source: Source<'a>) -> Result<(Terminator, Source<'a>), Stop<'a>>
    ensures { Gives result (return_phrase.reads (pieces source.entry)) }
{
    let (at, source) = place_of_word(source, b"ret")?;
    if has_word(source, b"void") {
        let source = after(skip_word(source, b"void")?)?;
        let form = TerminatorForm::Return(None);
        return Ok((Terminator { at, form }, source));
    }
    let (value, source) = typed(alloc, source)?;
    let source = after(source)?;
    let form = TerminatorForm::Return(Some(value));
    Ok((Terminator { at, form }, source))
}

/// The label to which a branch goes.
fn target<'a>(alloc: Global, source: Source<'a>) -> Result<(Name, Source<'a>), Stop<'a>>
    ensures { Gives result (target_phrase.reads (pieces source.entry)) }
{
    let source = skip_word(source, b"label")?;
    local_name(alloc, source)
}

/// A branch without a condition, behind its word.
fn jump<'a>(
    alloc: Global,
    source: Source<'a>,
    at: u32,
) -> Result<(Terminator, Source<'a>), Stop<'a>>
    ensures { Gives result ((jump_phrase at).reads (pieces source.entry)) }
{
    let (to, source) = target(alloc, source)?;
    let source = after(source)?;
    let form = TerminatorForm::Jump(to);
    Ok((Terminator { at, form }, source))
}

/// A branch with a condition, behind its word.
fn branch<'a>(
    alloc: Global,
    source: Source<'a>,
    at: u32,
) -> Result<(Terminator, Source<'a>), Stop<'a>>
    ensures { Gives result ((branch_phrase at).reads (pieces source.entry)) }
{
    let source = skip_word(source, b"i1")?;
    let (condition, source) = operand(alloc, source, 1)?;
    let source = skip_mark(source, b",")?;
    let (if_true, source) = target(alloc, source)?;
    let source = skip_mark(source, b",")?;
    let (if_false, source) = target(alloc, source)?;
    let source = after(source)?;
    let form = TerminatorForm::Branch {
        condition,
        if_true,
        if_false,
    };
    Ok((Terminator { at, form }, source))
}

fn branch_term<'a>(alloc: Global, source: Source<'a>) -> Result<(Terminator, Source<'a>), Stop<'a>>
    ensures { Gives result (branch_term_phrase.reads (pieces source.entry)) }
{
    let (at, source) = place_of_word(source, b"br")?;
    if has_word(source, b"label") {
        jump(alloc, source, at)
    } else {
        branch(alloc, source, at)
    }
}

/// A case of a switch.
fn case<'a>(alloc: Global, source: Source<'a>) -> Result<(Case, Source<'a>), Stop<'a>>
    ensures { Gives result (case_phrase.reads (pieces source.entry)) }
{
    let (width, source) = width(source)?;
    let ((value, at), source) = placed_int(source, Range::Width(width))?;
    let source = skip_mark(source, b",")?;
    let (label, source) = target(alloc, source)?;
    let found = Case {
        width,
        value,
        at,
        label,
    };
    Ok((found, source))
}

fn cases<'a>(alloc: Global, source: Source<'a>) -> Result<(Sequence<Case>, Source<'a>), Stop<'a>>
    ensures { Gives result ((many (integer_type ∷ []) case_phrase).reads (pieces source.entry)) }
{
    let mut found = Sequence::new(alloc);
    let mut rest = source;
    'cases: while has_integer_type(rest) {
        let (next, after) = case(alloc, rest)?;
        found.push(next)?;
        rest = after;
    }
    Ok((found, rest))
}

/// A branch by the value of a number.
fn switch_term<'a>(alloc: Global, source: Source<'a>) -> Result<(Terminator, Source<'a>), Stop<'a>>
    ensures { Gives result (switch_phrase.reads (pieces source.entry)) }
{
    let (at, source) = place_of_word(source, b"switch")?;
    let (width, source) = width(source)?;
    let (value, source) = operand(alloc, source, width)?;
    let source = skip_mark(source, b",")?;
    let (default, source) = target(alloc, source)?;
    let source = skip_mark(source, b"[")?;
    let (cases, source) = cases(alloc, source)?;
    let source = skip_mark(source, b"]")?;
    let source = after(source)?;
    let form = TerminatorForm::Switch {
        width,
        value,
        default,
        cases,
    };
    Ok((Terminator { at, form }, source))
}

fn unreachable_term(source: Source<'_>) -> Result<(Terminator, Source<'_>), Stop<'_>>
    ensures { Gives result (unreachable_phrase.reads (pieces source.entry)) }
{
    let (at, source) = place_of_word(source, b"unreachable")?;
    let source = after(source)?;
    let form = TerminatorForm::Unreachable;
    Ok((Terminator { at, form }, source))
}

/// The end of a block.
#[tactic(auto, unfolding(ir_grammar::specs::Instructions::terminator))]
pub fn terminator<'a>(
    alloc: Global,
    source: Source<'a>,
) -> Result<(Terminator, Source<'a>), Stop<'a>>
    ensures { Gives result (terminator_phrase.reads (pieces source.entry)) }
{
    if has_word(source, b"ret") {
        return_term(alloc, source)
    } else if has_word(source, b"br") {
        branch_term(alloc, source)
    } else if has_word(source, b"switch") {
        switch_term(alloc, source)
    } else {
        unreachable_term(source)
    }
}
