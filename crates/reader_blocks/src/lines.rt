//! Lines of a block: phis, and instructions.

ghost use Rattle.std.specs.Prelude.{◌≡◌, ◌∷◌, [], OnOk};
ghost use Rattle.phrases.specs.Piece.{starts};
ghost use Rattle.ir_grammar.specs.Instructions.{an_instruction, set as set_phrase, named_line as named_phrase, plain_line as plain_phrase, line as line_phrase, line_starts, phis_after as still, lines as lines_phrase};
ghost use Rattle.reader_words.specs.Source.{pieces};
ghost use Rattle.reader_words.specs.Gives.{Gives, GivesAs};
ghost use Rattle.reader_blocks.specs.Lines.{line_of, with_lines, parted};

use ir_lexer::token::TokenKind;
use ir_tree::instructions::{Instruction, Phi};
use ir_tree::types::Name;
use plain_list::Sequence;
use reader_edges::phis::phi;
use reader_operations::calls::{call_alone, operation};
use reader_operations::operations::store;
use reader_words::names::local_name;
use reader_words::source::Source;
use reader_words::stop::Stop;
use reader_words::words::{has_kind, has_word, has_word_of, skip_mark};
use std::alloc::{AllocError, Global};

/// A line of a block.
#[derive(Drop)]
pub enum Line {
    Phi(Phi),
    Instruction(Instruction),
}

/// The lines of a block.
#[derive(Drop)]
pub struct Body {
    pub phis: Sequence<Phi>,
    pub instructions: Sequence<Instruction>,
}

/// The words with which a line begins.
const LINE_WORDS: [&[u8]; 4] = [b"store", b"tail", b"notail", b"call"];

/// A line that sets no register.
fn plain_line<'a>(alloc: Global, source: Source<'a>) -> Result<(Line, Source<'a>), Stop<'a>>
    ensures { GivesAs line_of result (plain_phrase.reads (pieces source.entry)) }
{
    if has_word(source, b"store") {
        let (found, source) = store(alloc, source)?;
        return Ok((Line::Instruction(found), source));
    }
    let (found, source) = call_alone(alloc, source)?;
    Ok((Line::Instruction(found), source))
}

/// An instruction that sets a register.
fn set<'a>(
    alloc: Global,
    source: Source<'a>,
    register: Name,
) -> Result<(Instruction, Source<'a>), Stop<'a>>
    ensures { GivesAs an_instruction result ((set_phrase register).reads (pieces source.entry)) }
{
    let (operation, source) = operation(alloc, source)?;
    let at = register.at;
    let found = Instruction {
        at,
        result: Some(register),
        operation,
    };
    Ok((found, source))
}

/// A line that sets a register: a phi only where phis may still stand.
fn named_line<'a>(
    alloc: Global,
    source: Source<'a>,
    phis: bool,
) -> Result<(Line, Source<'a>), Stop<'a>>
    ensures { GivesAs line_of result ((named_phrase phis).reads (pieces source.entry)) }
{
    let (register, source) = local_name(alloc, source)?;
    let source = skip_mark(source, b"=")?;
    if phis && has_word(source, b"phi") {
        let (found, source) = phi(alloc, source, register)?;
        return Ok((Line::Phi(found), source));
    }
    let (found, source) = set(alloc, source, register)?;
    Ok((Line::Instruction(found), source))
}

#[tactic(auto, unfolding(ir_grammar::specs::Instructions::line))]
fn next_line<'a>(
    alloc: Global,
    source: Source<'a>,
    phis: bool,
) -> Result<(Line, Source<'a>), Stop<'a>>
    ensures { GivesAs line_of result ((line_phrase phis).reads (pieces source.entry)) }
{
    if has_kind(source, TokenKind::Local) {
        named_line(alloc, source, phis)
    } else {
        plain_line(alloc, source)
    }
}

/// Whether a line comes next.
fn has_line(source: Source<'_>) -> bool
    ensures { result ≡ starts line_starts (pieces source.entry) }
{
    has_kind(source, TokenKind::Local) || has_word_of(source, &LINE_WORDS)
}

/// Whether phis may still stand after a line.
fn phis_after(phis: bool, line: &Line) -> bool
    ensures { result ≡ still phis (line_of line.now) }
{
    match line {
        Line::Phi(_) => phis,
        Line::Instruction(_) => false,
    }
}

impl Body {
    /// Takes one more line.
    fn add(&mut self, line: Line) -> Result<(), AllocError>
        ensures { OnOk result (self.new ≡ with_lines self.old (line_of line ∷ [])) }
    {
        match line {
            Line::Phi(found) => self.phis.push(found),
            Line::Instruction(found) => self.instructions.push(found),
        }
    }
}

/// The phis and instructions of a block.
pub fn block_lines<'a>(alloc: Global, source: Source<'a>) -> Result<(Body, Source<'a>), Stop<'a>>
    ensures { Gives result (parted (lines_phrase.reads (pieces source.entry))) }
{
    let mut found = Body {
        phis: Sequence::new(alloc),
        instructions: Sequence::new(alloc),
    };
    let mut rest = source;
    let mut phis = true;
    'lines: while has_line(rest) {
        let (next, after) = next_line(alloc, rest, phis)?;
        phis = phis_after(phis, &next);
        found.add(next)?;
        rest = after;
    }
    Ok((found, rest))
}
