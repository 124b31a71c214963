//! Blocks.

ghost use Rattle.std.specs.Prelude.{◌≡◌};
ghost use Rattle.phrases.specs.Piece.{starts};
ghost use Rattle.phrases.specs.Phrase.{many};
ghost use Rattle.ir_grammar.specs.Instructions.{label as label_phrase, block as block_phrase, block_starts};
ghost use Rattle.reader_words.specs.Source.{pieces};
ghost use Rattle.reader_words.specs.Gives.{Gives};

use crate::lines::block_lines;
use ir_lexer::token::TokenKind;
use ir_tree::instructions::Block;
use ir_tree::types::Name;
use plain_list::Sequence;
use reader_edges::terminators::terminator;
use reader_words::names::label_name;
use reader_words::source::Source;
use reader_words::stop::Stop;
use reader_words::words::{has_kind, has_word_of};
use std::alloc::Global;

/// A label, or none.
fn label<'a>(alloc: Global, source: Source<'a>) -> Result<(Option<Name>, Source<'a>), Stop<'a>>
    ensures { Gives result (label_phrase.reads (pieces source.entry)) }
{
    if has_kind(source, TokenKind::Label) {
        let (name, source) = label_name(alloc, source)?;
        return Ok((Some(name), source));
    }
    Ok((None, source))
}

/// A block.
#[tactic(auto, unfolding(ir_grammar::specs::Instructions::block))]
pub fn block<'a>(alloc: Global, source: Source<'a>) -> Result<(Block, Source<'a>), Stop<'a>>
    ensures { Gives result (block_phrase.reads (pieces source.entry)) }
{
    let (label, source) = label(alloc, source)?;
    let (body, source) = block_lines(alloc, source)?;
    let (terminator, source) = terminator(alloc, source)?;
    let found = Block {
        label,
        phis: body.phis,
        instructions: body.instructions,
        terminator,
    };
    Ok((found, source))
}

/// The words with which a block without a label and without a register may begin.
const BLOCK_WORDS: [&[u8]; 8] = [
    b"store",
    b"tail",
    b"notail",
    b"call",
    b"ret",
    b"br",
    b"switch",
    b"unreachable",
];

/// Whether a block comes next.
pub fn has_block(source: Source<'_>) -> bool
    ensures { result ≡ starts block_starts (pieces source.entry) }
{
    if has_kind(source, TokenKind::Label) {
        return true;
    }
    if has_kind(source, TokenKind::Local) {
        return true;
    }
    has_word_of(source, &BLOCK_WORDS)
}

/// Any number of blocks.
pub fn blocks<'a>(
    alloc: Global,
    source: Source<'a>,
) -> Result<(Sequence<Block>, Source<'a>), Stop<'a>>
    ensures { Gives result ((many block_starts block_phrase).reads (pieces source.entry)) }
{
    let mut found = Sequence::new(alloc);
    let mut rest = source;
    'turns: while has_block(rest) {
        let (next, after) = block(alloc, rest)?;
        found.push(next)?;
        rest = after;
    }
    Ok((found, rest))
}
