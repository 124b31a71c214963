//! A module's text, read to its end.

ghost use Rattle.std.specs.Prelude.{◌<◌, ◌^◌, ℕ, List, Option, length, IfOk, IfErr};
ghost use Rattle.ir_lexer.specs.Lexing.{AreTokens};
ghost use Rattle.ir_tree.specs.declared.module.IrTree.{IrTree};
ghost use Rattle.ir_grammar.specs.Tokens.{seen};
ghost use Rattle.ir_grammar.specs.Laws.{IsModule};
ghost use Rattle.ir_reader.specs.Refusing.{TellsOf};
ghost use Rattle.ir_reader.specs.Reading.{IsReadAs, IsRefusedAt, Says, IsTree, IsRefusal};

use crate::entities::module;
use crate::refusing::refusal;
use ir_lexer::token::Token;
use ir_tree::module::IrTree;
use plain_list::Sequence;
use reader_numbering::numbering::numbered;
use reader_words::source::Source;
use reader_words::stop::Stop;
use std::alloc::{AllocError, Global};
use std::fmt;
use thiserror::Error;

/// Why a text is not read as a module, and the byte at which that shows: where the first token begins that stands in no
/// module after those before it, or the end of the text.
#[derive(Drop, Error)]
pub enum SyntaxError {
    /// The token can't stand there.
    #[error("byte {at}: this cannot stand here")]
    Syntax { at: u32 },
    /// The token, which has this text, is a part of the language that is not supported.
    #[error("byte {at}: this is not supported")]
    Unsupported { at: u32, what: Sequence<u8> },
    #[error("out of memory")]
    Memory,
}

impl fmt::Debug for SyntaxError {
    fn fmt<W: fmt::Write>(&self, f: &mut fmt::Formatter<W>) -> fmt::Result {
        write!(f, "{self}")
    }
}

/// The tree of the tokens as it is written.
fn spelled(alloc: Global, bytes: &[u8], tokens: &[Token]) -> Result<IrTree, SyntaxError>
    requires { length bytes.now < 2 ^ 32 }
    ensures tree { IfOk result (λ tree. IsModule tree (seen bytes.now tokens.now)) }
    ensures error { IfErr result (λ e. TellsOf bytes.now (seen bytes.now tokens.now) e) }
{
    match module(alloc, Source { bytes, tokens }) {
        Ok((tree, rest)) => match rest.tokens {
            [] => Ok(tree),
            _ => Err(refusal(alloc, bytes, rest, false)),
        },
        Err(Stop::Refused(named, rest)) => Err(refusal(alloc, bytes, rest, named)),
        Err(Stop::Memory) => Err(SyntaxError::Memory),
    }
}

/// The tree with its numbers, or what is told of the refusal.
fn answer(alloc: Global, bytes: &[u8], tokens: &[Token]) -> Result<IrTree, SyntaxError>
    requires short { length bytes.now < 2 ^ 32 }
    requires lexed { AreTokens bytes.now tokens.now }
    ensures tree { IfOk result (λ tree. IsReadAs bytes.now tree) }
    ensures error { IfErr result (λ e. Says bytes.now e) }
{
    match spelled(alloc, bytes, tokens) {
        Ok(tree) => match numbered(alloc, tree) {
            Ok(tree) => Ok(tree),
            Err(AllocError) => Err(SyntaxError::Memory),
        },
        Err(e) => Err(e),
    }
}

/// The tree of a module, from its text and the tokens that `lex` gave for it. What the text leaves unnamed has its number.
///
/// # Errors
/// `Syntax` or `Unsupported` exactly where the text is no module, with the place of the first token that is refused, and
/// `Memory`.
pub fn read(alloc: Global, bytes: &[u8], tokens: &[Token]) -> Result<IrTree, SyntaxError>
    requires short { length bytes.now < 2 ^ 32 }
    requires lexed { AreTokens bytes.now tokens.now }
    // What is read is the text's tree.
    ensures tree { IfOk result (λ tree. IsReadAs bytes.now tree) }
    // A module is read.
    ensures module { (tree : IrTree) → IsReadAs bytes.now tree → IsTree tree result }
    // What is refused is no module, and the error tells the first token that is refused.
    ensures error { IfErr result (λ e. Says bytes.now e) }
    // A text that is no module is refused.
    ensures refused { (at : ℕ) (unsupported : Option (List ℕ)) → IsRefusedAt bytes.now at unsupported → IsRefusal at unsupported result }
{
    answer(alloc, bytes, tokens)
}
