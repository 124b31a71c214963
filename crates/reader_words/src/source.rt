//! The tokens that are left, over the bytes that they are slices of.

ghost use Rattle.std.specs.Prelude.{◌≡◌, ◌∷◌, [], MatchOption};
ghost use Rattle.ir_grammar.specs.Tokens.{bytes_of};
ghost use Rattle.reader_words.specs.Source.{piece_of, pieces};

use ir_lexer::token::{Token, TokenKind};

/// The tokens that are left to read.
#[derive(Clone, Copy)]
pub struct Source<'a> {
    pub bytes: &'a [u8],
    pub tokens: &'a [Token],
}

/// A token with its text, and the byte at which it begins.
#[derive(Clone, Copy)]
pub struct Lexeme<'a> {
    pub kind: TokenKind,
    pub text: &'a [u8],
    pub at: u32,
}

/// The bytes of a token; none where it doesn't lie in the source.
fn text_of<'a>(bytes: &'a [u8], token: Token) -> &'a [u8]
    ensures { result.now ≡ bytes_of bytes.now token }
{
    let start = token.start as usize;
    let end = token.end as usize;
    if start <= end && end <= bytes.len() {
        &bytes[start..end]
    } else {
        &[]
    }
}

impl<'a> Source<'a> {
    /// The token that comes next, and the tokens after it.
    pub fn next(self) -> Option<(Lexeme<'a>, Source<'a>)>
        ensures { MatchOption result (pieces self.entry ≡ []) (λ x. pieces self.entry ≡ piece_of x.0 ∷ pieces x.1) }
    {
        match self.tokens {
            [] => None,
            [token, tokens @ ..] => Some((
                Lexeme {
                    kind: token.kind,
                    text: text_of(self.bytes, *token),
                    at: token.start,
                },
                Source {
                    bytes: self.bytes,
                    tokens,
                },
            )),
        }
    }
}
