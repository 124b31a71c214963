//! A text in tokens.

ghost use Rattle.std.specs.Prelude.{◌≡◌, ◌<◌, ◌≤◌, ◌^◌, ◌-◌, false, length, drop, IfOk};
ghost use Rattle.ir_lexer.specs.Lexing as spec;
ghost use Rattle.ir_lexer.specs.Lexing.{AreTokens, HasOneList, AreSlices};

use crate::classes::is_blank;
use crate::scan::token_at;
use crate::token::{Token, TokenKind};
use std::alloc::{AllocError, Global};

/// Whether a comment begins, or a line that is skipped whole.
fn begins_comment(fresh: bool, byte: u8) -> bool
    ensures { result ≡ spec.begins_comment fresh byte }
{
    byte == 59 || fresh && byte == 33
}

/// Whether nothing but spaces and tabs stands on the line, after one more blank.
fn fresh_after(fresh: bool, byte: u8) -> bool
    ensures { result ≡ spec.fresh_after fresh byte }
{
    byte == 10 || fresh && (byte == 32 || byte == 9)
}

/// The place behind blanks and comments.
fn past(bytes: &[u8], from: usize, on_fresh_line: bool) -> usize
    requires { from ≤ length bytes.now }
    ensures value { drop result bytes.now ≡ spec.past false on_fresh_line (drop from bytes.now) }
    ensures within { result ≤ length bytes.now }
{
    let mut at = from;
    let mut fresh = on_fresh_line;
    let mut in_comment = false;
    'blanks: while at < bytes.len() {
        let byte = bytes[at];
        if in_comment {
            if byte == 10 {
                in_comment = false;
                fresh = true;
            }
        } else if is_blank(byte) {
            fresh = fresh_after(fresh, byte);
        } else if begins_comment(fresh, byte) {
            in_comment = true;
        } else {
            return at;
        }
        at += 1;
    }
    at
}

/// The tokens of a text.
pub fn lex(alloc: Global, bytes: &[u8]) -> Result<Vec<Token>, AllocError>
    requires { length bytes.now < 2 ^ 32 }
    ensures { IfOk result (λ tokens. AreTokens bytes.now tokens.items) }
{
    let mut tokens = Vec::new(alloc);
    let mut at = past(bytes, 0, true);
    'tokens: while at < bytes.len() {
        let start = at as u32;
        match token_at(&bytes[at..]) {
            Some((kind, len)) => {
                let end = (at + len) as u32;
                tokens.push(Token { kind, start, end })?;
                at = past(bytes, at + len, false);
            }
            None => {
                let end = bytes.len() as u32;
                tokens.push(Token {
                    kind: TokenKind::Bad,
                    start,
                    end,
                })?;
                return Ok(tokens);
            }
        }
    }
    Ok(tokens)
}

/// A text has one list of tokens.
pub fn a_text_has_one_list()
    ensures { HasOneList }
{}

/// Tokens are slices of the source, in order.
pub fn tokens_are_slices()
    ensures { AreSlices }
{}
