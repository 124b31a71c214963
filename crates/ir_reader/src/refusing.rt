//! Errors: the place of the first token that is refused, and whether what stands there is unsupported.

ghost use Rattle.std.specs.Prelude.{◌≡◌, ◌<◌, ◌^◌, length};
ghost use Rattle.phrases.specs.Piece.{among, matches};
ghost use Rattle.ir_grammar.specs.Unsupported.{unsupported_tokens};
ghost use Rattle.reader_words.specs.Source.{piece_of, pieces};
ghost use Rattle.ir_reader.specs.Refusing.{wide_integer, unsupported_marks, hash_name, Tells};

use crate::text::SyntaxError;
use ir_lexer::token::TokenKind;
use plain_list::Sequence;
use reader_words::source::{Lexeme, Source};
use std::alloc::{AllocError, Global};

/// Words that are unsupported wherever they are refused.
const UNSUPPORTED_WORDS: [&[u8]; 78] = [
    b"half",
    b"bfloat",
    b"float",
    b"double",
    b"fp128",
    b"x86_fp80",
    b"ppc_fp128",
    b"x86_mmx",
    b"x86_amx",
    b"token",
    b"metadata",
    b"opaque",
    b"addrspace",
    b"thread_local",
    b"external",
    b"extern_weak",
    b"available_externally",
    b"appending",
    b"dllimport",
    b"dllexport",
    b"ifunc",
    b"alias",
    b"asm",
    b"module",
    b"comdat",
    b"byval",
    b"byref",
    b"sret",
    b"inalloca",
    b"preallocated",
    b"nest",
    b"swiftself",
    b"swifterror",
    b"musttail",
    b"atomic",
    b"cmpxchg",
    b"atomicrmw",
    b"fence",
    b"va_arg",
    b"freeze",
    b"invoke",
    b"callbr",
    b"resume",
    b"landingpad",
    b"catchswitch",
    b"catchpad",
    b"cleanuppad",
    b"catchret",
    b"cleanupret",
    b"indirectbr",
    b"fneg",
    b"fadd",
    b"fsub",
    b"fmul",
    b"fdiv",
    b"frem",
    b"fcmp",
    b"fptrunc",
    b"fpext",
    b"fptoui",
    b"fptosi",
    b"uitofp",
    b"sitofp",
    b"ptrtoint",
    b"ptrtoaddr",
    b"inttoptr",
    b"bitcast",
    b"addrspacecast",
    b"extractelement",
    b"insertelement",
    b"shufflevector",
    b"extractvalue",
    b"insertvalue",
    b"blockaddress",
    b"dso_local_equivalent",
    b"no_cfi",
    b"splat",
    b"inrange",
];

/// Whether a token is the name of an integer type of no bits or more than 64.
fn is_wide_integer(found: Lexeme<'_>) -> bool
    ensures { result ≡ matches wide_integer (piece_of found.entry) }
{
    found.is_integer_type() && found.width().is_none()
}

/// Whether it is a `#` with a name behind it.
fn is_hash_name(found: Lexeme<'_>) -> bool
    ensures { result ≡ matches hash_name (piece_of found.entry) }
{
    if !found.is(TokenKind::Punct) {
        return false;
    }
    match found.text {
        [first, ..] => *first == b'#',
        [] => false,
    }
}

/// Whether it is one of the marks that are unsupported.
fn is_unsupported_mark(found: Lexeme<'_>) -> bool
    ensures { result ≡ among unsupported_marks (piece_of found.entry) }
{
    found.is_mark(b"...") || found.is_mark(b"<") || found.is_mark(b"*")
}

/// Whether it is unsupported wherever it is refused.
fn is_unsupported(found: Lexeme<'_>) -> bool
    ensures { result ≡ among unsupported_tokens (piece_of found.entry) }
{
    if is_wide_integer(found) {
        return true;
    }
    if is_unsupported_mark(found) {
        return true;
    }
    if is_hash_name(found) {
        return true;
    }
    found.is_word_of(&UNSUPPORTED_WORDS)
}

/// The error where the tokens that are left are refused, named as unsupported or not.
pub fn refusal(alloc: Global, bytes: &[u8], rest: Source<'_>, named: bool) -> SyntaxError
    requires { length bytes.now < 2 ^ 32 }
    ensures { Tells bytes.now named (pieces rest.entry) result }
{
    let Some((found, _)) = rest.next() else {
        let at = bytes.len() as u32;
        return SyntaxError::Syntax { at };
    };
    let at = found.at;
    if named || is_unsupported(found) {
        return match Sequence::from_slice(alloc, found.text) {
            Ok(what) => SyntaxError::Unsupported { at, what },
            Err(AllocError) => SyntaxError::Memory,
        };
    }
    SyntaxError::Syntax { at }
}
