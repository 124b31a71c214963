//! Which tokens texts have. Places were counted by hand.

use ir_lexer::text::lex;
use ir_lexer::token::{Token, TokenKind};
use std::alloc::AllocError;

fn token(kind: TokenKind, start: u32, end: u32) -> Token {
    Token { kind, start, end }
}

#[test]
fn parts_each_kind(rt: HostRuntime) -> Result<(), AllocError> {
    let text = b"%a = add i32 1, -2 ; x\n !0 = !{}\n\"l 1\": ret...: <{ }> #f #1 !dbg ! ~z";
    let tokens = lex(rt.alloc(), text.as_slice())?;
    let wanted = [
        token(TokenKind::Local, 0, 2),
        token(TokenKind::Punct, 3, 4),
        token(TokenKind::Word, 5, 8),
        token(TokenKind::Word, 9, 12),
        token(TokenKind::Int, 13, 14),
        token(TokenKind::Punct, 14, 15),
        token(TokenKind::Int, 16, 18),
        token(TokenKind::Label, 33, 39),
        token(TokenKind::Label, 40, 47),
        token(TokenKind::Punct, 48, 50),
        token(TokenKind::Punct, 51, 53),
        token(TokenKind::Punct, 54, 56),
        token(TokenKind::AttrGroup, 57, 59),
        token(TokenKind::Meta, 60, 64),
        token(TokenKind::Meta, 65, 66),
        token(TokenKind::Bad, 67, 69),
    ];
    assert_eq!(rt; tokens.as_slice(), wanted.as_slice());
    Ok(())
}

#[test]
fn keeps_what_stands_in_strings(rt: HostRuntime) -> Result<(), AllocError> {
    let tokens = lex(rt.alloc(), b"c\"a;\n!b\" @\"x\ny\" \"z".as_slice())?;
    let wanted = [
        token(TokenKind::CStr, 0, 8),
        token(TokenKind::Global, 9, 15),
        token(TokenKind::Bad, 16, 18),
    ];
    assert_eq!(rt; tokens.as_slice(), wanted.as_slice());
    Ok(())
}
