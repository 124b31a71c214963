//! Tokens, as slices of the source.

/// What a token is.
#[derive(Clone, Copy, Debug, PartialEq, Eq)]
pub enum TokenKind {
    Word,
    Global,
    Local,
    Label,
    Int,
    Str,
    CStr,
    AttrGroup,
    Meta,
    Punct,
    /// From the first byte at which no token stands to the end of the source.
    Bad,
}

/// A token and the bytes of the source that it takes, from `start` to before `end`.
#[derive(Clone, Copy, Debug, PartialEq, Eq)]
pub struct Token {
    pub kind: TokenKind,
    pub start: u32,
    pub end: u32,
}
