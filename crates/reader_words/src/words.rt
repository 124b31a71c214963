//! Which token comes next, and going past it.

ghost use Rattle.std.specs.Prelude.{◌≡◌, ◌==◌, ◌∷◌, [], map};
ghost use Rattle.phrases.specs.Piece.{same_text, any, matches, among, starts};
ghost use Rattle.phrases.specs.Phrase.{got, one, skip as skip_phrase, place, skip_many};
ghost use Rattle.ir_grammar.specs.Tokens.{number_of as number, word, mark, words as words_of, heads, meaning as meaning_of, all_but, are_digits as all_digits, is_plain_number as is_plain, names_integer as is_integer_name, is_odd as is_odd_name, integer_type, odd_integer_type};
ghost use Rattle.reader_words.specs.Source.{piece_of, pieces};
ghost use Rattle.reader_words.specs.Gives.{Gives, Moves};

use crate::source::{Lexeme, Source};
use crate::stop::Stop;
use ir_lexer::token::TokenKind;

fn number_of(kind: TokenKind) -> u8
    ensures { result ≡ number kind }
{
    match kind {
        TokenKind::Word => 0,
        TokenKind::Global => 1,
        TokenKind::Local => 2,
        TokenKind::Label => 3,
        TokenKind::Int => 4,
        TokenKind::Str => 5,
        TokenKind::CStr => 6,
        TokenKind::AttrGroup => 7,
        TokenKind::Meta => 8,
        TokenKind::Punct => 9,
        TokenKind::Bad => 10,
    }
}

fn is_kind(a: TokenKind, b: TokenKind) -> bool
    ensures { result ≡ (number a == number b) }
{
    number_of(a) == number_of(b)
}

fn is_text(text: &[u8], other: &[u8]) -> bool
    ensures { result ≡ same_text text.now other.now }
{
    text == other
}

// ---- single tokens

impl<'a> Lexeme<'a> {
    /// Whether it is a token of this kind.
    pub fn is(self, kind: TokenKind) -> bool
        ensures { result ≡ matches (any (number kind)) (piece_of self.entry) }
    {
        is_kind(self.kind, kind)
    }

    /// Whether it is the word of this text.
    pub fn is_word(self, text: &[u8]) -> bool
        ensures { result ≡ matches (word text.now) (piece_of self.entry) }
    {
        is_kind(self.kind, TokenKind::Word) && is_text(self.text, text)
    }

    /// Whether it is the mark of this text.
    pub fn is_mark(self, text: &[u8]) -> bool
        ensures { result ≡ matches (mark text.now) (piece_of self.entry) }
    {
        is_kind(self.kind, TokenKind::Punct) && is_text(self.text, text)
    }

    /// Whether it is one of the words.
    pub fn is_word_of(self, words: &[&[u8]]) -> bool
        ensures { result ≡ among (words_of (map (λ w. w.now) words.now)) (piece_of self.entry) }
    {
        for text in words {
            if self.is_word(text) {
                return true;
            }
        }
        false
    }

    /// Whether it is no Bad token and not the mark of this text.
    #[tactic(auto, using(crate::proofs::Tables::or_false))]
    fn is_other(self, text: &[u8]) -> bool
        ensures { result ≡ among (all_but text.now) (piece_of self.entry) }
    {
        match self.kind {
            TokenKind::Bad => false,
            TokenKind::Punct => !is_text(self.text, text),
            _ => true,
        }
    }

    /// Whether it is the name of an integer type, of any width.
    pub fn is_integer_type(self) -> bool
        ensures { result ≡ matches integer_type (piece_of self.entry) }
    {
        is_kind(self.kind, TokenKind::Word) && names_integer(self.text)
    }
}

/// Whether a word of this text comes next.
pub fn has_word(source: Source<'_>, text: &[u8]) -> bool
    ensures { result ≡ starts (word text.now ∷ []) (pieces source.entry) }
{
    match source.next() {
        None => false,
        Some((found, _)) => found.is_word(text),
    }
}

/// Whether a mark of this text comes next.
pub fn has_mark(source: Source<'_>, text: &[u8]) -> bool
    ensures { result ≡ starts (mark text.now ∷ []) (pieces source.entry) }
{
    match source.next() {
        None => false,
        Some((found, _)) => found.is_mark(text),
    }
}

/// Whether a token of this kind comes next.
pub fn has_kind(source: Source<'_>, kind: TokenKind) -> bool
    ensures { result ≡ starts (any (number kind) ∷ []) (pieces source.entry) }
{
    match source.next() {
        None => false,
        Some((found, _)) => found.is(kind),
    }
}

/// Goes past a word of this text.
pub fn skip_word<'a>(source: Source<'a>, text: &[u8]) -> Result<Source<'a>, Stop<'a>>
    ensures { Moves result ((skip_phrase (word text.now ∷ [])).reads (pieces source.entry)) }
{
    match source.next() {
        Some((found, rest)) if found.is_word(text) => Ok(rest),
        _ => Err(Stop::Refused(false, source)),
    }
}

/// Goes past a mark of this text.
pub fn skip_mark<'a>(source: Source<'a>, text: &[u8]) -> Result<Source<'a>, Stop<'a>>
    ensures { Moves result ((skip_phrase (mark text.now ∷ [])).reads (pieces source.entry)) }
{
    match source.next() {
        Some((found, rest)) if found.is_mark(text) => Ok(rest),
        _ => Err(Stop::Refused(false, source)),
    }
}

/// Goes past a token of this kind.
pub fn skip_kind(source: Source<'_>, kind: TokenKind) -> Result<Source<'_>, Stop<'_>>
    ensures { Moves result ((skip_phrase (any (number kind) ∷ [])).reads (pieces source.entry)) }
{
    match source.next() {
        Some((found, rest)) if found.is(kind) => Ok(rest),
        _ => Err(Stop::Refused(false, source)),
    }
}

/// The byte at which a word of this text begins.
pub fn place_of_word<'a>(source: Source<'a>, text: &[u8]) -> Result<(u32, Source<'a>), Stop<'a>>
    ensures { Gives result ((place (word text.now ∷ [])).reads (pieces source.entry)) }
{
    match source.next() {
        Some((found, rest)) if found.is_word(text) => Ok((found.at, rest)),
        _ => Err(Stop::Refused(false, source)),
    }
}

/// The byte at which a mark of this text begins.
pub fn place_of_mark<'a>(source: Source<'a>, text: &[u8]) -> Result<(u32, Source<'a>), Stop<'a>>
    ensures { Gives result ((place (mark text.now ∷ [])).reads (pieces source.entry)) }
{
    match source.next() {
        Some((found, rest)) if found.is_mark(text) => Ok((found.at, rest)),
        _ => Err(Stop::Refused(false, source)),
    }
}

// ---- tables of words

/// Whether one of the words comes next.
pub fn has_word_of(source: Source<'_>, words: &[&[u8]]) -> bool
    ensures { result ≡ starts (words_of (map (λ w. w.now) words.now)) (pieces source.entry) }
{
    match source.next() {
        None => false,
        Some((found, _)) => found.is_word_of(words),
    }
}

/// Goes past one of the words.
pub fn skip_word_of<'a>(source: Source<'a>, words: &[&[u8]]) -> Result<Source<'a>, Stop<'a>>
    ensures { Moves result ((skip_phrase (words_of (map (λ w. w.now) words.now))).reads (pieces source.entry)) }
{
    if has_word_of(source, words) {
        if let Some((_, rest)) = source.next() {
            return Ok(rest);
        }
    }
    Err(Stop::Refused(false, source))
}

/// The byte at which one of the words begins.
pub fn place_of_word_of<'a>(
    source: Source<'a>,
    words: &[&[u8]],
) -> Result<(u32, Source<'a>), Stop<'a>>
    ensures { Gives result ((place (words_of (map (λ w. w.now) words.now))).reads (pieces source.entry)) }
{
    if has_word_of(source, words) {
        if let Some((found, rest)) = source.next() {
            return Ok((found.at, rest));
        }
    }
    Err(Stop::Refused(false, source))
}

/// Goes past all of these words.
pub fn skip_words<'a>(source: Source<'a>, words: &[&[u8]]) -> Source<'a>
    ensures { (skip_many (words_of (map (λ w. w.now) words.now)) (skip_phrase (words_of (map (λ w. w.now) words.now)))).reads (pieces source.entry) ≡ got tt (pieces result) }
{
    let mut rest = source;
    'words: while has_word_of(rest, words) {
        let Some((_, after)) = rest.next() else {
            return rest;
        };
        rest = after;
    }
    rest
}

/// Goes past all tokens but a Bad one and the mark.
pub fn skip_all_but<'a>(source: Source<'a>, text: &[u8]) -> Source<'a>
    ensures { (skip_many (all_but text.now) (skip_phrase (all_but text.now))).reads (pieces source.entry) ≡ got tt (pieces result) }
{
    let mut rest = source;
    'tokens: while has_other(rest, text) {
        let Some((_, after)) = rest.next() else {
            return rest;
        };
        rest = after;
    }
    rest
}

/// Whether a token comes next that is no Bad one and not the mark.
pub fn has_other(source: Source<'_>, text: &[u8]) -> bool
    ensures { result ≡ starts (all_but text.now) (pieces source.entry) }
{
    match source.next() {
        None => false,
        Some((found, _)) => found.is_other(text),
    }
}

/// What the next word means by a table.
pub fn meaning<'a, T: Copy>(
    source: Source<'a>,
    rows: &[(&[u8], T)],
) -> Result<(T, Source<'a>), Stop<'a>>
    ensures { Gives result ((one (meaning_of (map (λ r. (r.0.now, r.1)) rows.now))).reads (pieces source.entry)) }
{
    if let Some((found, rest)) = source.next() {
        if let Some(value) = found.meaning(rows) {
            return Ok((value, rest));
        }
    }
    Err(Stop::Refused(false, source))
}

/// Whether a word of the table comes next.
pub fn has_head<T: Copy>(source: Source<'_>, rows: &[(&[u8], T)]) -> bool
    ensures { result ≡ starts (heads (map (λ r. (r.0.now, r.1)) rows.now)) (pieces source.entry) }
{
    match source.next() {
        None => false,
        Some((found, _)) => found.is_head(rows),
    }
}

impl<'a> Lexeme<'a> {
    /// Whether it is a word of the table.
    fn is_head<T: Copy>(self, rows: &[(&[u8], T)]) -> bool
        ensures { result ≡ among (heads (map (λ r. (r.0.now, r.1)) rows.now)) (piece_of self.entry) }
    {
        for row in rows {
            if self.is_word(row.0) {
                return true;
            }
        }
        false
    }

    /// What it means by a table.
    pub fn meaning<T: Copy>(self, rows: &[(&[u8], T)]) -> Option<T>
        ensures { result ≡ meaning_of (map (λ r. (r.0.now, r.1)) rows.now) (piece_of self.entry) }
    {
        for row in rows {
            if self.is_word(row.0) {
                return Some(row.1);
            }
        }
        None
    }
}

// ---- names of integer types

/// Whether each byte is a decimal digit.
pub fn are_digits(text: &[u8]) -> bool
    ensures { result ≡ all_digits text.now }
{
    for byte in text {
        if !(48 <= *byte && *byte <= 57) {
            return false;
        }
    }
    true
}

/// Whether the text is digits, and begins with a 0 only where that is all.
fn is_plain_number(text: &[u8]) -> bool
    ensures { result ≡ is_plain text.now }
{
    match text {
        [] => false,
        [_] => are_digits(text),
        [first, ..] => *first != 48 && are_digits(text),
    }
}

/// Whether the text is `i` and a number.
pub fn names_integer(text: &[u8]) -> bool
    ensures { result ≡ is_integer_name text.now }
{
    match text {
        [] => false,
        [first, digits @ ..] => *first == 105 && is_plain_number(digits),
    }
}

/// Whether the text names an integer type that no memory holds.
fn is_odd(text: &[u8]) -> bool
    ensures { result ≡ is_odd_name text.now }
{
    names_integer(text)
        && !is_text(text, b"i8")
        && !is_text(text, b"i16")
        && !is_text(text, b"i32")
        && !is_text(text, b"i64")
}

/// Whether the name of an integer type comes next.
pub fn has_integer_type(source: Source<'_>) -> bool
    ensures { result ≡ starts (integer_type ∷ []) (pieces source.entry) }
{
    match source.next() {
        None => false,
        Some((found, _)) => found.is_integer_type(),
    }
}

/// Whether the name of an integer type comes next that no memory holds.
pub fn has_odd_integer_type(source: Source<'_>) -> bool
    ensures { result ≡ starts (odd_integer_type ∷ []) (pieces source.entry) }
{
    match source.next() {
        None => false,
        Some((found, _)) => is_kind(found.kind, TokenKind::Word) && is_odd(found.text),
    }
}
