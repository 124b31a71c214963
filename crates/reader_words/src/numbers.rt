//! Numbers, and the widths of integer types.

ghost use Rattle.std.specs.Prelude.{◌≡◌, ◌≤◌, ◌<◌, ◌^◌, ◌+◌, ◌*◌, ◌-◌, true, nat_lt, Some, None, IfOk, IfSome, MatchOption, if◌then◌else◌};
ghost use Rattle.ir_grammar.specs.Numbers.{digits_value, written as written_in, int_in, width_of as width_in, fits_width as width_fits};
ghost use Rattle.ir_grammar.specs.Types.{int as int_phrase, width as width_phrase};
ghost use Rattle.ir_grammar.specs.Instructions.{placed_int as placed_phrase};
ghost use Rattle.reader_words.specs.Ranges.{fits as fits_in, is_small};
ghost use Rattle.reader_words.specs.Source.{piece_of, pieces};
ghost use Rattle.reader_words.specs.Gives.{Gives};

use crate::source::{Lexeme, Source};
use crate::stop::Stop;
use ir_lexer::token::TokenKind;
use ir_tree::constants::Integer;

/// Where an integer may lie.
#[derive(Clone, Copy, Debug, PartialEq, Eq)]
pub enum Range {
    /// From -2^63 to 2^64 - 1.
    Any,
    /// Below 2^63 in size.
    Offset,
    /// From 0 to 2^63 - 1.
    Length,
    /// In the range of so many bits, at most 64: from -2^(bits - 1) to 2^bits - 1.
    Width(u8),
    /// In the range of so many bits, at most 64, and below 2^63 in size.
    Index(u8),
}

fn with_digit(value: u64, digit: u8) -> Option<u64>
    ensures { result ≡ (if nat_lt (10 * value + (digit - 48)) (2 ^ 64) then Some (10 * value + (digit - 48)) else None) }
{
    value
        .checked_mul(10)?
        .checked_add(u64::from(digit.saturating_sub(48)))
}

/// The number that the digits write, below 2 to the 64.
fn decimal(text: &[u8]) -> Option<u64>
    ensures { result ≡ (if nat_lt (digits_value 0 text.now) (2 ^ 64) then Some (digits_value 0 text.now) else None) }
{
    let mut value: u64 = 0;
    for digit in text {
        value = with_digit(value, *digit)?;
    }
    Some(value)
}

/// The number with its sign, where its size is below 2 to the 64.
fn written(text: &[u8]) -> Option<Integer>
    ensures { result ≡ (if nat_lt (written_in text.now).magnitude (2 ^ 64) then Some (written_in text.now) else None) }
{
    match text {
        [45, digits @ ..] => {
            let magnitude = decimal(digits)?;
            Some(Integer {
                negative: magnitude != 0,
                magnitude,
            })
        }
        _ => {
            let magnitude = decimal(text)?;
            Some(Integer {
                negative: false,
                magnitude,
            })
        }
    }
}

/// Whether a number lies in the range of so many bits.
fn fits_width(width: u8, number: Integer) -> bool
    requires { width ≤ 64 }
    ensures { result ≡ width_fits width number }
{
    match 2u64.checked_pow(u32::from(width)) {
        Some(limit) if number.negative => number.magnitude <= limit / 2,
        Some(limit) => number.magnitude < limit,
        None => !number.negative || number.magnitude <= 1 << 63,
    }
}

impl Range {
    /// Whether a number lies in the range.
    fn has(self, number: Integer) -> bool
        requires { is_small self ≡ true }
        ensures { result ≡ fits_in self number }
    {
        match self {
            Range::Any => fits_width(64, number),
            Range::Offset => number.magnitude < 1 << 63,
            Range::Length => !number.negative && number.magnitude < 1 << 63,
            Range::Width(width) => fits_width(width, number),
            Range::Index(width) => fits_width(width, number) && number.magnitude < 1 << 63,
        }
    }
}

impl<'a> Lexeme<'a> {
    /// The number that it is, if it is one in the range.
    pub fn int(self, range: Range) -> Option<Integer>
        requires { is_small range ≡ true }
        ensures { result ≡ int_in (fits_in range) (piece_of self.entry) }
    {
        if !self.is(TokenKind::Int) {
            return None;
        }
        written(self.text).filter(|number| range.has(*number))
    }

    /// The number of bits of the integer type that it names, from 1 to 64.
    pub fn width(self) -> Option<u8>
        ensures value { result ≡ width_in (piece_of self.entry) }
        ensures small { IfSome result (λ width. width ≤ 64) }
    {
        if !self.is_integer_type() {
            return None;
        }
        match decimal(&self.text[1..]) {
            Some(width) if 1 <= width && width <= 64 => Some(width as u8),
            _ => None,
        }
    }
}

/// A number in a range.
pub fn int(source: Source<'_>, range: Range) -> Result<(Integer, Source<'_>), Stop<'_>>
    requires { is_small range ≡ true }
    ensures { Gives result ((int_phrase (fits_in range)).reads (pieces source.entry)) }
{
    if let Some((found, rest)) = source.next() {
        if let Some(number) = found.int(range) {
            return Ok((number, rest));
        }
    }
    Err(Stop::Refused(false, source))
}

/// A number in a range, and the byte at which it begins.
pub fn placed_int(
    source: Source<'_>,
    range: Range,
) -> Result<((Integer, u32), Source<'_>), Stop<'_>>
    requires { is_small range ≡ true }
    ensures { Gives result ((placed_phrase (fits_in range)).reads (pieces source.entry)) }
{
    if let Some((found, rest)) = source.next() {
        if let Some(number) = found.int(range) {
            return Ok(((number, found.at), rest));
        }
    }
    Err(Stop::Refused(false, source))
}

/// An integer type, by its number of bits.
pub fn width(source: Source<'_>) -> Result<(u8, Source<'_>), Stop<'_>>
    ensures given { Gives result (width_phrase.reads (pieces source.entry)) }
    ensures small { IfOk result (λ x. x.0 ≤ 64) }
{
    if let Some((found, rest)) = source.next() {
        if let Some(width) = found.width() {
            return Ok((width, rest));
        }
    }
    Err(Stop::Refused(false, source))
}
