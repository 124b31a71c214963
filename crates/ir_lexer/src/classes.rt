//! Classes of bytes.

ghost use Rattle.std.specs.Prelude.{◌≡◌, []};
ghost use Rattle.ir_lexer.specs.Forms as forms;
ghost use Rattle.ir_lexer.specs.Lexing as lexing;
ghost use Rattle.ir_lexer.specs.Classes.{in_class};

/// A class of bytes that runs are made of.
#[derive(Clone, Copy, Debug, PartialEq, Eq)]
pub enum Class {
    Word,
    Name,
    Digit,
    /// Any byte but a quote.
    Unquoted,
}

pub fn is_digit(byte: u8) -> bool
    ensures { result ≡ forms.is_digit byte }
{
    48 <= byte && byte <= 57
}

pub fn is_letter(byte: u8) -> bool
    ensures { result ≡ forms.is_letter byte }
{
    97 <= byte && byte <= 122 || 65 <= byte && byte <= 90
}

pub fn is_word_start(byte: u8) -> bool
    ensures { result ≡ forms.is_word_start byte }
{
    is_letter(byte) || byte == 95
}

pub fn is_name_start(byte: u8) -> bool
    ensures { result ≡ forms.is_name_start byte }
{
    is_letter(byte) || byte == 45 || byte == 36 || byte == 46 || byte == 95
}

pub fn is_mark_byte(byte: u8) -> bool
    ensures { result ≡ forms.is_mark_byte byte }
{
    matches!(
        byte,
        b'=' | b',' | b'(' | b')' | b'[' | b']' | b'{' | b'}' | b'<' | b'>' | b'*' | b'|'
    )
}

pub fn is_blank(byte: u8) -> bool
    ensures { result ≡ lexing.is_blank byte }
{
    byte == 32 || byte == 9 || byte == 13 || byte == 10
}

impl Class {
    /// Whether a byte is of the class.
    pub fn has(self, byte: u8) -> bool
        ensures { result ≡ in_class self byte }
    {
        match self {
            Class::Word => is_word_start(byte) || is_digit(byte) || byte == 46,
            Class::Name => is_name_start(byte) || is_digit(byte),
            Class::Digit => is_digit(byte),
            Class::Unquoted => byte != 34,
        }
    }
}

/// Whether bytes are all of a class.
fn are(class: Class, bytes: &[u8]) -> bool
    ensures { result ≡ forms.runs_to (in_class class) [] bytes.now }
{
    for byte in bytes {
        if !class.has(*byte) {
            return false;
        }
    }
    true
}

/// Whether a name stands without quotes.
pub fn is_plain_name(name: &[u8]) -> bool
    ensures { result ≡ forms.is_plain_name name.now }
{
    match name {
        [] => false,
        [first, rest @ ..] => is_name_start(*first) && are(Class::Name, rest),
    }
}

/// Whether a name is a number.
pub fn is_number(name: &[u8]) -> bool
    ensures { result ≡ forms.is_number name.now }
{
    match name {
        [] => false,
        [first, rest @ ..] => is_digit(*first) && are(Class::Digit, rest),
    }
}
