//! Names and strings as they are printed.
ghost use Rattle.std.specs.Prelude.{◌≡◌, ◌<◌, ◌++◌, ◌∷◌, [], OnOk};
ghost use Rattle.ir_tree.specs.Texts as texts;

use ir_lexer::classes::{is_number, is_plain_name};
use std::alloc::AllocError;

/// A hexadecimal digit, with upper-case letters.
fn hex_digit(digit: u8) -> u8
    requires { digit < 16 }
    ensures { result ≡ texts.hex_digit digit }
{
    if digit < 10 { 48 + digit } else { 55 + digit }
}

/// Whether a byte of a quoted text stands by its digits.
fn is_escaped(byte: u8) -> bool
    ensures { result ≡ texts.is_escaped byte }
{
    byte < 32 || byte > 126 || byte == b'"' || byte == b'\\'
}

/// Puts a byte of a quoted text.
fn push_escaped(text: &mut Vec<u8>, byte: u8) -> Result<(), AllocError>
    ensures { OnOk result (text.new.items ≡ text.old.items ++ texts.escaped (byte ∷ [])) }
{
    if is_escaped(byte) {
        return text.extend_from_slice(&[b'\\', hex_digit(byte / 16), hex_digit(byte % 16)]);
    }
    text.extend_from_slice(&[byte])
}

/// Puts a text in quotes: `"`, `\` and bytes outside 32 to 126 by two digits.
pub(crate) fn push_quoted(text: &mut Vec<u8>, bytes: &[u8]) -> Result<(), AllocError>
    ensures { OnOk result (text.new.items ≡ text.old.items ++ texts.quoted bytes.now) }
{
    text.push(b'"')?;
    for byte in bytes {
        push_escaped(text, *byte)?;
    }
    text.push(b'"')?;
    Ok(())
}

/// Puts a name: as it is where it has the form without quotes or is a number, else in quotes.
pub fn push_name(text: &mut Vec<u8>, name: &[u8]) -> Result<(), AllocError>
    ensures { OnOk result (text.new.items ≡ text.old.items ++ texts.name_text name.now) }
{
    if is_plain_name(name) || is_number(name) {
        return text.extend_from_slice(name);
    }
    push_quoted(text, name)
}
