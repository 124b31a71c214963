//! Parts of a line.
ghost use Rattle.std.specs.Prelude.{◌≡◌, ◌<◌, ◌++◌, OnOk};
ghost use Rattle.std.specs.Fmt.{decimal};
ghost use Rattle.value_texts.specs.Values as spec;

use flat_ir::FaultKind;
use std::alloc::{AllocError, Global};

/// A text as it is.
pub fn put_text(text: &mut Vec<u8>, piece: &str) -> Result<(), AllocError>
    ensures { OnOk result (text.new.items ≡ text.old.items ++ piece.now) }
{
    text.extend_from_slice(piece.as_bytes())
}

/// A number, in decimal digits.
pub fn put_number(alloc: Global, text: &mut Vec<u8>, number: u64) -> Result<(), AllocError>
    ensures { OnOk result (text.new.items ≡ text.old.items ++ decimal number) }
{
    let digits = format!(in alloc; "{number}")?;
    put_text(text, digits.as_str())
}

fn lower_digit(digit: u8) -> u8
    requires { digit < 16 }
    ensures { result ≡ spec.hex_digit digit }
{
    if digit < 10 { 48 + digit } else { 87 + digit }
}

// Bytes as hexadecimal digits.
fn put_hex(text: &mut Vec<u8>, bytes: &[u8]) -> Result<(), AllocError>
    ensures { OnOk result (text.new.items ≡ text.old.items ++ spec.hex bytes.now) }
{
    'digits: for byte in bytes {
        text.extend_from_slice(&[lower_digit(*byte / 16), lower_digit(*byte % 16)])?;
    }
    Ok(())
}

/// Bytes as hexadecimal digits, or a dash where there are none.
pub fn put_bytes(text: &mut Vec<u8>, bytes: &[u8]) -> Result<(), AllocError>
    ensures { OnOk result (text.new.items ≡ text.old.items ++ spec.bytes_text bytes.now) }
{
    match bytes {
        [] => text.extend_from_slice(b"-"),
        bytes => put_hex(text, bytes),
    }
}

/// A fault's name.
pub fn fault_text(kind: FaultKind) -> &'static str
    ensures { result.now ≡ spec.fault_text kind }
{
    match kind {
        FaultKind::DivideByZero => "divide-by-zero",
        FaultKind::DivideOverflow => "divide-overflow",
        FaultKind::NullAccess => "null-access",
        FaultKind::UseAfterFree => "use-after-free",
        FaultKind::OutOfBounds => "out-of-bounds",
        FaultKind::MixedBytes => "mixed-bytes",
        FaultKind::BadFree => "bad-free",
        FaultKind::Unreachable => "unreachable",
        FaultKind::Assert => "assert",
        FaultKind::Abort => "abort",
        FaultKind::NoReturn => "no-return",
    }
}
