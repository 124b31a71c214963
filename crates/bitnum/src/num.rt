ghost use Rattle.std.specs.Prelude.{◌≡◌, ◌+◌, ◌≤◌, ◌<◌, ◌^◌};
ghost use Rattle.bitnum.specs.Number.{IsWidth, IsNumber};
ghost use Rattle.bitnum.specs.Operations as spec;

use crate::bits::{all_ones, bits_of, cut, sign_extended};
use crate::{BinOp, Pred};
use std::marker::Model;

/// A number of 1 to 64 bits, which are below 2 to the width: a value of an integer type iN of the LLVM Language
/// Reference. Whether it has a sign is a matter of the operation.
#[derive(Clone, Copy, Debug, PartialEq, Eq, Hash)]
pub struct Num {
    width: u8,
    bits: u64,
}

impl Model for Num {
    ghost use Rattle.bitnum.specs.Number.{Number, coded_number, IsNumber};

    ghost Value = { Number };

    ghost coded = { coded_number };

    ghost view = { λ n. record { width = n.width; bits = n.bits } };

    ghost invariant = { λ n. IsNumber (record { width = n.width; bits = n.bits }) };

    ghost inverse = { λ n. record { width = n.width; bits = n.bits } };
}

impl Num {
    /// The number of this width whose bits these are, read as unsigned.
    pub fn new(width: u8, bits: u64) -> Num
        requires width_is { IsWidth width }
        requires fits { bits < 2 ^ width }
        ensures { result ≡ record { width = width; bits = bits } }
    {
        Num { width, bits }
    }

    /// How many bits there are, 1 to 64.
    pub fn width(self) -> u8
        ensures width { result ≡ self.width }
        ensures number { IsNumber self }
    {
        self.width
    }

    /// The bits, read as unsigned.
    pub fn bits(self) -> u64
        ensures bits { result ≡ self.bits }
        ensures number { IsNumber self }
    {
        self.bits
    }
}

/// What the operation gives of two numbers of one width. There is a value for every pair: see `BinOp`.
pub fn apply(op: BinOp, a: Num, b: Num) -> Num
    requires { a.width ≡ b.width }
    ensures { result ≡ spec.applied op a b }
{
    Num {
        width: a.width,
        bits: bits_of(op, a.width, a.bits, b.bits),
    }
}

fn is_signed(op: BinOp) -> bool
    ensures { result ≡ spec.is_signed op }
{
    matches!(op, BinOp::Sdiv | BinOp::Srem)
}

/// Whether a division of the two is left open by the language.
fn is_undefined(op: BinOp, a: Num, b: Num) -> bool
    ensures { result ≡ spec.is_undefined op a b }
{
    b.bits == 0 || is_signed(op) && (a.bits == 1 << (a.width - 1) && b.bits == all_ones(b.width))
}

/// What the division gives, or `None` exactly where the LLVM Language Reference has undefined behavior: by 0, and in a
/// signed division of the least number by -1.
pub fn divide(op: BinOp, a: Num, b: Num) -> Option<Num>
    requires division { spec.IsDivision op }
    requires one_width { a.width ≡ b.width }
    ensures { result ≡ spec.divided op a b }
{
    if is_undefined(op, a, b) {
        None
    } else {
        Some(apply(op, a, b))
    }
}

// The bits with the top one turned round.
fn raised(a: Num) -> u64
    ensures { result ≡ spec.raised a }
{
    cut(a.width, a.bits.wrapping_add(1 << (a.width - 1)))
}

/// Whether the comparison holds of two numbers of one width.
pub fn compare(pred: Pred, a: Num, b: Num) -> bool
    requires { a.width ≡ b.width }
    ensures { result ≡ spec.holds pred a b }
{
    match pred {
        Pred::Eq => a.bits == b.bits,
        Pred::Ne => a.bits != b.bits,
        Pred::Ugt => a.bits > b.bits,
        Pred::Uge => a.bits >= b.bits,
        Pred::Ult => a.bits < b.bits,
        Pred::Ule => a.bits <= b.bits,
        Pred::Sgt => raised(a) > raised(b),
        Pred::Sge => raised(a) >= raised(b),
        Pred::Slt => raised(a) < raised(b),
        Pred::Sle => raised(a) <= raised(b),
    }
}

/// The number in as many bits or more, with 0 in the new ones: the 'zext .. to' instruction, and at one width the number.
pub fn zext(a: Num, width: u8) -> Num
    requires width_is { IsWidth width }
    requires wider { a.width ≤ width }
    ensures { result ≡ spec.widened a width }
{
    Num {
        width,
        bits: a.bits,
    }
}

/// The number in as many bits or more, with the sign in the new ones: the 'sext .. to' instruction, and at one width the
/// number.
pub fn sext(a: Num, width: u8) -> Num
    requires width_is { IsWidth width }
    requires wider { a.width ≤ width }
    ensures { result ≡ spec.sign_widened a width }
{
    let bits = sign_extended(a.width, width, a.bits);
    Num { width, bits }
}

/// The lowest bits, as many as the width: the 'trunc .. to' instruction, and at one width the number.
pub fn trunc(a: Num, width: u8) -> Num
    requires width_is { IsWidth width }
    requires narrower { width ≤ a.width }
    ensures { result ≡ spec.narrowed a width }
{
    Num {
        width,
        bits: cut(width, a.bits),
    }
}
