//! The operations of terms, on numbers.
ghost use Rattle.std.specs.Prelude.{◌≡◌, ◌+◌, ◌≤◌};
ghost use Rattle.terms.specs.Tree.{FitsOne, FitsTwo};
ghost use Rattle.terms.specs.Value as spec;

use crate::term::{Binary, Unary};
use bitnum::{Num, Pred, apply, compare, sext, trunc, zext};

/// What an operation gives of one number.
pub(crate) fn one_of(op: Unary, n: Num) -> Num
    requires { FitsOne op n.width }
    ensures { result ≡ spec.one_of op n }
{
    match op {
        Unary::Not => Num::new(1, 1 - n.bits()),
        Unary::Zext(width) => zext(n, width),
        Unary::Sext(width) => sext(n, width),
        Unary::Trunc(width) => trunc(n, width),
        Unary::Byte(j) => Num::new(8, n.bits() >> (8 * j) & 255),
    }
}

/// One bit: 1 for what is true.
pub(crate) fn truth(test: bool) -> Num
    ensures { result ≡ spec.truth test }
{
    Num::new(1, u64::from(test))
}

/// The second number above the first.
pub(crate) fn joined(m: Num, n: Num) -> Num
    requires { m.width + n.width ≤ 64 }
    ensures { result ≡ spec.two_of Binary.Join m n }
{
    Num::new(m.width() + n.width(), m.bits() + (n.bits() << m.width()))
}

/// What an operation gives of two numbers.
pub(crate) fn two_of(op: Binary, m: Num, n: Num) -> Num
    requires { FitsTwo op m.width n.width }
    ensures { result ≡ spec.two_of op m n }
{
    match op {
        Binary::Bin(op) => apply(op, m, n),
        Binary::Eq => truth(compare(Pred::Eq, m, n)),
        Binary::Ult => truth(compare(Pred::Ult, m, n)),
        Binary::Slt => truth(compare(Pred::Slt, m, n)),
        Binary::Join => joined(m, n),
    }
}
