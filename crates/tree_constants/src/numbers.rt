//! The bits of integers.
ghost use Rattle.std.specs.Prelude.{◌≡◌, ◌^◌, ◌<◌, ◌-◌, ◌%◌, if◌then◌else◌, nat_le, nat_lt};
ghost use Rattle.bitnum.specs.Number.{IsWidth};
ghost use Rattle.ir_programs.specs.Addresses.{index_bits as bits_of_index};
ghost use Rattle.ir_programs.specs.Causes.{bits_of as bits_of_integer};
ghost use Rattle.ir_programs.specs.Constants.{fits_width};

use bitnum::{Num, sext};
use ir_tree::constants::{ConstIndex, Integer};

/// The bits of an integer, so many of them.
pub fn bits_of(width: u8, number: &Integer) -> u64
    requires { IsWidth width }
    ensures value { result ≡ bits_of_integer width number.now }
    ensures few { result < 2 ^ width }
{
    match 2u64.checked_pow(u32::from(width)) {
        Some(limit) => narrow_bits(limit, *number),
        None => wide_bits(*number),
    }
}

/// The bits of an index, its sign in all that are above its own.
pub fn index_bits(index: &ConstIndex) -> u64
    requires { IsWidth index.now.width }
    ensures { result ≡ bits_of_index index.now }
{
    let bits = bits_of(index.width, &index.value);
    sext(Num::new(index.width, bits), 64).bits()
}

/// The bits of an integer, as many as make numbers below a limit.
fn narrow_bits(limit: u64, number: Integer) -> u64
    requires { 0 < limit }
    ensures { result ≡ (if number.negative then (limit - number.magnitude) % limit else number.magnitude % limit) }
{
    if number.negative {
        limit.saturating_sub(number.magnitude) % limit
    } else {
        number.magnitude % limit
    }
}

/// The 64 bits of an integer.
fn wide_bits(number: Integer) -> u64
    ensures { result ≡ bits_of_integer 64 number }
{
    if number.negative {
        0u64.wrapping_sub(number.magnitude)
    } else {
        number.magnitude
    }
}

/// Whether an integer has so many bits, with or without a sign, however many these are.
pub fn is_of_width(width: u8, number: Integer) -> bool
    ensures { result ≡ fits_width width number }
{
    if number.negative {
        is_at_most(width.saturating_sub(1), number.magnitude)
    } else {
        is_below(width, number.magnitude)
    }
}

fn is_below(exponent: u8, magnitude: u64) -> bool
    ensures { result ≡ nat_lt magnitude (2 ^ exponent) }
{
    match 2u64.checked_pow(u32::from(exponent)) {
        Some(limit) => magnitude < limit,
        None => true,
    }
}

fn is_at_most(exponent: u8, magnitude: u64) -> bool
    ensures { result ≡ nat_le magnitude (2 ^ exponent) }
{
    match 2u64.checked_pow(u32::from(exponent)) {
        Some(limit) => magnitude <= limit,
        None => true,
    }
}
