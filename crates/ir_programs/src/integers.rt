//! Integers as they are written.
ghost use Rattle.std.specs.Prelude.{◌≡◌, ◌^◌, nat_lt};
ghost use Rattle.bitnum.specs.Number.{IsWidth};
ghost use Rattle.ir_programs.specs.Constants as spec;

use ir_tree::constants::Integer;

fn is_below(width: u8, magnitude: u64) -> bool
    requires { IsWidth width }
    ensures { result ≡ nat_lt magnitude (2 ^ width) }
{
    match 2u64.checked_pow(u32::from(width)) {
        Some(limit) => magnitude < limit,
        None => true,
    }
}

/// Whether an integer has so many bits, with or without a sign.
pub fn fits_width(width: u8, number: Integer) -> bool
    requires { IsWidth width }
    ensures { result ≡ spec.fits_width width number }
{
    if number.negative {
        number.magnitude <= 1 << (width - 1)
    } else {
        is_below(width, number.magnitude)
    }
}
