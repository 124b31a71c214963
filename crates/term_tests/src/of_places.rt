ghost use Rattle.std.specs.Prelude.{◌≡◌};

use places::{Home, Opened, Shown};
use std::alloc::AllocError;
use std::marker::Brand;
use std::test::Fail;

// A byte is named as itself.
struct Itself;

impl Shown<u8, u8> for Itself {
    ghost of = { λ x. x };
}

// The numbers of two places, and whether a copy of the first and the second are the first.
fn two_places<H: Home>(opened: Opened<u8>) -> Result<(u64, u64, bool, bool), AllocError>
    requires { opened.seen.book ≡ H.book }
{
    let places = opened.named::<H>();
    let one = places.place::<u8, Itself>(&7)?;
    let other = places.place::<u8, Itself>(&7)?;
    let copy = one.again();
    Ok((
        one.number(),
        other.number(),
        one.same(&copy),
        one.same(&other),
    ))
}

#[test]
fn each_place_has_its_own_number(rt: HostRuntime) -> Result<(), Fail> {
    let (one, other, copied, mixed) = two_places::<Brand>(Opened::new())?;
    assert_eq!(rt; (one, other), (0, 1));
    assert!(rt; copied && !mixed);
    Ok(())
}
