//! Words that are no command, with the first that may not stand where it does.
use crate::modules::RETURNS_ZERO;
use crate::running::{Row, all_end};
use chop_top::Status;
use std::test::Fail;

const USAGES: [Row; 44] = [
    ("", RETURNS_ZERO, "usage end\n"),
    ("explored", RETURNS_ZERO, "usage explored\n"),
    ("explore", RETURNS_ZERO, "usage end\n"),
    ("explore --input", RETURNS_ZERO, "usage end\n"),
    ("explore --input 65 F", RETURNS_ZERO, "usage 65\n"),
    ("explore --input 00 F", RETURNS_ZERO, "usage 00\n"),
    ("explore --steps 0 F", RETURNS_ZERO, "usage 0\n"),
    ("explore --shares 100001 F", RETURNS_ZERO, "usage 100001\n"),
    (
        "explore --steps 5 --input 1 --steps 5 F",
        RETURNS_ZERO,
        "usage --steps\n",
    ),
    (
        "explore --input --steps 5 F",
        RETURNS_ZERO,
        "usage --steps\n",
    ),
    ("explore --input=1 F", RETURNS_ZERO, "usage --input=1\n"),
    ("explore _ F", RETURNS_ZERO, "usage \n"),
    ("explore --trace --trace F", RETURNS_ZERO, "usage --trace\n"),
    (
        "explore --conditions --steps 5 --conditions F",
        RETURNS_ZERO,
        "usage --conditions\n",
    ),
    ("explore --trace=1 F", RETURNS_ZERO, "usage --trace=1\n"),
    ("explore --input --trace F", RETURNS_ZERO, "usage --trace\n"),
    ("explore F --trace", RETURNS_ZERO, "usage --trace\n"),
    ("explore --hex 00 F", RETURNS_ZERO, "usage --hex\n"),
    ("print", RETURNS_ZERO, "usage end\n"),
    ("print --steps 5 F", RETURNS_ZERO, "usage --steps\n"),
    ("print --trace F", RETURNS_ZERO, "usage --trace\n"),
    ("print F G", RETURNS_ZERO, "usage G\n"),
    ("sites F G", RETURNS_ZERO, "usage G\n"),
    ("run --hex 7A --steps 5 F", RETURNS_ZERO, "usage 7A\n"),
    ("run --hex 7 --steps 5 F", RETURNS_ZERO, "usage 7\n"),
    ("run --hex _ F", RETURNS_ZERO, "usage \n"),
    ("run --hex 0g F", RETURNS_ZERO, "usage 0g\n"),
    ("run --hex -- F", RETURNS_ZERO, "usage --\n"),
    ("run --hex 00 F", RETURNS_ZERO, "usage F\n"),
    ("run --steps 5 F", RETURNS_ZERO, "usage F\n"),
    ("run --hex 00 --hex 00 F", RETURNS_ZERO, "usage --hex\n"),
    ("run --input 1 --hex 00 F", RETURNS_ZERO, "usage --input\n"),
    (
        "run --hex 00 --steps 1000001 F",
        RETURNS_ZERO,
        "usage 1000001\n",
    ),
    ("run --hex 00 --steps 05 F", RETURNS_ZERO, "usage 05\n"),
    ("run --hex 00 --steps +5 F", RETURNS_ZERO, "usage +5\n"),
    ("run --hex 00 --steps 5", RETURNS_ZERO, "usage end\n"),
    (
        "run --hex 00 --trace --steps 5 F",
        RETURNS_ZERO,
        "usage --trace\n",
    ),
    ("run --hex 00 --steps 5 F G", RETURNS_ZERO, "usage G\n"),
    ("slice F f", RETURNS_ZERO, "usage end\n"),
    ("slice F -f input", RETURNS_ZERO, "usage -f\n"),
    ("slice F f _", RETURNS_ZERO, "usage \n"),
    ("slice F f input G", RETURNS_ZERO, "usage G\n"),
    ("slice --steps 5 F", RETURNS_ZERO, "usage --steps\n"),
    (
        "run --hex 000102030405060708090a0b0c0d0e0f101112131415161718191a1b1c1d1e1f202122232425262728292a2b2c2d2e2f303132333435363738393a3b3c3d3eff00 --steps 5 F",
        RETURNS_ZERO,
        "usage 000102030405060708090a0b0c0d0e0f101112131415161718191a1b1c1d1e1f202122232425262728292a2b2c2d2e2f303132333435363738393a3b3c3d3eff00\n",
    ),
];

#[test]
fn usages(rt: HostRuntime) -> Result<(), Fail> {
    all_end(&rt, rt.alloc(), Status::Usage, &USAGES)
}
