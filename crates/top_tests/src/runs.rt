//! Runs on one input: with a status, at a fault, and with all steps spent.
use crate::modules::LOGGER;
use crate::running::{Row, all_end};
use chop_top::Status;
use std::test::Fail;

const FAULT_AFTER_WRITE: &str = "@g = global i32 0
declare i32 @getchar()
define void @f(i32 %x) {
  store i32 7, ptr @g
  %q = udiv i32 1, %x
  ret void
}
define i32 @main() {
  %a = call i32 @getchar()
  call void @f(i32 %a)
  %v = load i32, ptr @g
  ret i32 %v
}
";

const LEAST_BY_MINUS_ONE: &str = "define i32 @main() { %q = sdiv i32 -2147483648, -1 ret i32 %q }";

const SHIFT_BY_WIDTH: &str = "define i32 @main() { %q = shl i32 1, 32 ret i32 %q }";

const ECHO: &str = "declare i32 @getchar()
declare i32 @putchar(i32)
define i32 @main() {
e:
  br label %l
l:
  %c = call i32 @getchar()
  %d = icmp eq i32 %c, -1
  br i1 %d, label %x, label %w
w:
  %p = call i32 @putchar(i32 %c)
  br label %l
x:
  ret i32 258
}
";

const RUNS: [Row; 9] = [
    (
        "run --hex 00 --steps 100 F",
        FAULT_AFTER_WRITE,
        "fault divide-by-zero at=f:1 output=- steps=6\n",
    ),
    (
        "run --hex 00 --steps 6 F",
        FAULT_AFTER_WRITE,
        "fault divide-by-zero at=f:1 output=- steps=6\n",
    ),
    (
        "run --hex 00 --steps 5 F",
        FAULT_AFTER_WRITE,
        "spent output=- steps=5\n",
    ),
    (
        "run --hex - --steps 9 F",
        LEAST_BY_MINUS_ONE,
        "fault divide-overflow at=main:0 output=- steps=1\n",
    ),
    (
        "run --hex - --steps 2 F",
        SHIFT_BY_WIDTH,
        "complete status=0 output=- steps=2\n",
    ),
    (
        "run --hex - --steps 1 F",
        SHIFT_BY_WIDTH,
        "spent output=- steps=1\n",
    ),
    (
        "run --steps 1000000 --hex 61ff F",
        ECHO,
        "complete status=2 output=61ff steps=27\n",
    ),
    (
        "run --hex 000102030405060708090a0b0c0d0e0f101112131415161718191a1b1c1d1e1f202122232425262728292a2b2c2d2e2f303132333435363738393a3b3c3d3eff --steps 1000000 F",
        ECHO,
        "complete status=2 output=000102030405060708090a0b0c0d0e0f101112131415161718191a1b1c1d1e1f202122232425262728292a2b2c2d2e2f303132333435363738393a3b3c3d3eff steps=647\n",
    ),
    (
        "run --hex - --steps 1000 F",
        LOGGER,
        "complete status=1 output=3221 steps=101\n",
    ),
];

#[test]
fn runs(rt: HostRuntime) -> Result<(), Fail> {
    all_end(&rt, rt.alloc(), Status::Done, &RUNS)
}
