//! Reports of explorations, with their budgets, events and conditions; where pointers point and what functions change; and modules printed anew.
use crate::modules::{FORK, LINKED, LOGGER, RETURNS_ZERO};
use crate::running::{Row, all_end, answered};
use chop_top::Status;
use std::test::Fail;

const STORED: &str = "@t = global ptr null
define i32 @main() {
  %p = alloca i32
  store ptr %p, ptr @t
  %q = load ptr, ptr @t
  store i32 1, ptr %q
  ret i32 0
}
";

const SITES_OF_STORED: &str = "site @t holds main:0
site main:0 holds
mod main cells(@t) cells(main:0) life(main:0)
";

const SITES_OF_LINKED: &str = "site @head holds f:0
site f:0 holds f:1
site f:1 holds
mod f cells(@head) cells(f:0) cells(f:1) life(f:0) life(f:1)
mod main cells(@head) cells(f:0) cells(f:1) life(f:0) life(f:1)
";

const LETTERS: &str = "declare i32 @getchar()
define i32 @main() {
  %c = call i32 @getchar()
  switch i32 %c, label %d [ i32 65, label %a i32 66, label %b ]
a:
  ret i32 1
b:
  ret i32 2
d:
  ret i32 3
}
";

const REPORT_OF_LETTERS: &str = "options input=1 steps=100000 leaves=10000 shares=1024
1 complete input=41 status=1 output=- steps=5
2 complete input=42 status=2 output=- steps=5
3 complete input=00 status=3 output=- steps=5
total 3 complete 3 fault 0 skipped 0 open 0
";

const WHOLE_REPORT_OF_FORK: &str = "options input=1 steps=100000 leaves=10000 shares=1024
1 complete input=00 status=0 output=- steps=6
  branch main:2 0
  when (not (eq (zext 32 in0) 65:32))
2 complete input=41 status=1 output=- steps=6
  branch main:2 1
  when (eq (zext 32 in0) 65:32)
total 2 complete 2 fault 0 skipped 0 open 0
";

const EVENTS_OF_FORK: &str = "options input=1 steps=100000 leaves=10000 shares=1024
1 complete input=00 status=0 output=- steps=6
  branch main:2 0
2 complete input=41 status=1 output=- steps=6
  branch main:2 1
total 2 complete 2 fault 0 skipped 0 open 0
";

const CONDITIONS_OF_FORK: &str = "options input=1 steps=100000 leaves=10000 shares=1024
1 complete input=00 status=0 output=- steps=6
  when (not (eq (zext 32 in0) 65:32))
2 complete input=41 status=1 output=- steps=6
  when (eq (zext 32 in0) 65:32)
total 2 complete 2 fault 0 skipped 0 open 0
";

const ARRAY: &str = "@a = global [4 x i8] c\"wxyz\"
declare i32 @getchar()
define i32 @main() {
  %c = call i32 @getchar()
  %p = getelementptr [4 x i8], ptr @a, i64 0, i32 %c
  %v = load i8, ptr %p
  %r = zext i8 %v to i32
  ret i32 %r
}
";

const REPORT_OF_ARRAY: &str = "options input=1 steps=100000 leaves=10000 shares=1024
1 complete input=00 status=119 output=- steps=8
2 fault out-of-bounds at=main:2 input=04 output=- steps=6
total 2 complete 1 fault 1 skipped 0 open 0
";

const PUTS: &str = "@s = global [3 x i8] c\"ab\\00\"
declare i32 @puts(ptr)
define i32 @main() {
  %r = call i32 @puts(ptr @s)
  ret i32 %r
}
";

const REPORT_OF_PUTS: &str = "options input=0 steps=100000 leaves=10000 shares=1024
1 complete input=- status=0 output=61620a steps=25
total 1 complete 1 fault 0 skipped 0 open 0
";

const RETURNS_LEAST: &str = "; one\n !two\ndefine i32@\"m\\61in\"( ){ret i32 -1;three\n}\n!four";

const REPORT_OF_LEAST: &str = "options input=0 steps=100000 leaves=10000 shares=1024
1 complete input=- status=255 output=- steps=1
total 1 complete 1 fault 0 skipped 0 open 0
";

const BLOCK: &str = "define i32 @main() { %a = sub i32 2, 3 %b = icmp slt i32 %a, 0 ret i32 %a }";

const REPORT_OF_BLOCK: &str = "options input=0 steps=100000 leaves=10000 shares=1024
1 complete input=- status=255 output=- steps=3
total 1 complete 1 fault 0 skipped 0 open 0
";

const LOOP: &str = "define i32 @main() { br label %a a: br label %a }";

const REPORT_OF_LOOP: &str = "options input=0 steps=100000 leaves=10000 shares=1024
1 open steps input=- steps=100000
total 1 complete 0 fault 0 skipped 0 open 1
";

const UNNAMED: &str =
    "define i32 @main() { %1 = add i32 40, 2 br label %2 2: %3 = icmp ugt i32 %1, 41 br i1 %3, label %\"the end\", label %4 4: ret i32 0 \"the end\": ret i32 %1 }";

const REPORT_OF_UNNAMED: &str = "options input=0 steps=100000 leaves=10000 shares=1024
1 complete input=- status=42 output=- steps=5
total 1 complete 1 fault 0 skipped 0 open 0
";

const FORK_WITHOUT_INPUT: &str = "options input=0 steps=100000 leaves=10000 shares=1024
1 complete input=- status=0 output=- steps=6
total 1 complete 1 fault 0 skipped 0 open 0
";

const FORK_WITH_ONE_SHARE: &str = "options input=1 steps=100000 leaves=10000 shares=1
1 open shares input=00 steps=5
total 1 complete 0 fault 0 skipped 0 open 1
";

const FORK_IN_FIVE_STEPS: &str = "options input=1 steps=5 leaves=10000 shares=1024
1 open steps input=00 steps=5
2 open steps input=41 steps=5
total 2 complete 0 fault 0 skipped 0 open 2
";

const FORK_IN_SIX_STEPS: &str = "options input=1 steps=6 leaves=10000 shares=1024
1 complete input=00 status=0 output=- steps=6
2 complete input=41 status=1 output=- steps=6
total 2 complete 2 fault 0 skipped 0 open 0
";

const NEVER_ENDS: &str =
    "declare i32 @getchar() define i32 @main() { %c = call i32 @getchar() %e = icmp eq i32 %c, -1 br i1 %e, label %a, label %b a: ret i32 1 b: ret i32 0 }";

const WITH_ONE_CONFLICT: &str = "options input=1 steps=100000 leaves=1 shares=1024
1 open solver input=? steps=5
2 complete input=00 status=0 output=- steps=6
total 2 complete 1 fault 0 skipped 0 open 1
";

const WITH_TWO_CONFLICTS: &str = "options input=1 steps=100000 leaves=2 shares=1
1 complete input=00 status=0 output=- steps=6
total 1 complete 1 fault 0 skipped 0 open 0
";

const DIVIDES: &str = "define i32 @main() { %q = sdiv i32 -2147483648, -1 ret i32 %q }";

const REPORT_OF_DIVIDES: &str = "options input=0 steps=100000 leaves=10000 shares=1024
1 fault divide-overflow at=main:0 input=- output=- steps=1
total 1 complete 0 fault 1 skipped 0 open 0
";

const DIVIDES_BY_ZERO: &str = "define i32 @main() { %q = udiv i32 1, 0 ret i32 %q }";

const REPORT_OF_DIVIDES_BY_ZERO: &str = "options input=0 steps=100000 leaves=10000 shares=1024
1 fault divide-by-zero at=main:0 input=- output=- steps=1
total 1 complete 0 fault 1 skipped 0 open 0
";

const PRINT_OF_ZERO: &str = "define i32 @main() {
0:
  ret i32 0
}
";

const REPORT_OF_LOGGER: &str = "options input=0 steps=100000 leaves=10000 shares=1024
1 complete input=- status=1 output=3221 steps=101
total 1 complete 1 fault 0 skipped 0 open 0
";

const REPORT: &str = "options input=0 steps=100000 leaves=10000 shares=1024
1 complete input=- status=0 output=- steps=1
total 1 complete 1 fault 0 skipped 0 open 0
";

// Pointers to an object of a call in a call, to a global whose name needs quotes, and to none.
const POINTERS: &str = "@\"a b\" = global i32 7
@p = global ptr @\"a b\"
define void @g(ptr %s) {
  %o = alloca i32
  store ptr %o, ptr %s
  ret void
}
define void @f(ptr %s) {
  call void @g(ptr %s)
  ret void
}
define i32 @main() {
  %s = alloca ptr
  call void @f(ptr %s)
  %v = load ptr, ptr %s
  %a = load ptr, ptr @p
  %x = load i32, ptr %a
  %z = getelementptr i8, ptr null, i64 5
  store ptr %z, ptr %s
  %n = load ptr, ptr %s
  ret i32 %x
}
";

const EVENTS_OF_POINTERS: &str = "options input=0 steps=100000 leaves=10000 shares=1024
1 complete input=- status=7 output=- steps=14
  load main:2 main:1#1/f:0#1/g:0#1+0
  load main:3 @\"a b\"+0
  load main:4 7
  load main:7 null+5
total 1 complete 1 fault 0 skipped 0 open 0
";

const REPORT_BY_DEFAULT: &str = "options input=4 steps=100000 leaves=10000 shares=1024
1 complete input=00000000 status=0 output=- steps=1
total 1 complete 1 fault 0 skipped 0 open 0
";

const REPORT_AT_MOST: &str = "options input=64 steps=1000000 leaves=1 shares=100000
1 complete input=00000000000000000000000000000000000000000000000000000000000000000000000000000000000000000000000000000000000000000000000000000000 status=0 output=- steps=1
total 1 complete 1 fault 0 skipped 0 open 0
";

const ALL: [Row; 27] = [
    ("sites F", STORED, SITES_OF_STORED),
    ("sites F", LINKED, SITES_OF_LINKED),
    ("print F", RETURNS_ZERO, PRINT_OF_ZERO),
    ("print F", PRINT_OF_ZERO, PRINT_OF_ZERO),
    ("explore --input 0 F", RETURNS_ZERO, REPORT),
    ("explore F", RETURNS_ZERO, REPORT_BY_DEFAULT),
    (
        "explore --shares 100000 --input 64 --leaves 1 --steps 1000000 F",
        RETURNS_ZERO,
        REPORT_AT_MOST,
    ),
    ("explore --input 0 F", RETURNS_LEAST, REPORT_OF_LEAST),
    ("explore --input 0 F", BLOCK, REPORT_OF_BLOCK),
    ("explore --input 0 F", LOOP, REPORT_OF_LOOP),
    ("explore --input 0 F", UNNAMED, REPORT_OF_UNNAMED),
    ("explore --input 0 F", DIVIDES, REPORT_OF_DIVIDES),
    (
        "explore --input 0 F",
        DIVIDES_BY_ZERO,
        REPORT_OF_DIVIDES_BY_ZERO,
    ),
    ("explore --input 0 F", LOGGER, REPORT_OF_LOGGER),
    ("explore --input 0 F", PUTS, REPORT_OF_PUTS),
    ("explore --input 0 --trace F", POINTERS, EVENTS_OF_POINTERS),
    ("explore --input 0 F", FORK, FORK_WITHOUT_INPUT),
    (
        "explore --conditions --input 1 --trace F",
        FORK,
        WHOLE_REPORT_OF_FORK,
    ),
    ("explore --trace --input 1 F", FORK, EVENTS_OF_FORK),
    ("explore --input 1 --conditions F", FORK, CONDITIONS_OF_FORK),
    ("explore --input 1 --shares 1 F", FORK, FORK_WITH_ONE_SHARE),
    ("explore --input 1 --steps 5 F", FORK, FORK_IN_FIVE_STEPS),
    ("explore --input 1 --steps 6 F", FORK, FORK_IN_SIX_STEPS),
    (
        "explore --input 1 --leaves 1 F",
        NEVER_ENDS,
        WITH_ONE_CONFLICT,
    ),
    (
        "explore --input 1 --leaves 2 --shares 1 F",
        NEVER_ENDS,
        WITH_TWO_CONFLICTS,
    ),
    ("explore --input 1 F", LETTERS, REPORT_OF_LETTERS),
    ("explore --input 1 F", ARRAY, REPORT_OF_ARRAY),
];

#[test]
fn reports(rt: HostRuntime) -> Result<(), Fail> {
    all_end(&rt, rt.alloc(), Status::Done, &ALL)
}

// What is printed is printed again as it is.
#[test]
fn printed_again(rt: HostRuntime) -> Result<(), Fail> {
    let once = answered(&rt, rt.alloc(), "print F", LOGGER.as_bytes(), (0, 0))?;
    assert_eq!(rt; once.0, Status::Done);
    let again = answered(&rt, rt.alloc(), "print F", once.1.as_slice(), (0, 0))?;
    assert_eq!(rt; again.0, Status::Done);
    assert_eq!(rt; again.1.as_slice(), once.1.as_slice());
    Ok(())
}
