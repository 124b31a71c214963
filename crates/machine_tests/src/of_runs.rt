use crate::programs::program_of;
use concrete_machine::{Outcome, RunEnd, run};
use std::alloc::{AllocError, Global};
use std::test::Fail;

/// What came of the run of a text's program, if the text is accepted. A copy of it is made and let go before.
pub(crate) fn ended(
    alloc: Global,
    text: &str,
    input: &[u8],
    steps: u64,
) -> Result<Option<RunEnd>, AllocError> {
    let bytes = text.as_bytes();
    if bytes.len() >= 1 << 32 {
        return Ok(None);
    }
    let Some(program) = program_of(alloc, bytes)? else {
        return Ok(None);
    };
    let copy = program.copy()?;
    drop(copy);
    Ok(Some(run(alloc, &program, input, steps)?))
}

// Whether a run ended so.
fn exits(end: &Option<RunEnd>, status: u8, output: &[u8], steps: u64) -> bool {
    match end {
        Some(
            RunEnd::Ended {
                outcome: Outcome::Exit {
                    status: ended,
                    output: written,
                },
                steps: done,
            },
        ) => *ended == status && written.as_slice() == output && *done == steps,
        _ => false,
    }
}

// Whether a run wrote this, and went on.
fn is_spent(end: &Option<RunEnd>, output: &[u8]) -> bool {
    match end {
        Some(RunEnd::Spent { output: written }) => written.as_slice() == output,
        _ => false,
    }
}

const LOOP: &str = "define i32 @main() {
e:
  br label %l
l:
  %i = phi i32 [ 0, %e ], [ %j, %l ]
  %j = add i32 %i, 1
  %c = icmp ult i32 %j, 10
  br i1 %c, label %l, label %x
x:
  ret i32 %j
}
";

#[test]
fn a_loop_counts_and_is_spent_where_steps_end(rt: HostRuntime) -> Result<(), Fail> {
    assert!(rt; exits(&ended(rt.alloc(), LOOP, &[], 42)?, 10, &[], 42));
    assert!(rt; exits(&ended(rt.alloc(), LOOP, &[], 1_000_000)?, 10, &[], 42));
    assert!(rt; is_spent(&ended(rt.alloc(), LOOP, &[], 41)?, &[]));
    assert!(rt; is_spent(&ended(rt.alloc(), LOOP, &[], 0)?, &[]));
    Ok(())
}

const SWAP: &str = "define i32 @main() {
e:
  br label %l
l:
  %a = phi i32 [ 1, %e ], [ %b, %l ]
  %b = phi i32 [ 2, %e ], [ %a, %l ]
  %i = phi i32 [ 0, %e ], [ %j, %l ]
  %j = add i32 %i, 1
  %c = icmp eq i32 %j, 4
  br i1 %c, label %x, label %l
x:
  %t = mul i32 %a, 10
  %s = add i32 %t, %b
  ret i32 %s
}
";

#[test]
fn phis_are_set_at_once(rt: HostRuntime) -> Result<(), Fail> {
    assert!(rt; exits(&ended(rt.alloc(), SWAP, &[], 100)?, 21, &[], 20));
    Ok(())
}

const COPY: &str = "@s = private constant [4 x i8] c\"abc\\00\"
declare ptr @memcpy(ptr, ptr, i64)
declare i32 @puts(ptr)
define i32 @main() {
  %d = alloca [4 x i8]
  %r = call ptr @memcpy(ptr %d, ptr @s, i64 4)
  %q = call i32 @puts(ptr %d)
  ret i32 %q
}
";

#[test]
fn bytes_are_copied_and_written(rt: HostRuntime) -> Result<(), Fail> {
    assert!(rt;
        exits(
            &ended(rt.alloc(), COPY, &[], 1000)?,
            0,
            &[97, 98, 99, 10],
            72
        )
    );
    Ok(())
}

const READ: &str = "declare i32 @getchar()
define i32 @main() {
  %a = call i32 @getchar()
  %b = call i32 @getchar()
  %c = call i32 @getchar()
  %s = mul i32 %a, %b
  %t = add i32 %s, %c
  ret i32 %t
}
";

#[test]
fn input_is_read_to_its_end(rt: HostRuntime) -> Result<(), Fail> {
    assert!(rt; exits(&ended(rt.alloc(), READ, &[7, 6], 100)?, 41, &[], 12));
    assert!(rt; exits(&ended(rt.alloc(), READ, &[7, 6, 1, 9], 100)?, 43, &[], 12));
    Ok(())
}

const SWITCH: &str = "declare i32 @getchar()
define i32 @main() {
  %a = call i32 @getchar()
  switch i32 %a, label %d [
    i32 1, label %x
    i32 2, label %y
  ]
x:
  ret i32 11
y:
  ret i32 12
d:
  ret i32 13
}
";

#[test]
fn a_switch_takes_its_case_or_the_default(rt: HostRuntime) -> Result<(), Fail> {
    assert!(rt; exits(&ended(rt.alloc(), SWITCH, &[1], 100)?, 11, &[], 5));
    assert!(rt; exits(&ended(rt.alloc(), SWITCH, &[2], 100)?, 12, &[], 5));
    assert!(rt; exits(&ended(rt.alloc(), SWITCH, &[3], 100)?, 13, &[], 5));
    Ok(())
}

const EXIT: &str = "declare void @exit(i32)
declare i32 @putchar(i32)
define void @f(i32 %n) {
  %c = call i32 @putchar(i32 321)
  call void @exit(i32 %n)
  unreachable
}
define i32 @main() {
  call void @f(i32 259)
  ret i32 1
}
";

#[test]
fn exit_ends_the_program_within_a_call(rt: HostRuntime) -> Result<(), Fail> {
    assert!(rt; exits(&ended(rt.alloc(), EXIT, &[], 100)?, 3, &[65], 6));
    Ok(())
}

const HEAP: &str = "declare ptr @calloc(i64, i64)
declare ptr @malloc(i64)
declare void @free(ptr)
define i32 @main() {
  %p = call ptr @calloc(i64 2, i64 4)
  %q = getelementptr i32, ptr %p, i64 1
  store i32 70000, ptr %q
  %a = load i32, ptr %p
  %b = load i16, ptr %q
  %h = call ptr @malloc(i64 65537)
  %z = icmp eq ptr %h, null
  call void @free(ptr %p)
  %w = zext i16 %b to i32
  %s = select i1 %z, i32 %w, i32 %a
  ret i32 %s
}
";

#[test]
fn objects_are_made_and_freed(rt: HostRuntime) -> Result<(), Fail> {
    // The lowest 16 bits of 70000 are 4464, whose low byte is 112.
    assert!(rt; exits(&ended(rt.alloc(), HEAP, &[], 100)?, 112, &[], 18));
    Ok(())
}

const DEEP: &str = "define i32 @f(i32 %n) {
  %m = add i32 %n, 1
  %r = call i32 @f(i32 %m)
  ret i32 %r
}
define i32 @main() {
  %r = call i32 @f(i32 0)
  ret i32 %r
}
";

#[test]
fn recursion_without_end_is_spent(rt: HostRuntime) -> Result<(), Fail> {
    assert!(rt; is_spent(&ended(rt.alloc(), DEEP, &[], 1_000_000)?, &[]));
    Ok(())
}
