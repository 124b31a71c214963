//! Slices of functions, and words that name none.
use crate::modules::LINKED;
use crate::running::{Row, all_end};
use chop_top::Status;
use std::test::Fail;

const FAR_LOOP: &str = "@g = global i32 0
define void @f() {
e:
  br label %l
l:
  %i = phi i32 [ 0, %e ], [ %j, %l ]
  %j = add i32 %i, 1
  %t = icmp ult i32 %j, 1000000000
  br i1 %t, label %l, label %d
d:
  store i32 7, ptr @g
  ret void
}
define i32 @main() {
  call void @f()
  %v = load i32, ptr @g
  ret i32 %v
}
";

const LATE_SUM: &str = "define i32 @main() {
  %r = call i32 @f(i32 1, i1 true, i1 true)
  ret i32 %r
}
define i32 @f(i32 %x, i1 %c, i1 %d) {
e:
  br i1 %c, label %a, label %b
a:
  br label %b
b:
  %r = add i32 %x, 1
  br i1 %d, label %p, label %q
p:
  br label %q
q:
  %y = phi i32 [ %r, %p ], [ 9, %b ]
  ret i32 %y
}
";

const LATE_CALL: &str = "define i32 @h() {
  ret i32 2
}
define i32 @main() {
  %r = call i32 @f(i32 1, i1 true, i1 true)
  ret i32 %r
}
define i32 @f(i32 %x, i1 %c, i1 %d) {
e:
  br i1 %c, label %a, label %b
a:
  br label %b
b:
  %r = call i32 @h()
  br i1 %d, label %p, label %q
p:
  br label %q
q:
  %y = phi i32 [ %r, %p ], [ 9, %b ]
  ret i32 %y
}
";

const SLICE_OF_LATE_SUM: &str = "f entry -> 2
f:2 -> 3
f:3 -> 7 6
f:5 -> end
f:6 -> 5
f:7 -> 5
";

const SLICE_OF_LATE_CALL: &str = "h entry -> 0
h:0 -> end
f entry -> 2
f:2 -> 3
f:3 -> 7 6
f:5 -> end
f:6 -> 5
f:7 -> 5
";

const RECURSION: &str = "@g = global i32 0
define void @f(i32 %n) {
e:
  %z = icmp eq i32 %n, 0
  br i1 %z, label %d, label %r
r:
  %m = sub i32 %n, 1
  %w = mul i32 %n, 3
  call void @f(i32 %m)
  store i32 %n, ptr @g
  br label %d
d:
  ret void
}
define i32 @main() {
  call void @f(i32 3)
  ret i32 0
}
";

const FRAME: &str = "declare i32 @putchar(i32)
define void @set(ptr %p, i32 %v) {
  store i32 %v, ptr %p
  ret void
}
define i32 @f(i32 %x) {
  %a = alloca i32
  %b = alloca i32
  store i32 7, ptr %b
  call void @set(ptr %a, i32 %x)
  %u = load i32, ptr %b
  %o = call i32 @putchar(i32 %u)
  %v = load i32, ptr %a
  ret i32 %v
}
define i32 @main() {
  %r = call i32 @f(i32 5)
  ret i32 %r
}
";

const ENDLESS: &str = "define void @spin() {
e:
  br label %l
l:
  br label %l
}
define i32 @f(i32 %x) {
  %z = icmp eq i32 %x, 0
  br i1 %z, label %a, label %b
a:
  call void @spin()
  br label %b
b:
  ret i32 4
}
define i32 @main() {
  %r = call i32 @f(i32 5)
  ret i32 %r
}
";

const SLICE_OF_RECURSION: &str = "f entry -> 0
f:0 -> 1
f:1 -> end 2
f:2 -> 4
f:4 -> 5
f:5 -> end
";

const SLICE_OF_FRAME: &str = "set entry -> 0
set:0 -> end
f entry -> 0
f:0 -> 3
f:3 -> 6
f:6 -> 7
f:7 -> end
";

const SLICES: [Row; 8] = [
    (
        "slice F f cells:f:1",
        LINKED,
        "f entry -> 1\nf:1 -> 5\nf:5 -> end\n",
    ),
    ("slice F f cells:@g", FAR_LOOP, "f entry -> 4\nf:4 -> end\n"),
    ("slice F f output", FAR_LOOP, "f entry -> end\n"),
    ("slice F f result", LATE_SUM, SLICE_OF_LATE_SUM),
    ("slice F f result", LATE_CALL, SLICE_OF_LATE_CALL),
    ("slice F f cells:@g", RECURSION, SLICE_OF_RECURSION),
    ("slice F f result", FRAME, SLICE_OF_FRAME),
    ("slice F f result", ENDLESS, "f entry -> 4\nf:4 -> end\n"),
];

const NAMED_NOTHING: [Row; 10] = [
    ("slice F q output", FAR_LOOP, "refused UnknownTarget q\n"),
    ("slice F q outputs", FAR_LOOP, "refused UnknownTarget q\n"),
    (
        "slice F malloc output",
        LINKED,
        "refused UnknownTarget malloc\n",
    ),
    (
        "slice F f outputs",
        FAR_LOOP,
        "refused UnknownTarget outputs\n",
    ),
    (
        "slice F f result",
        FAR_LOOP,
        "refused UnknownTarget result\n",
    ),
    (
        "slice F f cells:g",
        FAR_LOOP,
        "refused UnknownTarget cells:g\n",
    ),
    ("slice F f @g", FAR_LOOP, "refused UnknownTarget @g\n"),
    (
        "slice F f life:f:2",
        LINKED,
        "refused UnknownTarget life:f:2\n",
    ),
    (
        "slice F f life:f:01",
        LINKED,
        "refused UnknownTarget life:f:01\n",
    ),
    ("slice F f output", "", "refused NoMain\n"),
];

#[test]
fn slices(rt: HostRuntime) -> Result<(), Fail> {
    all_end(&rt, rt.alloc(), Status::Done, &SLICES)?;
    all_end(&rt, rt.alloc(), Status::Refused, &NAMED_NOTHING)
}
