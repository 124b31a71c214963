//! Each condition that a file can fail, at a first and at a last place of its text, with the line that says it.
use crate::running::{Row, all_end};
use chop_top::Status;
use std::test::Fail;

const REFUSED: [Row; 44] = [
    (
        "print F",
        "define i32 @main() { ret i32 %a }",
        "refused UnknownName at=29\n",
    ),
    (
        "print F",
        "define i32 @main() { br label %a }",
        "refused UnknownName at=30\n",
    ),
    (
        "print F",
        "define i32 @main() { %a = load i32, ptr @g ret i32 %a }",
        "refused UnknownName at=40\n",
    ),
    (
        "print F",
        "@g = global %t zeroinitializer define i32 @main() { ret i32 0 }",
        "refused UnknownName at=12\n",
    ),
    (
        "print F",
        "define i32 @main() { ret i32 0 } @p = global ptr @g",
        "refused UnknownName at=49\n",
    ),
    (
        "print F",
        "define i32 @main() { %a = call i32 @f() ret i32 %a }",
        "refused UnknownFunction at=35 @f\n",
    ),
    (
        "print F",
        "declare i32 @f() define i32 @main() { %a = call i32 @f() ret i32 %a }",
        "refused UnknownFunction at=52 @f\n",
    ),
    (
        "print F",
        "define i32 @main() { ret i32 0 } define void @f() { call void @\"a b\"() ret void }",
        "refused UnknownFunction at=62 @\"a b\"\n",
    ),
    (
        "print F",
        "%t = type { i8 } %t = type { i8 } define i32 @main() { ret i32 0 }",
        "refused DuplicateName at=17\n",
    ),
    (
        "print F",
        "@main = global i8 0 define i32 @main() { ret i32 0 }",
        "refused DuplicateName at=31\n",
    ),
    (
        "print F",
        "define i32 @main() { a: %b = add i32 1, 1 br label %b b: ret i32 0 }",
        "refused DuplicateName at=54\n",
    ),
    (
        "print F",
        "define i32 @main() { e: switch i32 1, label %a [ i32 5, label %b i32 5, label %b ] a: ret i32 0 b: ret i32 1 }",
        "refused DuplicateName at=69\n",
    ),
    (
        "print F",
        "define i32 @main() { ret i32 0 } @main = global i8 0",
        "refused DuplicateName at=33\n",
    ),
    (
        "print F",
        "@putchar = global i8 0 define i32 @main() { ret i32 0 }",
        "refused ReservedName at=0\n",
    ),
    (
        "print F",
        "define i32 @main() { ret i32 0 } define void @free(ptr %p) { ret void }",
        "refused ReservedName at=45\n",
    ),
    (
        "print F",
        "@g = global [65537 x i8] zeroinitializer define i32 @main() { ret i32 0 }",
        "refused ObjectTooLarge at=12\n",
    ),
    (
        "print F",
        "define i32 @main() { %a = alloca { [65536 x i8], i8 } ret i32 0 }",
        "refused ObjectTooLarge at=33\n",
    ),
    (
        "print F",
        "%t = type { i8, %t } define i32 @main() { ret i32 0 }",
        "refused RecursiveType at=0\n",
    ),
    (
        "print F",
        "define i32 @main() { ret i32 0 } %a = type { %b } %b = type [2 x %a]",
        "refused RecursiveType at=33\n",
    ),
    (
        "print F",
        "define i32 @main() { %2 = add i32 1, 1 ret i32 %2 }",
        "refused WrongNumber at=21\n",
    ),
    (
        "print F",
        "define i32 @main() { ret i32 0 } define void @f(i32 %1) { ret void }",
        "refused WrongNumber at=52\n",
    ),
    (
        "print F",
        "@g = global i8 256 define i32 @main() { ret i32 0 }",
        "refused BadInitialiser at=15\n",
    ),
    (
        "print F",
        "@g = global [2 x i8] c\"abc\" define i32 @main() { ret i32 0 }",
        "refused BadInitialiser at=21\n",
    ),
    (
        "print F",
        "@g = global [2 x i32] [ i32 1, i64 2 ] define i32 @main() { ret i32 0 }",
        "refused BadInitialiser at=22\n",
    ),
    (
        "print F",
        "define i32 @main() { ret i32 0 } @g = global i8 0 @p = global ptr getelementptr (i8, ptr @g, i8 256)",
        "refused BadInitialiser at=96\n",
    ),
    (
        "print F",
        "@p = global ptr @main define i32 @main() { ret i32 0 }",
        "refused FunctionValue at=16\n",
    ),
    (
        "print F",
        "define i32 @main() { %a = icmp eq ptr @main, null ret i32 0 }",
        "refused FunctionValue at=38\n",
    ),
    (
        "print F",
        "define i32 @main() { ret i32 0 } @p = global ptr @putchar",
        "refused FunctionValue at=49\n",
    ),
    (
        "print F",
        "define i32 @main(i32 %a) { ret i32 0 }",
        "refused MainParameters at=11\n",
    ),
    (
        "print F",
        "@g = global i8 0 define i64 @main() { ret i64 0 }",
        "refused MainParameters at=28\n",
    ),
    ("print F", "", "refused NoMain\n"),
    (
        "print F",
        "define i32 @f() { ret i32 0 }",
        "refused NoMain\n",
    ),
    (
        "print F",
        "define i32 @main() { %a = add i8 1, 1 ret i32 %a }",
        "refused TypeClash main:1\n",
    ),
    (
        "print F",
        "define i32 @main() { ret i32 null }",
        "refused TypeClash main:0\n",
    ),
    (
        "print F",
        "define i32 @main() { ret i32 0 } define void @f() { ret i32 0 }",
        "refused TypeClash f:0\n",
    ),
    (
        "print F",
        "define i32 @main() { e: br i1 true, label %a, label %b a: %x = add i32 1, 1 br label %b b: ret i32 %x }",
        "refused Undefined main:3 %x\n",
    ),
    (
        "print F",
        "define i32 @main() { ret i32 0 } define i32 @f() { %a = add i32 %b, 1 %b = add i32 1, 1 ret i32 %a }",
        "refused Undefined f:0 %b\n",
    ),
    (
        "print F",
        "define i32 @main() { e: br label %e }",
        "refused BadEdge main:0\n",
    ),
    (
        "print F",
        "define i32 @main() { e: br label %a a: %p = phi i32 [ 0, %a ] ret i32 0 }",
        "refused BadEdge main:1\n",
    ),
    (
        "print F",
        "define i32 @main() { ret i32 0 } define i32 @f() { e: br i1 true, label %a, label %a a: %p = phi i32 [ 0, %e ], [ 1, %e ] ret i32 %p }",
        "refused BadEdge f:1\n",
    ),
    (
        "print F",
        "define i32 @main() { ret i32 4294967296 }",
        "refused Syntax at=29\n",
    ),
    (
        "print F",
        "define float @main() { ret i32 0 }",
        "refused Unsupported at=7 float\n",
    ),
    (
        "print F",
        "declare { i32, i32 } @f()",
        "refused Unsupported at=8 {\n",
    ),
    (
        "print F",
        "define i32 @main() { %x = ptrtoint ptr null to i64 ret i32 0 }",
        "refused Unsupported at=26 ptrtoint\n",
    ),
];

#[test]
fn each_refusal_has_its_line(rt: HostRuntime) -> Result<(), Fail> {
    all_end(&rt, rt.alloc(), Status::Refused, &REFUSED)
}
