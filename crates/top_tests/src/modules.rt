//! Texts of modules that several tables share.

/// Main returns 0.
pub const RETURNS_ZERO: &str = "define i32 @main() { ret i32 0 }";

/// A function makes two objects, the first of which points to the second.
pub const LINKED: &str = "@head = global ptr null
declare ptr @malloc(i64)
define void @f() {
  %a = call ptr @malloc(i64 16)
  %b = call ptr @malloc(i64 16)
  store i32 3, ptr %a
  %n = getelementptr i8, ptr %a, i64 8
  store ptr %b, ptr %n
  store i32 4, ptr %b
  store ptr %a, ptr @head
  ret void
}
define i32 @main() {
  call void @f()
  %p = load ptr, ptr @head
  %x = load i32, ptr %p
  %m = getelementptr i8, ptr %p, i64 8
  %q = load ptr, ptr %m
  %y = load i32, ptr %q
  %s = add i32 %x, %y
  ret i32 %s
}
";

/// Main ends otherwise where its input's first byte is an A.
pub const FORK: &str = "declare i32 @getchar()
define i32 @main() {
  %c = call i32 @getchar()
  %e = icmp ne i32 %c, 65
  br i1 %e, label %a, label %b
a:
  ret i32 0
b:
  ret i32 1
}
";

/// After what clang writes without optimisation, abridged.
pub const LOGGER: &str = "source_filename = \"a.c\"
target triple = \"x86_64-pc-linux-gnu\"
%struct.s = type { i32, i8 }
@__const.main.v = private unnamed_addr constant %struct.s { i32 2, i8 3 }, align 4
; Function Attrs: noinline nounwind optnone uwtable
define dso_local void @note(i32 noundef %0) #0 {
  %2 = alloca i32, align 4
  store i32 %0, ptr %2, align 4
  %3 = load i32, ptr %2, align 4
  %4 = add nsw i32 48, %3
  %5 = call i32 @putchar(i32 noundef %4)
  ret void
}
declare i32 @putchar(i32 noundef) #1
define dso_local i32 @main() #0 {
  %1 = alloca i32, align 4
  %2 = alloca %struct.s, align 4
  store i32 0, ptr %1, align 4
  call void @llvm.memcpy.p0.p0.i64(ptr align 4 %2, ptr align 4 @__const.main.v, i64 8, i1 false)
  %3 = getelementptr inbounds %struct.s, ptr %2, i32 0, i32 0
  %4 = load i32, ptr %3, align 4
  call void @note(i32 noundef %4)
  %5 = call i32 @putchar(i32 noundef 33)
  %6 = getelementptr inbounds %struct.s, ptr %2, i32 0, i32 0
  %7 = load i32, ptr %6, align 4
  %8 = icmp sgt i32 %7, 0
  br i1 %8, label %9, label %14
9:                                                ; preds = %0
  %10 = getelementptr inbounds %struct.s, ptr %2, i32 0, i32 1
  %11 = load i8, ptr %10, align 4
  %12 = sext i8 %11 to i32
  %13 = icmp eq i32 %12, 3
  br label %14
14:                                               ; preds = %9, %0
  %15 = phi i1 [ false, %0 ], [ %13, %9 ]
  %16 = zext i1 %15 to i32
  ret i32 %16
}
declare void @llvm.memcpy.p0.p0.i64(ptr noalias nocapture writeonly, ptr noalias nocapture readonly, i64, i1 immarg) #2
attributes #0 = { noinline nounwind optnone uwtable \"frame-pointer\"=\"all\" }
!llvm.module.flags = !{!0}
!0 = !{i32 1, !\"wchar_size\", i32 4}
";
