//! Where texts are refused, and that modules are read. A place was counted by hand.

use ir_lexer::text::lex;
use ir_reader::text::{SyntaxError, read};
use std::alloc::{AllocError, Global};

// Whether the text is refused at this byte, with the token's text where it is unsupported, and with none where it isn't.
fn is_refused(
    alloc: Global,
    text: &[u8],
    place: u32,
    unsupported: &[u8],
) -> Result<bool, AllocError> {
    if text.len() >= 1 << 32 {
        return Ok(false);
    }
    let tokens = lex(alloc, text)?;
    match read(alloc, text, &tokens) {
        Ok(_) => Ok(false),
        Err(SyntaxError::Syntax { at }) => Ok(at == place && unsupported.is_empty()),
        Err(SyntaxError::Unsupported { at, what }) => {
            Ok(at == place && what.as_slice() == unsupported)
        }
        Err(SyntaxError::Memory) => Err(AllocError),
    }
}

// Whether the text is read.
fn is_read(alloc: Global, text: &[u8]) -> Result<bool, AllocError> {
    if text.len() >= 1 << 32 {
        return Ok(false);
    }
    let tokens = lex(alloc, text)?;
    match read(alloc, text, &tokens) {
        Ok(_) => Ok(true),
        Err(SyntaxError::Memory) => Err(AllocError),
        Err(_) => Ok(false),
    }
}

// A text with a part of it so many times.
fn repeated(alloc: Global, front: &[u8], part: &[u8], times: u32) -> Result<Vec<u8>, AllocError> {
    let mut text = Vec::from_slice(alloc, front)?;
    for _ in 0..times {
        text.extend_from_slice(part)?;
    }
    Ok(text)
}

const ENTITIES: [(&[u8], u32, &[u8]); 9] = [
    (b"x", 0, b""),
    (b"source_filename \"a\"", 16, b""),
    (b"target x = \"a\"", 7, b""),
    (b"attributes #0 = { a ", 20, b""),
    (b"attributes #0 = { ~ }", 18, b""),
    (b"%t = x", 5, b""),
    (b"@g = private i32 0", 13, b""),
    (b"@g = thread_local global i32 0", 5, b"thread_local"),
    (b"@g = global i32 0, comdat", 19, b"comdat"),
];

#[test]
fn refuses_entities(rt: HostRuntime) -> Result<(), AllocError> {
    for (text, at, what) in ENTITIES {
        let alloc = rt.alloc();
        assert!(rt; is_refused(alloc, text, at, what)?, "at {at}");
    }
    Ok(())
}

const TYPES: [(&[u8], u32, &[u8]); 7] = [
    (b"%t = type { i32, }", 17, b""),
    (b"%t = type <{ i32 }", 17, b""),
    (b"%t = type i1", 10, b"i1"),
    (b"%t = type opaque", 10, b"opaque"),
    (b"%t = type [ -1 x i8 ]", 12, b""),
    (b"%t = type [ 9223372036854775808 x i8 ]", 12, b""),
    (b"%t = type [ 1 i8 ]", 14, b""),
];

#[test]
fn refuses_types(rt: HostRuntime) -> Result<(), AllocError> {
    for (text, at, what) in TYPES {
        let alloc = rt.alloc();
        assert!(rt; is_refused(alloc, text, at, what)?, "at {at}");
    }
    Ok(())
}

const CONSTANTS: [(&[u8], u32, &[u8]); 9] = [
    (b"@g = global i32", 15, b""),
    (b"@g = global i32 %x", 16, b""),
    (b"@g = global float 1", 12, b"float"),
    (b"@g = global i8 18446744073709551616", 15, b""),
    (b"@g = global i64 -9223372036854775809", 16, b""),
    (
        b"@g = global ptr getelementptr (i8, ptr @a, i64 -9223372036854775808)",
        47,
        b"",
    ),
    (b"@g = global ptr getelementptr (i8, ptr %a)", 39, b""),
    (
        b"@g = global ptr getelementptr inrange (i8, ptr @a)",
        30,
        b"inrange",
    ),
    (b"@g = global ptr blockaddress", 16, b"blockaddress"),
];

#[test]
fn refuses_constants(rt: HostRuntime) -> Result<(), AllocError> {
    for (text, at, what) in CONSTANTS {
        let alloc = rt.alloc();
        assert!(rt; is_refused(alloc, text, at, what)?, "at {at}");
    }
    Ok(())
}

const HEADERS: [(&[u8], u32, &[u8]); 15] = [
    (b"declare { i32, i32 } @f()", 8, b"{"),
    (b"declare <4 x i32> @f()", 8, b"<"),
    (b"declare i32* @f()", 11, b"*"),
    (b"declare i65 @f()", 8, b"i65"),
    (b"declare i032 @f()", 8, b""),
    (b"declare void @f(...)", 16, b"..."),
    (b"declare void @f(ptr byval %a)", 20, b"byval"),
    (b"declare void @f(i8 range(i8 0, 1 ", 33, b""),
    (b"declare void @f(i8 %a", 21, b""),
    (b"declare void @f() #a", 18, b"#a"),
    (b"declare void %f()", 13, b""),
    (b"define void @f() declare", 17, b""),
    (b"define void @f() { }", 19, b""),
    (b"define void @f() { ret void ", 28, b""),
    (b"define void @f() { a: b: ret void }", 22, b""),
];

#[test]
fn refuses_headers(rt: HostRuntime) -> Result<(), AllocError> {
    for (text, at, what) in HEADERS {
        let alloc = rt.alloc();
        assert!(rt; is_refused(alloc, text, at, what)?, "at {at}");
    }
    Ok(())
}

const OPERATIONS: [(&[u8], u32, &[u8]); 12] = [
    (b"define void @f() { %a = phi i32 [ 1, %b ], i32", 43, b""),
    (b"define void @f() { %a = phi [ 1, %b ]", 28, b"["),
    (
        b"define void @f() { %a = add i32 1, 2 %b = phi i32",
        42,
        b"",
    ),
    (b"define void @f() { %a = add double 1", 28, b"double"),
    (b"define void @f() { %a = add i32 4294967296", 32, b""),
    (b"define void @f() { %a = add i32 -2147483649", 32, b""),
    (b"define void @f() { %a = add ptr null", 28, b""),
    (b"define void @f() { %a = icmp foo i32 1, 2", 29, b""),
    (b"define void @f() { %a = icmp eq %t 1", 32, b"%t"),
    (b"define void @f() { %a = trunc i32 1 to ptr", 39, b""),
    (
        b"define void @f() { %a = bitcast i32 1 to i32",
        24,
        b"bitcast",
    ),
    (b"define void @f() { %a = select i32 1", 31, b""),
];

#[test]
fn refuses_operations(rt: HostRuntime) -> Result<(), AllocError> {
    for (text, at, what) in OPERATIONS {
        let alloc = rt.alloc();
        assert!(rt; is_refused(alloc, text, at, what)?, "at {at}");
    }
    Ok(())
}

const MEMORY: [(&[u8], u32, &[u8]); 14] = [
    (b"define void @f() { %a = alloca i32, i32 4", 36, b"i32"),
    (b"define void @f() { %a = alloca i24", 31, b"i24"),
    (b"define void @f() { %a = load i1, ptr %p", 29, b"i1"),
    (b"define void @f() { %a = load atomic i32", 29, b"atomic"),
    (b"define void @f() { store i32 1, i32 2", 32, b""),
    (b"define void @f() { store <{ i32 }> 1", 25, b"<{"),
    (
        b"define void @f() { %a = getelementptr i8, ptr %p, i64 9223372036854775808",
        54,
        b"",
    ),
    (
        b"define void @f() { %a = getelementptr i8, ptr %p, i8 256",
        53,
        b"",
    ),
    (
        b"define void @f() { %a = getelementptr i8, ptr %p, align 4, i8 1",
        59,
        b"",
    ),
    (b"define void @f() { %a = call void (i32) @f()", 34, b"("),
    (b"define void @f() { call void %f()", 29, b"%f"),
    (
        b"define void @f() { musttail call void @f()",
        19,
        b"musttail",
    ),
    (b"define void @f() { call i32 @f(i32 1", 36, b""),
    (b"define void @f() { call i32 @f() [ x ]", 33, b""),
];

#[test]
fn refuses_memory_and_calls(rt: HostRuntime) -> Result<(), AllocError> {
    for (text, at, what) in MEMORY {
        let alloc = rt.alloc();
        assert!(rt; is_refused(alloc, text, at, what)?, "at {at}");
    }
    Ok(())
}

const TERMINATORS: [(&[u8], u32, &[u8]); 11] = [
    (b"define void @f() { ret half 1", 23, b"half"),
    (b"define void @f() { ret i8 1 2", 28, b""),
    (b"define void @f() { br i8 1", 22, b""),
    (b"define void @f() { br label @x", 28, b""),
    (b"define void @f() { br i1 1, label %a, i1 2", 38, b""),
    (
        b"define void @f() { switch i8 1, label %d [ i8 256, label %e ]",
        46,
        b"",
    ),
    (b"define void @f() { switch i8 1, label %d [ x ]", 43, b""),
    (b"define void @f() { invoke void @f()", 19, b"invoke"),
    (b"define void @f() { unreachable x", 31, b""),
    (b"define void @f() { unreachable, x", 32, b""),
    (b"define void @f() { ~ ret void", 19, b""),
];

#[test]
fn refuses_terminators(rt: HostRuntime) -> Result<(), AllocError> {
    for (text, at, what) in TERMINATORS {
        let alloc = rt.alloc();
        assert!(rt; is_refused(alloc, text, at, what)?, "at {at}");
    }
    Ok(())
}

// The token that opens a level more than 64 is unsupported.
#[test]
fn counts_levels(rt: HostRuntime) -> Result<(), AllocError> {
    let alloc = rt.alloc();
    let types = repeated(alloc, b"%t = type ".as_slice(), b"[1 x ".as_slice(), 65)?;
    assert!(rt; is_refused(alloc, &types, 10 + 64 * 5, b"[".as_slice())?);
    let constants = repeated(alloc, b"@g = global i8 ".as_slice(), b"[i8 ".as_slice(), 65)?;
    assert!(rt; is_refused(alloc, &constants, 15 + 64 * 4, b"[".as_slice())?);
    let addresses = repeated(
        alloc,
        b"@g = global ptr ".as_slice(),
        b"getelementptr(i8,ptr ".as_slice(),
        65,
    )?;
    assert!(rt; is_refused(alloc, &addresses, 16 + 64 * 21, b"getelementptr".as_slice())?);
    Ok(())
}

#[test]
fn reads_64_levels(rt: HostRuntime) -> Result<(), AllocError> {
    let alloc = rt.alloc();
    let mut types = repeated(alloc, b"%t = type ".as_slice(), b"[1 x ".as_slice(), 64)?;
    types.extend_from_slice(b"i8".as_slice())?;
    let types = repeated(alloc, &types, b"]".as_slice(), 64)?;
    assert!(rt; is_read(alloc, &types)?);
    Ok(())
}

// As clang writes it without optimisation, with its comments and metadata.
const LOGGER: &[u8] =
    b"source_filename = \"a.c\"\ntarget triple = \"x86_64-pc-linux-gnu\"\n%struct.s = type { i32, i8 }\n@__const.main.v = private unnamed_addr constant %struct.s { i32 2, i8 3 }, align 4\n; Function Attrs: noinline nounwind optnone uwtable\ndefine dso_local void @note(i32 noundef %0) #0 {\n  %2 = alloca i32, align 4\n  store i32 %0, ptr %2, align 4\n  %3 = load i32, ptr %2, align 4\n  %4 = add nsw i32 48, %3\n  %5 = call i32 @putchar(i32 noundef %4)\n  ret void\n}\ndeclare i32 @putchar(i32 noundef) #1\ndefine dso_local i32 @main() #0 {\n  %1 = alloca i32, align 4\n  %2 = alloca %struct.s, align 4\n  store i32 0, ptr %1, align 4\n  call void @llvm.memcpy.p0.p0.i64(ptr align 4 %2, ptr align 4 @__const.main.v, i64 8, i1 false)\n  %3 = getelementptr inbounds %struct.s, ptr %2, i32 0, i32 0\n  %4 = load i32, ptr %3, align 4\n  call void @note(i32 noundef %4)\n  %5 = call i32 @putchar(i32 noundef 33)\n  %6 = getelementptr inbounds %struct.s, ptr %2, i32 0, i32 0\n  %7 = load i32, ptr %6, align 4\n  %8 = icmp sgt i32 %7, 0\n  br i1 %8, label %9, label %14\n9:                                                ; preds = %0\n  %10 = getelementptr inbounds %struct.s, ptr %2, i32 0, i32 1\n  %11 = load i8, ptr %10, align 4\n  %12 = sext i8 %11 to i32\n  %13 = icmp eq i32 %12, 3\n  br label %14\n14:                                               ; preds = %9, %0\n  %15 = phi i1 [ false, %0 ], [ %13, %9 ]\n  %16 = zext i1 %15 to i32\n  ret i32 %16\n}\ndeclare void @llvm.memcpy.p0.p0.i64(ptr noalias nocapture writeonly, ptr noalias nocapture readonly, i64, i1 immarg) #2\nattributes #0 = { noinline nounwind optnone uwtable \"frame-pointer\"=\"all\" }\n!llvm.module.flags = !{!0}\n!0 = !{i32 1, !\"wchar_size\", i32 4}\n";

// Each production in a form that the other text doesn't have.
const EVERY: &[u8] =
    b"%t = type { i8, <{ i16, [ 2 x ptr ] }>, { } }\n@s = constant [ 3 x i8 ] c\"a\\00b\", align 1\n@g = internal global { ptr, [ 2 x i64 ] } { ptr getelementptr inbounds (%t, ptr getelementptr (i8, ptr @s, i64 -1), i32 0), [ 2 x i64 ] [ i64 -9223372036854775808, i64 18446744073709551615 ] }\n@p = global <{ }> <{ }>\ndefine internal noundef i32 @\"a b\"(ptr dereferenceable(8) align 4 %0, i32 range(i32 0, 4) %x) nounwind \"k\"=\"v\" \"l\" #0 {\n  switch i8 255, label %a [ i8 -128, label %b i8 0, label %b ], !dbg !1\na:\n  %v = load volatile i32, ptr %0, align 4, !t !2\n  store volatile i32 %v, ptr null\n  %w = select i1 true, i32 undef, i32 poison\n  %q = getelementptr nuw %t, ptr %0, i64 9223372036854775807, align 4, !a !b\n  br i1 0, label %a, label %b\n\"b\":\n  %r = phi i32 [ zeroinitializer, %1 ], [ %v, %a ], !dbg !3\n  %s = phi ptr [ @s, %1 ], align 1\n  %y = tail call fastcc noundef zeroext i1 @h(ptr nonnull %q) #1, !srcloc !4\n  notail call void @i()\n  unreachable\n}\n";

#[test]
fn reads_modules(rt: HostRuntime) -> Result<(), AllocError> {
    let alloc = rt.alloc();
    assert!(rt; is_read(alloc, b"".as_slice())?);
    assert!(rt; is_read(alloc, LOGGER)?);
    assert!(rt; is_read(alloc, EVERY)?);
    Ok(())
}
