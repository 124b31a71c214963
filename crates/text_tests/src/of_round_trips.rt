//! Texts that are read, printed, and read and printed again.
use ir_lexer::text::lex;
use ir_reader::text::read;
use ir_tree::printing::print;
use std::alloc::{AllocError, Global};
use std::test::Fail;

const WRITTEN: &str =
    "%\"a b\" = type <{ i8, ptr }> @s = private constant [3 x i8] c\"ab\\00\", align 1 @.t = global %t c\"\\22\\0a\\fe\" define dso_local i32 @\"m\\61in\"(i8 %0) { %2 = add nsw i8 %0, -1 br label %3 3: ret i32 0 }";

const PRINTED: &str = "%\"a b\" = type <{ i8, ptr }>
@s = global [3 x i8] c\"ab\\00\"
@.t = global %t c\"\\22\\0A\\FE\"
define i32 @main(i8 %0) {
1:
  %2 = add i8 %0, -1
  br label %3
3:
  ret i32 0
}
";

// What a text is printed as, if it is a module.
fn printed_as(alloc: Global, text: &[u8]) -> Result<Option<Vec<u8>>, AllocError> {
    if text.len() > 1000 {
        return Ok(None);
    }
    let tokens = lex(alloc, text)?;
    match read(alloc, text, tokens.as_slice()) {
        Ok(tree) => Ok(Some(print(alloc, &tree)?)),
        Err(_) => Ok(None),
    }
}

#[test]
fn printed_twice(rt: HostRuntime) -> Result<(), Fail> {
    for text in [WRITTEN, PRINTED] {
        match printed_as(rt.alloc(), text.as_bytes())? {
            Some(printed) => assert_eq!(rt; printed.as_slice(), PRINTED.as_bytes()),
            None => assert_eq!(rt; text, ""),
        }
    }
    Ok(())
}
