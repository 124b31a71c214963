use flat_ir::{FuncId, RegType};
use prelude::{Primitive, find, find_primitive, prelude_func};
use std::test::Fail;

#[test]
fn functions_are_found_and_made(rt: HostRuntime) -> Result<(), Fail> {
    assert_eq!(rt; find(b"calloc"), Some(5));
    assert_eq!(rt; find(b"malloc"), None);
    for index in 0..8 {
        let func = prelude_func(rt.alloc(), index, FuncId(9))?;
        assert_eq!(rt; find(func.name.as_slice()), Some(index));
    }
    Ok(())
}

#[test]
fn primitives_have_their_parameters(rt: HostRuntime) -> Result<(), Fail> {
    assert_eq!(rt;
        find_primitive(b"__assert_fail"),
        Some(Primitive::AssertFail)
    );
    assert_eq!(rt; find_primitive(b"puts"), None);
    let params = Primitive::Exit.params(rt.alloc())?;
    assert_eq!(rt; params.as_slice(), [RegType::Int(32)].as_slice());
    assert_eq!(rt; Primitive::Malloc.result(), Some(RegType::Ptr));
    Ok(())
}
