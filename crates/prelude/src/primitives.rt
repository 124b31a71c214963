//! The functions whose call is a node of its own kind.
ghost use Rattle.std.specs.Prelude.{◌≡◌, IfOk};
ghost use Rattle.prelude.specs.Primitives as spec;

use crate::names::is_same;
use flat_ir::RegType;
use plain_list::Sequence;
use std::alloc::{AllocError, Global};

/// A function whose call is a node of its own kind.
#[derive(Clone, Copy, Debug, PartialEq, Eq)]
pub enum Primitive {
    Malloc,
    Free,
    Exit,
    Abort,
    /// `__assert_fail`
    AssertFail,
}

impl Primitive {
    /// The types of the parameters, in order.
    pub fn params(self, alloc: Global) -> Result<Sequence<RegType>, AllocError>
        ensures { IfOk result (λ params. params ≡ spec.params_of self) }
    {
        match self {
            Primitive::Malloc => Sequence::of_one(alloc, RegType::Int(64)),
            Primitive::Free => Sequence::of_one(alloc, RegType::Ptr),
            Primitive::Exit => Sequence::of_one(alloc, RegType::Int(32)),
            Primitive::Abort => Ok(Sequence::new(alloc)),
            Primitive::AssertFail => Sequence::from_slice(
                alloc,
                &[RegType::Ptr, RegType::Ptr, RegType::Int(32), RegType::Ptr],
            ),
        }
    }

    /// The type of the result, if there is one.
    pub fn result(self) -> Option<RegType>
        ensures { result ≡ spec.result_of self }
    {
        match self {
            Primitive::Malloc => Some(RegType::Ptr),
            Primitive::Free | Primitive::Exit | Primitive::Abort | Primitive::AssertFail => None,
        }
    }
}

/// The one of `malloc`, `free`, `exit`, `abort` and `__assert_fail` that has this name. `None` for every other name.
pub fn find_primitive(name: &[u8]) -> Option<Primitive>
    ensures { result ≡ spec.primitive_of name.now }
{
    if is_same(name, b"malloc") {
        Some(Primitive::Malloc)
    } else if is_same(name, b"free") {
        Some(Primitive::Free)
    } else if is_same(name, b"exit") {
        Some(Primitive::Exit)
    } else if is_same(name, b"abort") {
        Some(Primitive::Abort)
    } else if is_same(name, b"__assert_fail") {
        Some(Primitive::AssertFail)
    } else {
        None
    }
}
