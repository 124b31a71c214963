//! Skipped calls, and what pointers point into.
ghost use Rattle.std.specs.Prelude.{◌≡◌, IfOk};
ghost use Rattle.sym_bytes.specs.Building as spec;

use flat_ir::ObjectName;
use std::alloc::AllocError;

/// A skipped call of a path. Calls count from 1.
#[derive(Clone, Copy, Debug, PartialEq, Eq)]
pub struct CallId(pub u32);

/// What a pointer points into: no object, or one.
#[derive(Drop)]
pub enum Base {
    Null,
    Object(ObjectName),
}

impl Base {
    /// An equal base, which shares the name.
    pub fn copy(&self) -> Result<Base, AllocError>
        ensures { IfOk result (λ b. b ≡ self.now) }
    {
        match self {
            Base::Null => Ok(Base::Null),
            Base::Object(name) => Ok(Base::Object(name.copy()?)),
        }
    }

    /// Whether the two are one object, or neither is any.
    pub fn is_same(&self, other: &Base) -> bool
        ensures { result ≡ spec.same_base self.now other.now }
    {
        match (self, other) {
            (Base::Null, Base::Null) => true,
            (Base::Object(x), Base::Object(y)) => x == y,
            _ => false,
        }
    }
}
