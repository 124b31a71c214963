ghost use Rattle.std.specs.Prelude.{◌≡◌, Some, IsSome, IfOk};
ghost use Rattle.std.specs.Arc.{arc_value};

use std::alloc::{AllocError, Global};
use std::marker::Model;
use std::sync::Arc;

/// An `Arc` that contracts see as its value.
#[derive(Drop)]
pub struct Shared<T> {
    inner: Arc<Option<T>>,
    ghost filled: { IsSome (arc_value inner) },
}

impl<T> Model for Shared<T> {
    ghost use Rattle.std.specs.Arc.{arc_value};
    ghost use Rattle.await_core.specs.Held.{held_value};

    ghost Value = { T };

    ghost coded = { T.code };

    ghost view = { λ s. held_value (arc_value s.inner) s.filled };
}

impl<T> Shared<T> {
    pub fn get(&self) -> &T
        ensures { result.now ≡ self.now }
    {
        match &*self.inner {
            Some(value) => value,
            None => unreachable!(),
        }
    }
}

impl<T: Drop> Shared<T> {
    /// Two owners of the value.
    pub fn pair(alloc: Global, value: T) -> Result<(Shared<T>, Shared<T>), AllocError>
        ensures { IfOk result (λ both. (both.0 ≡ value) × (both.1 ≡ value)) }
    {
        let inner = Arc::new(alloc, Some(value))?;
        let other = Arc::try_clone(&inner)?;
        Ok((Shared { inner }, Shared { inner: other }))
    }

    /// The owner of a place that was filled.
    pub fn of_place(inner: Arc<Option<T>>) -> Shared<T>
        requires { IsSome (arc_value inner) }
        ensures { Some result ≡ arc_value inner }
    {
        Shared { inner }
    }

    /// A second owner of the value. It takes no memory, and fails only past 2^63 - 1 owners.
    pub fn other(&self) -> Result<Shared<T>, AllocError>
        ensures { IfOk result (λ other. other ≡ self.now) }
    {
        let inner = Arc::try_clone(&self.inner)?;
        Ok(Shared { inner })
    }
}
