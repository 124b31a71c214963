//! Why a text is not read on.

ghost use Rattle.std.specs.Prelude.{◌≡◌};
ghost use Rattle.reader_words.specs.declared.stop.Stop.TheVariants.{Memory};

use crate::source::Source;
use std::alloc::{AllocError, AllocFailed};

/// Where reading stopped.
#[derive(Drop)]
pub enum Stop<'a> {
    /// Memory ran out.
    Memory,
    /// Whether the token that is refused is named as unsupported there, and the tokens from it on.
    Refused(bool, Source<'a>),
}

impl<'a> From<AllocError> for Stop<'a> {
    ghost from_gives = { λ _ e. e ≡ Memory };

    fn from(_e: AllocError) -> Stop<'a> {
        Stop::Memory
    }
}

impl<'a, T: Drop> From<AllocFailed<T>> for Stop<'a> {
    ghost from_gives = { λ _ e. e ≡ Memory };

    fn from(_e: AllocFailed<T>) -> Stop<'a> {
        Stop::Memory
    }
}
