//! Numbers of names.
ghost use Rattle.std.specs.Prelude.{◌≡◌, ◌+◌, IfOk};
ghost use Rattle.ir_programs.specs.Registers as spec;

use ir_programs::is_same;
use plain_list::Sequence;
use std::alloc::AllocError;

/// The number of a name among those, the first of which has number 0; 0 where it is none of them.
pub fn number_of(name: &[u8], names: &[Sequence<u8>]) -> usize
    ensures { result ≡ spec.number_of name.now names.now }
{
    for at in 0..names.len() {
        if is_same(names[at].as_slice(), name) {
            return at;
        }
    }
    0
}

/// The number in 32 bits. A list in which it doesn't fit is none that memory holds.
pub fn narrow(number: usize) -> Result<u32, AllocError>
    ensures { IfOk result (λ n. n ≡ number) }
{
    match u32::try_from(number) {
        Ok(narrow) => Ok(narrow),
        Err(_) => Err(AllocError),
    }
}

/// The number so many behind another one, in 32 bits.
pub fn counted_on(number: u32, more: u32) -> Result<u32, AllocError>
    ensures { IfOk result (λ n. n ≡ number + more) }
{
    match number.checked_add(more) {
        Some(sum) => Ok(sum),
        None => Err(AllocError),
    }
}
