//! What a type takes in memory, as numbers of the code.

/// A size, up to one more than an object may have, and an alignment.
#[derive(Clone, Copy, Debug, PartialEq, Eq)]
pub struct Room {
    pub size: u64,
    pub align: u64,
}
