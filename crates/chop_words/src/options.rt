//! The options of an exploration.

/// How far an exploration goes, and what its leaves show.
#[derive(Clone, Copy, Debug, PartialEq, Eq)]
pub struct Options {
    /// Bytes of input.
    pub input: u8,
    /// Steps of each path.
    pub steps: u64,
    /// Conflicts that a search may meet.
    pub leaves: u64,
    /// Shares, which forks divide among their children.
    pub shares: u64,
    /// Whether leaves show their events.
    pub trace: bool,
    /// Whether leaves show their conditions.
    pub conditions: bool,
}
