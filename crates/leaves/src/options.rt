//! What is asked of an exploration, and why a leaf may stay open.

/// The limits of an exploration, and what is told of it.
#[derive(Clone, Copy)]
pub struct Options {
    /// How many bytes the input has, at most 64.
    pub input: u8,
    /// How many steps each path may take.
    pub steps: u64,
    /// How many conflicts a decision may meet, at least 1.
    pub leaves: u64,
    /// How many leaves there may be, at least 1; forks divide them among their children.
    pub shares: u64,
    /// How many workers explore.
    pub workers: u8,
    /// Whether branches and loads are told.
    pub trace: bool,
    /// Whether conditions are told.
    pub conditions: bool,
}

/// Why a leaf is open: no step was left; the solver's budget was spent; or a fork had more children than shares.
#[derive(Clone, Copy)]
pub enum Cause {
    Steps,
    Solver,
    Shares,
}
