//! How far a look for a slot may go, and how much of it is told.

/// The most wall seconds between the ends of a look, 31 days.
pub const MAX_SPAN_SECONDS: u64 = 2_678_400;

/// The most starts that were tried that a response tells.
pub const MAX_TRIED: usize = 100;
