//! How many overrides an event may have.

/// The most overrides of an event.
pub const MAX_OVERRIDES: usize = 128;
