//! How long a window of availability may be.

/// The most seconds between the ends of a window, 366 days.
pub const MAX_WINDOW_SECONDS: u64 = 31_622_400;
