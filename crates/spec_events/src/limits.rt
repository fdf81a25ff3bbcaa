//! How much an event may hold, and when it may be.

/// The most calendars of an event.
pub const MAX_CALENDARS: usize = 8;

/// The most participants of an event.
pub const MAX_PARTICIPANTS: usize = 256;

/// The most wall seconds that an event may last, 366 days.
pub const MAX_WALL_SECONDS: u64 = 31_622_400;

/// How deep the value of a property may nest.
pub const MAX_DEPTH: u32 = 60;

/// The first wall second at which an event may start, that of 0001-01-01T00:00:00.
pub const FIRST_START: i64 = -62_135_596_800;

/// The last wall second at which an event may start, that of 9998-12-31T23:59:59.
pub const LAST_START: i64 = 253_370_764_799;
