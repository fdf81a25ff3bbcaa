//! Clashes with bookings of a resource.

/// The first second that an occurrence of a proposed series covers and that a different occurrence covers too.
#[derive(Clone, Copy, Debug, PartialEq, Eq, Drop)]
pub struct Clash {
    /// The number of the first event, in order of creation, whose booking covers the second, or `None` where none does and two
    /// occurrences of the proposed series cover it.
    pub with: Option<u64>,
    /// The day of the second, by its number, which counts from 1970-01-01.
    pub day: i64,
    /// The second of that day.
    pub second: u32,
}
