//! The type of a civil date.

/// A date of the Gregorian calendar.
#[derive(Clone, Copy, Debug, PartialEq, Eq)]
pub struct Civil {
    /// The year, where 0 is the one before year 1.
    pub year: i64,
    /// The month, from 1 for January to 12.
    pub month: u8,
    /// The day of the month, from 1.
    pub day: u8,
}
