//! Lengths of occurrences.

/// A duration (RFC 8984 section 1.4.6): days of the calendar, and seconds beside them.
#[derive(Clone, Copy, Debug, PartialEq, Eq, Drop)]
pub struct Length {
    /// Days, where a week has 7.
    pub days: u64,
    /// The seconds of the hours, minutes and seconds together.
    pub seconds: u64,
}
