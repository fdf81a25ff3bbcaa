//! Types of objects whose states are told.

/// Of which types a client is told the states (RFC 8620 section 7.1).
#[derive(Clone, Copy, Debug, PartialEq, Eq, Drop)]
pub struct DataTypes {
    /// Of `Calendar`.
    pub calendars: bool,
    /// Of `CalendarEvent`.
    pub events: bool,
}
