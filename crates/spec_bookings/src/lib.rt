//! Bookings of resources: which calendars are resources and what their events may be, the bookings that a history makes, the first
//! second that two occurrences would cover, and the laws of these.
#![tactic(auto)]

pub mod booking;
pub mod clash;
mod laws;
pub mod limits;

pub use laws::{bookings_are_of_live_events, bookings_stay_free};
