//! The bookings of a resource, and whether a proposed series clashes with them on all days without end.
#![tactic(auto)]

mod check;
mod places;
mod prepared_booking;
mod room;
mod round;

pub use room::Room;
