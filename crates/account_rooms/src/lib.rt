//! The rooms of an account: its resource calendars with their bookings, beside a history of changes, and the laws of when a booking is
//! refused as a clash.
#![tactic(auto)]

pub mod clash_laws;
pub mod laws;
mod rooms;
mod slot;

pub use rooms::Rooms;
