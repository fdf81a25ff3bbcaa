//! What comes of one object of a set (RFC 8620 section 5.3), over any view of an account: whether it is accepted or why not, and where
//! an event may be booked.
#![tactic(auto)]

pub mod against;
pub mod booking_rules;
mod calendar;
pub mod created_ids;
mod event;
mod given;
pub mod judge;
pub mod objects;
mod occurrences;
pub mod operation;
mod quota;
mod resolved;
pub mod resources;
pub mod setting;
pub mod sound;
pub mod texts;
mod uid;
