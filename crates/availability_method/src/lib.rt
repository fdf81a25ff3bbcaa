//! When the owner of an account is busy (draft JMAP for Calendars).
#![tactic(auto)]

mod answer;
mod events;
mod laws;
mod response;
mod window;

pub use answer::availability;
pub use laws::{events_take_up_their_occurrences, runs_are_of_the_test};
