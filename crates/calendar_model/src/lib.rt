//! Calendars as they are read and stored (draft JMAP for Calendars).
#![tactic(auto)]

pub mod calendar;
pub mod laws;
pub mod read;
mod table;
