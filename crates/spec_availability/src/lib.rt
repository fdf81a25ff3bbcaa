//! When the owner of an account is busy (draft JMAP for Calendars), as definitions.
#![tactic(auto)]

pub mod limits;
pub mod window;
