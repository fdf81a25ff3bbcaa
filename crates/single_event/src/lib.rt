//! Events as they are read (RFC 8984, draft JMAP for Calendars).
#![tactic(auto)]

pub mod calendars;
pub mod depth;
pub mod event;
pub mod parts;
pub mod read;
pub mod recurrence;
pub mod table;
pub mod times;
