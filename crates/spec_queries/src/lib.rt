//! Queries of events and what changes of them (RFC 8620 sections 5.5 and 5.6, draft JMAP for Calendars): orders, results, windows and
//! changes as plain data, what is answered, and when a query is refused.
#![tactic(auto)]

pub mod comparator;
pub mod delta;
pub mod item;
pub mod limits;
pub mod window;
