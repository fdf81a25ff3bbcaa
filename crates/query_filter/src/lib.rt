//! Filters of events (RFC 8620 section 5.5, draft JMAP for Calendars).
#![tactic(auto)]

mod alone;
mod ascii;
mod clock;
mod condition;
mod conditions;
mod filter;
mod lengths;
mod members;
mod needles;
mod parts;
mod sought;
mod texts;
mod times;
mod zoned;

pub use filter::{Filter, FilterError};
pub use zoned::ZonedFilter;
