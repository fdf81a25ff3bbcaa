//! Streams of events over HTTP: what is asked of them, and what is written on them (RFC 8620 section 7.3).
#![tactic(auto)]

mod known;
mod parameters;
pub mod query;
pub mod stream;
pub mod switch_text;
