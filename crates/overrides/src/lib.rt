//! Overrides of single occurrences of an event (RFC 8984 section 4.3.5).
#![tactic(auto)]

mod alone;
pub mod exceptions;
mod fixed;
pub mod occurrence;
mod part;
