//! The series of an event (RFC 8984 section 4.3).
#![tactic(auto)]

mod exceptions;
pub mod laws;
mod length;
pub mod read;
