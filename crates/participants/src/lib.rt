//! The participants of an event (RFC 8984 section 4.4.6).
#![tactic(auto)]

pub mod finds;
pub mod participant;
pub mod people;
pub mod read;
pub mod table;
