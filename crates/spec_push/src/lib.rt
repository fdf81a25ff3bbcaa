//! Which states of accounts a client is told, what a look at them shows, and what is sent of it (RFC 8620 section 7.1).
#![tactic(auto)]

pub mod data_types;
pub mod watched;
