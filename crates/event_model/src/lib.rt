//! Events that may recur (RFC 8984 section 4.3).
#![tactic(auto)]

mod dates;
pub mod ids;
pub mod names;
pub mod occurrence;
pub mod rules;
mod table;
