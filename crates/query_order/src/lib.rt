//! Orders, results, windows and changes of queries (RFC 8620 sections 5.5 and 5.6).
#![tactic(auto)]

pub mod change;
pub mod laws;
pub mod order;
pub mod result;
pub mod sort_argument;
pub mod window;
