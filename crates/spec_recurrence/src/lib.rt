//! Events that recur: which rules and overrides an event may have, which occurrences there are, and what each is.
#![tactic(auto)]

pub mod laws;
pub mod limits;
