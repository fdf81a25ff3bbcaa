//! Watching the states of accounts for a client: what it was told of them, and looks at what they are, over any desk (RFC 8620 section 7.1).
#![tactic(auto)]

mod change;
mod glance;
pub mod watch;
