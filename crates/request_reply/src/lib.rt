//! Replies to requests, over any desk (RFC 8620 section 3).
#![tactic(auto)]

pub mod reply;
