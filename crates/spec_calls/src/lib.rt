//! The methods that requests may call, their arguments, calls on accounts, and replies.
#![tactic(auto)]

pub mod call;
pub mod method;
