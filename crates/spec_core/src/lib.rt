//! What JMAP Core says apart from any method: limits, capabilities, and users with the accounts that they may use.
#![tactic(auto)]

pub mod capability;
pub mod limits;
pub mod names;
pub mod numbers;
pub mod user;
