//! One account: what it holds, and what it answers.
#![tactic(auto)]

pub mod account;
mod asked;
mod changes;
mod found;
mod get;
pub mod keeping;
mod ledger;
mod occurrences;
pub mod opening;
mod properties;
mod pushing;
mod queries;
mod reading;
mod reply;
mod set;
mod slots;
mod tally;
mod trail;
mod uses;
