//! Filters of events: what is wrong with one, and of which events it holds, as definitions.
#![tactic(auto)]

pub mod limits;
pub mod operator;
