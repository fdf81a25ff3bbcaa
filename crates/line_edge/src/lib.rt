//! Lines of a source, one after the other.
#![tactic(auto)]

pub mod next;
pub mod rest;
