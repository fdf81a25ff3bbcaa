//! A list that exists in proofs alone.
#![tactic(auto)]

mod list;

pub use list::GhostList;
