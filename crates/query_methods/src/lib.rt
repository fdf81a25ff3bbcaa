//! Queries of events, and what changed of their results (RFC 8620 sections 5.5 and 5.6), over the store of an account.
#![tactic(auto)]

mod changed;
pub mod criteria;
pub mod error;
mod event_state;
pub mod found;
pub mod ids;
pub mod item;
pub mod laws;
pub mod numbers;
pub mod query;
pub mod query_changes;
mod result;
mod sight;
