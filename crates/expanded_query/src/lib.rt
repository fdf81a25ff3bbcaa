//! Queries of events in which each occurrence is a result of its own (draft JMAP for Calendars), over the stored events of an account.
#![tactic(auto)]

mod all_found;
mod anchor;
mod found;
mod found_occurrence;
mod id;
mod item;
mod occurrences;
mod order;
mod query;
mod ranked;
mod sight;
mod source;
mod sources;
mod terms;
mod window;

pub use query::expanded_query;
