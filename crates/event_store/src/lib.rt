//! The events of an account's store, each with the series that was read of it when it came in.
#![tactic(auto)]

mod events;

pub use events::{StoredEvent, StoredEvents};
