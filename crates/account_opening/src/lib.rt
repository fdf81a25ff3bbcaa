//! What an account keeps beside its entries, opened at what is kept of its history: the store, what its live objects come to, and its rooms.
#![tactic(auto)]

mod again;
mod judge;
mod open;
mod weigh;

pub use open::{Opened, OpeningError, open_parts};
