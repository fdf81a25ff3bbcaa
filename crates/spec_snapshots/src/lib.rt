//! What is kept of a history in place of all its entries.
#![tactic(auto)]

pub mod kept;
mod laws;

pub use laws::some_history_is_kept_so;
