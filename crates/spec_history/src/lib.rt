//! The history of an account: its entries, and the changes in them.
#![tactic(auto)]

pub mod entry;
pub mod ids;
pub mod stamp;
pub mod state;
