//! The store of an account, opened at what is kept of its history.
#![tactic(auto)]

mod logs;
mod open;

pub use open::{StoreError, open_store};
