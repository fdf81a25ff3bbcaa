//! One account whose entries are kept before it has them, and what the types say of entries that are kept.
#![tactic(auto)]

pub mod account;
mod account_texts;
pub mod open;
mod texts;
pub mod values;
