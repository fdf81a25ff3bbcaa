//! Recurrence rules from JSON values and back (RFC 8984 section 4.3.3).
#![tactic(auto)]

mod error;
mod frame;
mod implied;
mod laws;
mod lists;
mod read;
mod values;
mod words;
mod write;

pub use error::RulesError;
pub use laws::{read_rules_are_meant, written_rules_are_read};
pub use read::read_rules;
pub use write::rule_tree;
