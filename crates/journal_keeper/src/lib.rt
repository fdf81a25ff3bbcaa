//! What keeps the entries of accounts over a stop of the process: their texts, and the trait of what holds these.
#![tactic(auto)]

mod floors;
pub mod keeper;
pub mod kept_text;
pub mod laws;
pub mod loaded;
pub mod memory_keeper;
pub mod read;
pub mod texts;
pub mod write;
