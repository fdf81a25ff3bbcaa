//! What holds a history, and what comes of the calls on it.
#![tactic(auto)]

pub mod book;
