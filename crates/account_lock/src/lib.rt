//! A lock round a book, whose callers take turns by ticket and share one history.
#![tactic(auto)]

pub mod counter;
mod door;
pub mod lock;
pub mod locked;
pub mod pass;
mod rule;
mod steps;
pub mod ticket_lock;
mod view;
