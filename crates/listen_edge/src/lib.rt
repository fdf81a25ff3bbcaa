//! Where connections come from, and what runs those who serve them.
#![tactic(auto)]

pub mod accept_error;
mod connection;
mod head_search;
mod held;
pub mod host;
pub mod in_place;
pub mod job;
pub mod listener;
mod lobby;
pub mod memory_host;
pub mod memory_listener;
pub mod real_threads;
pub mod spawner;
pub mod tcp_ends;
pub mod tcp_host;
pub mod tcp_listener;
