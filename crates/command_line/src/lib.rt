//! The words of the command line, read by the crate `clap`.
#![tactic(auto)]

pub mod command;
mod counts;
pub mod crew;
mod flags;
pub mod kept;
pub mod listen;
pub mod listen_kept;
mod options;
pub mod slot;
pub mod websocket;
pub mod workload;
