//! The command `listen`, by which workers serve the users of a site at the same time, and the program with all its commands.
#![tactic(auto)]

pub mod job;
pub mod laws;
pub mod listen;
pub mod listen_kept;
pub mod office;
pub mod program;
