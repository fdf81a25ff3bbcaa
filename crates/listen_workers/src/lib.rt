//! The workers of `listen`: each serves one connection after the other, or one socket, over any listener, or whatever hands out links, desk and clock; how they are
//! started and joined, and their desks, over accounts that they share.
#![tactic(auto)]

pub mod accepters;
pub mod crew;
pub mod desks;
pub mod hands;
pub mod laws;
pub mod listeners;
pub mod post;
pub mod socket_worker;
pub mod worker;
