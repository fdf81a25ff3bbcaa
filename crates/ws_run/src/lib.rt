//! The command `websocket`, over any opener, clock and what accepts sockets.
#![tactic(auto)]

pub mod laws;
pub mod run;
