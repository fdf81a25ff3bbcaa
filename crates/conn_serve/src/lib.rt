//! Connections: from the bytes of messages to the bytes of their responses, over any source, sink, desk and clock.
#![tactic(auto)]

mod answer;
pub mod laws;
mod route;
pub mod serve;
mod tell;
