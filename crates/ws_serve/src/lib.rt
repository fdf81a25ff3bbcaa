//! JMAP over WebSocket: from the texts of a link to the texts of their replies, over any link, desk and clock; and sockets one after the other (RFC 8887).
#![tactic(auto)]

pub mod host;
pub mod laws;
mod push;
pub mod reply;
pub mod serve;
mod switch;
mod turn;
