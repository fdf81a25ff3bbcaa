//! What a WebSocket comes to: its messages, their replies, the changes that are told on it, and its end (RFC 8887).
#![tactic(auto)]

pub mod message;
pub mod served;
pub mod switch;
