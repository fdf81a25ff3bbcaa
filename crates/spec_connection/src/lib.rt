//! What a connection comes to: its messages, their responses, and its end.
#![tactic(auto)]

pub mod served;
