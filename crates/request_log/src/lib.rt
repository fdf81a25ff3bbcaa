//! What an operator is told while connections are served: lines, which never hold up who tells them.
#![tactic(auto)]

mod line;
pub mod lines;
pub mod operator;
mod pending;
pub mod queue;
pub mod request;
