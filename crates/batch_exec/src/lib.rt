//! Requests: what they ask for, what each invocation means, and the responses, over any desk.
#![tactic(auto)]

pub mod arguments;
mod batch;
pub mod call;
pub mod laws;
mod meaning;
pub mod problem;
mod request;
mod response;
pub mod run;
