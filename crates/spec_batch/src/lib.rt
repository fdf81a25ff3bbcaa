//! Requests, what each of their invocations means, their responses, and what answers calls.
#![tactic(auto)]

pub mod desk;
pub mod limits;
pub mod method_response;
pub mod request;
