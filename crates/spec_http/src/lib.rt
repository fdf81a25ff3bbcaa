//! HTTP/1.1 (RFC 9112): messages and responses as bytes.
#![tactic(auto)]

pub mod limits;
