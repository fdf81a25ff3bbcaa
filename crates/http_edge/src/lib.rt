//! Messages of HTTP/1.1 from any source, and the bytes of responses (RFC 9112).
#![tactic(auto)]

pub mod bytes;
mod fields;
mod head;
pub mod held;
pub mod laws;
pub mod message;
pub mod next;
pub mod response;
mod search;
pub mod token;
