//! Where WebSocket messages come from and go to: links of messages, and what hands them out (RFC 6455, RFC 8887). A stream of events over HTTP is such a link too (RFC 8620 section 7.3).
#![tactic(auto)]

pub mod accept;
pub mod event_link;
pub mod handshake;
pub mod link;
pub mod memory_accept;
pub mod memory_link;
pub mod memory_socket_host;
mod request_head;
mod silence;
pub mod socket_host;
pub mod socket_link;
pub mod tcp_accept;
pub mod tcp_end;
pub mod tcp_link;
pub mod tcp_socket_host;
