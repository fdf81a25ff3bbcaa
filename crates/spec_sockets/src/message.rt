//! Messages of a WebSocket.

use spec_json::text::Text;

/// A message of a client (RFC 6455 section 5.6).
#[derive(Drop)]
pub enum WsMessage {
    /// A text.
    Text(Text),
    /// Bytes that are no text.
    Binary,
}
