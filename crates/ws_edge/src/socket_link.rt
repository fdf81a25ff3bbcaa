//! Links over a stream.
ghost use Rattle.std.specs.Prelude.{◌≡◌, ◌≤◌, Err, IfOk, None};
ghost use Rattle.io_edge.specs.Outside.{Rose};

use crate::link::{LinkError, WsIn, WsLink};
use crate::silence::is_silence;
use spec_json::text::Text;
use std::alloc::Global;
use std::io::{Read, Write};
use tungstenite::{
    Bytes, CloseCode, CloseFrame, Error, Message, NoMask, Role, Utf8Bytes, WebSocket,
    WebSocketConfig,
};

/// The longest message that is taken whole, in bytes. A longer one ends the link with the close code 1009.
pub const MAX_MESSAGE: usize = 16_777_216;

/// After how many reads that gave nothing a peer is asked for a sign of life.
const SILENT_READS: u32 = 50;

/// A link over a stream on which a server's handshake was done.
///
/// It answers pings and the closing handshake, joins fragments, and asks a peer for a sign of life where 50 reads gave nothing. It is quiet behind each read for which the stream waited
/// in vain, and behind each frame that is no message. It tells no content.
#[derive(Drop)]
pub struct SocketLink<S> {
    alloc: Global,
    socket: WebSocket<S, NoMask>,
    // how many reads have given nothing since the last frame, or the last ping that was sent
    silent: u32,
    faults: u64,
}

impl<S: Read + Write + Drop> SocketLink<S> {
    /// Makes a link of a stream behind its handshake. Takes no memory.
    pub fn new(alloc: Global, stream: S) -> SocketLink<S>
        ensures { result.faults ≡ 0 }
    {
        let limits = WebSocketConfig::default()
            .max_message_size(Some(MAX_MESSAGE))
            .max_frame_size(Some(MAX_MESSAGE));
        SocketLink {
            alloc,
            socket: WebSocket::from_raw_socket(alloc, stream, NoMask, Role::Server, Some(limits)),
            silent: 0,
            faults: 0,
        }
    }

    /// Tells the peer why the link ends, where it can still be told (RFC 6455 section 7.4.1). Takes memory for it.
    pub fn close(&mut self, code: CloseCode)
        ensures { self.new.faults ≡ self.old.faults }
    {
        let reason = Utf8Bytes::from_static("");
        let _ = self.socket.close(Some(CloseFrame { code, reason }));
    }

    /// The stream. Takes no memory.
    pub fn stream(&mut self) -> &mut S {
        self.socket.get_mut()
    }

    // Notes a failure, and tells the peer where it broke the protocol.
    fn refuse(&mut self, error: Error) -> LinkError
        ensures later { self.old.faults ≤ self.new.faults }
        ensures failed { result ≡ LinkError.Failed → Rose self.old.faults self.new.faults }
    {
        match error {
            Error::OutOfMemory => return LinkError::NoMemory,
            Error::Capacity(_) => self.close(CloseCode::Size),
            Error::Utf8 => self.close(CloseCode::Invalid),
            Error::Protocol(_) => self.close(CloseCode::Protocol),
            _ => {}
        }
        self.faults = self.faults.saturating_add(1);
        LinkError::Failed
    }

    // What follows of a read that gave nothing. A peer that has been silent for long is asked for a sign of life.
    fn note_silence(&mut self) -> Result<WsIn, LinkError>
        ensures quiet { IfOk result (λ given. given ≡ WsIn.Quiet) }
        ensures later { self.old.faults ≤ self.new.faults }
        ensures failed { result ≡ Err LinkError.Failed → Rose self.old.faults self.new.faults }
    {
        self.silent = self.silent.saturating_add(1);
        if self.silent >= SILENT_READS {
            self.silent = 0;
            if let Err(error) = self.socket.send(Message::Ping(Bytes::from_static(b""))) {
                return Err(self.refuse(error));
            }
        }
        Ok(WsIn::Quiet)
    }
}

// Whether the stream waited in vain for as long as it may.
fn is_quiet(error: &Error) -> bool {
    match error {
        Error::Io(cause) => is_silence(cause),
        _ => false,
    }
}

impl<S: Read + Write + Drop> WsLink for SocketLink<S> {
    ghost shown = { λ l. record { left = None; sent = None; faults = l.faults } };

    fn next(&mut self) -> Result<WsIn, LinkError> {
        let message = match self.socket.read() {
            Ok(message) => message,
            Err(error) if is_quiet(&error) => return self.note_silence(),
            Err(error) => return Err(self.refuse(error)),
        };
        self.silent = 0;
        match message {
            Message::Text(text) => match Text::from_str(self.alloc, text.as_str()) {
                Ok(text) => Ok(WsIn::Text(text)),
                Err(_) => Err(LinkError::NoMemory),
            },
            Message::Binary(_payload) => Ok(WsIn::Binary),
            Message::Ping(_payload) => Ok(WsIn::Quiet),
            Message::Pong(_payload) => Ok(WsIn::Quiet),
            Message::Close(_frame) => {
                let _ = self.socket.flush();
                Ok(WsIn::Closed)
            }
        }
    }

    fn send(&mut self, text: &[u8]) -> Result<(), LinkError> {
        let Ok(words) = simdutf8::basic::from_utf8(text) else {
            return Err(self.refuse(Error::Utf8));
        };
        let message = match Message::text(self.alloc, words) {
            Ok(message) => message,
            Err(_) => return Err(LinkError::NoMemory),
        };
        match self.socket.send(message) {
            Ok(()) => Ok(()),
            Err(error) => Err(self.refuse(error)),
        }
    }
}
