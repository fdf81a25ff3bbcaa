//! Links over TCP.
ghost use Rattle.std.specs.Prelude.{None};

use crate::event_link::EventLink;
use crate::link::{LinkError, WsIn, WsLink};
use crate::socket_link::SocketLink;
use crate::tcp_end::TcpEnd;
use spec_sockets::served::{WsEnd, WsServed};
use std::io::{Read, Write};
use std::net::OpenStream;
use std::time::{Clock, Duration};
use tungstenite::CloseCode;

/// A link over TCP. It tells no content.
#[derive(Drop)]
pub enum TcpLink<S, R> {
    /// A WebSocket.
    Socket(SocketLink<TcpEnd<S, R>>),
    /// A stream of events.
    Events(EventLink<TcpEnd<S, R>, R>),
}

impl<S: Read + Write + OpenStream + Drop, R: Clock + Drop> TcpLink<S, R> {
    /// Ends a link that was served so: its peer is told why, where it isn't told by then, and what it still sends is passed over, for so long at most. Takes memory for what is told.
    pub(crate) fn end(self, served: WsServed, patience: Duration) {
        match self {
            TcpLink::Socket(mut link) => {
                if let Some(code) = close_code(served.end) {
                    link.close(code);
                }
                if served.end != WsEnd::Closed {
                    link.stream().pass_over(patience);
                }
            }
            TcpLink::Events(mut link) => {
                if served.end != WsEnd::Closed || link.has_ended() {
                    link.stream().pass_over(patience);
                }
            }
        }
    }
}

// What a peer is told of how its socket ended, where it isn't told by then (RFC 6455 section 7.4.1).
fn close_code(end: WsEnd) -> Option<CloseCode> {
    match end {
        WsEnd::Binary => Some(CloseCode::Unsupported),
        WsEnd::Quota | WsEnd::PassSpent => Some(CloseCode::Restart),
        WsEnd::NoMemory => Some(CloseCode::Error),
        WsEnd::Closed | WsEnd::LinkFault => None,
    }
}

impl<S: Read + Write + OpenStream + Drop, R: Clock + Drop> WsLink for TcpLink<S, R> {
    ghost use Rattle.ws_edge.specs.Linking.{tcp_faults};

    ghost shown = { λ l. record { left = None; sent = None; faults = tcp_faults l } };

    fn next(&mut self) -> Result<WsIn, LinkError> {
        match self {
            TcpLink::Socket(link) => link.next(),
            TcpLink::Events(link) => link.next(),
        }
    }

    fn send(&mut self, text: &[u8]) -> Result<(), LinkError> {
        match self {
            TcpLink::Socket(link) => link.send(text),
            TcpLink::Events(link) => link.send(text),
        }
    }
}
