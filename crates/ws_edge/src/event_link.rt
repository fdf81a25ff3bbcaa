//! Streams of events over HTTP, as links.
ghost use Rattle.std.specs.Prelude.{◌≡◌, ◌≤◌, Err, IfOk, None};
ghost use Rattle.io_edge.specs.Outside.{Rose};

use crate::link::{LinkError, WsIn, WsLink};
use crate::silence::is_silence;
use event_source::query::StreamQuery;
use event_source::stream::EventStream;
use event_source::switch_text::switch_text;
use spec_json::text::Text;
use std::alloc::Global;
use std::io::{self, Read, Write};
use std::time::{Clock, Duration};

/// How many bytes of what a client sends are passed over at once.
const PIECE: usize = 1_024;

/// The head of the response. The stream has no length: it goes on until the connection ends (RFC 9112 section 6.3).
const HEAD: &str =
    "HTTP/1.1 200 OK\r\nContent-Type: text/event-stream\r\nCache-Control: no-store\r\nConnection: close\r\n\r\n";

/// A stream of events over a connection, behind the head of its response (RFC 8620 section 7.3).
///
/// The first message that it gives is the switch by which a socket is told changes of the types that were asked for; then it is quiet behind each read. Each text that is sent over it is
/// written as an event, but for one that tells the client nothing that it hasn't. It sends pings, and ends where its events say so. It tells no content.
#[derive(Drop)]
pub struct EventLink<S, R> {
    alloc: Global,
    stream: S,
    runtime: R,
    events: EventStream,
    // when something was written last
    written: Duration,
    // whether the switch was given
    is_switched: bool,
    faults: u64,
}

impl<S: Read + Write + Drop, R: Clock + Drop> EventLink<S, R> {
    /// Writes the head of the response, and makes a link of the stream behind it: for a client that asks for this, and that names the id of the last event that it had, if it had one. Takes
    /// no memory.
    pub fn begin(
        alloc: Global,
        stream: S,
        runtime: R,
        query: StreamQuery,
        last_event_id: Option<Text>,
    ) -> io::Result<EventLink<S, R>>
        ensures { IfOk result (λ link. link.faults ≡ 0) }
    {
        let written = runtime.monotonic()?;
        let mut link = EventLink {
            alloc,
            stream,
            runtime,
            events: EventStream::new(alloc, query, last_event_id),
            written,
            is_switched: false,
            faults: 0,
        };
        link.write(HEAD)?;
        Ok(link)
    }

    /// Whether the stream ended by itself. Takes no memory.
    pub fn has_ended(&self) -> bool {
        self.events.has_ended
    }

    /// The connection. Takes no memory.
    pub fn stream(&mut self) -> &mut S {
        &mut self.stream
    }

    fn fail(&mut self) -> LinkError
        ensures later { self.old.faults ≤ self.new.faults }
        ensures failed { Rose self.old.faults self.new.faults }
    {
        self.faults = self.faults.saturating_add(1);
        LinkError::Failed
    }

    // Writes a text whole, and notes when.
    fn write(&mut self, text: &str) -> io::Result<()>
        ensures { self.new.faults ≡ self.old.faults }
    {
        self.stream.write_all(text.as_bytes())?;
        self.stream.flush()?;
        self.written = self.runtime.monotonic()?;
        Ok(())
    }

    // Writes a text whole.
    fn send_text(&mut self, text: &str) -> Result<(), LinkError>
        ensures later { self.old.faults ≤ self.new.faults }
        ensures failed { result ≡ Err LinkError.Failed → Rose self.old.faults self.new.faults }
    {
        match self.write(text) {
            Ok(()) => Ok(()),
            Err(_) => Err(self.fail()),
        }
    }

    // The switch, as the first message.
    fn switch(&mut self) -> Result<WsIn, LinkError>
        ensures later { self.old.faults ≤ self.new.faults }
        ensures failed { result ≡ Err LinkError.Failed → Rose self.old.faults self.new.faults }
    {
        match Text::from_str(self.alloc, switch_text(self.events.query.types)) {
            Ok(text) => {
                self.is_switched = true;
                Ok(WsIn::Text(text))
            }
            Err(_) => Err(LinkError::NoMemory),
        }
    }

    // What follows of a read that ended nothing. A ping is sent where one is due.
    fn note_time(&mut self) -> Result<WsIn, LinkError>
        ensures later { self.old.faults ≤ self.new.faults }
        ensures failed { result ≡ Err LinkError.Failed → Rose self.old.faults self.new.faults }
    {
        let Ok(now) = self.runtime.monotonic() else {
            return Err(self.fail());
        };
        let seconds = now.saturating_sub(self.written).as_secs();
        match self.events.due_after(self.alloc, seconds) {
            Ok(None) => Ok(WsIn::Quiet),
            Ok(Some(due)) => match self.send_text(due.as_str()) {
                Ok(()) => Ok(WsIn::Quiet),
                Err(error) => Err(error),
            },
            Err(_) => Err(LinkError::NoMemory),
        }
    }
}

impl<S: Read + Write + Drop, R: Clock + Drop> WsLink for EventLink<S, R> {
    ghost shown = { λ l. record { left = None; sent = None; faults = l.faults } };

    fn next(&mut self) -> Result<WsIn, LinkError> {
        if !self.is_switched {
            return self.switch();
        }
        if self.events.has_ended {
            return Ok(WsIn::Closed);
        }
        let mut piece = [0; PIECE];
        match self.stream.read(&mut piece) {
            Ok(0) => Ok(WsIn::Closed),
            Ok(_) => self.note_time(),
            Err(error) if is_silence(&error) => self.note_time(),
            Err(_) => Err(self.fail()),
        }
    }

    fn send(&mut self, text: &[u8]) -> Result<(), LinkError> {
        let Ok(text) = simdutf8::basic::from_utf8(text) else {
            return Err(self.fail());
        };
        match self.events.tell(self.alloc, text) {
            Ok(Some(event)) => self.send_text(event.as_str()),
            Ok(None) => Ok(()),
            Err(_) => Err(LinkError::NoMemory),
        }
    }
}
