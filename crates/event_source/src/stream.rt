//! What is written on a stream of events.
ghost use Rattle.std.specs.Prelude.{◌≡◌, [], IfOk, OnErr, OnOk, option_map, false, string_bytes};
ghost use Rattle.std.specs.Option.{option_map_or};
ghost use Rattle.std.specs.Str.{bytes_eq};
ghost use Rattle.event_source.specs.EventStreams.{closes_after_state, event_for, is_had, known_behind, due_after, ping_event, state_event, stream_behind};

use crate::known::{event_id, known_behind};
use crate::query::{CloseAfter, StreamQuery};
use spec_json::text::Text;
use spec_json::tree::TreeObject;
use std::alloc::{AllocError, Global};

/// After how many seconds in which nothing was written a comment is, on a stream without pings.
pub const COMMENT_SECONDS: u64 = 30;

/// A stream of events: what was asked for, and what the client knows by it (RFC 8620 section 7.3).
#[derive(Drop)]
pub struct EventStream {
    /// What was asked for.
    pub query: StreamQuery,
    /// The id of the last event that the client had as it connected, where it named one and was told nothing since.
    pub last_event_id: Option<Text>,
    /// The states that it was told, by account and type.
    pub known: TreeObject,
    /// Whether the stream ends here.
    pub has_ended: bool,
}

impl EventStream {
    /// A stream on which nothing was told yet, for a client that names the id of the last event that it had, if it had one. Takes no memory.
    pub fn new(alloc: Global, query: StreamQuery, last_event_id: Option<Text>) -> EventStream
        ensures { result ≡ record { query = query; last_event_id = last_event_id; known = []; has_ended = false } }
    {
        EventStream {
            query,
            last_event_id,
            known: TreeObject::new(Vec::new(alloc)),
            has_ended: false,
        }
    }

    /// Tells a `StateChange` of this text, which has no line ends: its event, or none where the client has those very states already.
    ///
    /// At an error nothing was told. Takes memory for the event, and for the states.
    pub fn tell(&mut self, alloc: Global, text: &str) -> Result<Option<String>, AllocError>
        ensures event { IfOk result (λ event. option_map string_bytes event ≡ event_for self.old text.now) }
        ensures behind { OnOk result (self.new ≡ stream_behind self.old text.now) }
        ensures err { OnErr result (self.new ≡ self.old) }
    {
        let known = known_behind(alloc, &self.known, text.as_bytes())?;
        let id = event_id(alloc, &known)?;
        let event = if is_id(&self.last_event_id, &id) {
            None
        } else {
            Some(state_event(alloc, &id, text)?)
        };
        self.has_ended = self.has_ended
            || (event.is_some() && closes_after_state(self.query.close_after));
        self.known = known;
        self.last_event_id = None;
        Ok(event)
    }

    /// What is due so many seconds behind what was written last, if anything is: a ping where the client asked for pings, and else a comment, by which a peer that is gone shows. Takes memory
    /// for it.
    pub fn due_after(&self, alloc: Global, seconds: u64) -> Result<Option<String>, AllocError>
        ensures { IfOk result (λ due. option_map string_bytes due ≡ due_after self.now.query.ping seconds) }
    {
        match self.query.ping {
            Some(interval) if interval <= seconds => Ok(Some(ping_event(alloc, interval)?)),
            None if COMMENT_SECONDS <= seconds => Ok(Some(String::from_str(alloc, ":\n")?)),
            _ => Ok(None),
        }
    }
}

// Whether there is an id, and it is this one.
fn is_id(last: &Option<Text>, id: &Text) -> bool
    ensures { result ≡ option_map_or (λ other. bytes_eq other id.now) last.now false }
{
    match last {
        Some(last) => last.as_str() == id.as_str(),
        None => false,
    }
}

fn closes_after_state(close_after: CloseAfter) -> bool
    ensures { result ≡ closes_after_state close_after }
{
    close_after == CloseAfter::State
}

// The event of a `StateChange`.
fn state_event(alloc: Global, id: &Text, text: &str) -> Result<String, AllocError>
    ensures { IfOk result (λ event. string_bytes event ≡ state_event id.now text.now) }
{
    let id = id.as_str();
    let event = format!(in alloc; "event: state\nid: {id}\ndata: {text}\n\n")?;
    Ok(event)
}

// The event that tells the interval of pings.
fn ping_event(alloc: Global, interval: u64) -> Result<String, AllocError>
    ensures { IfOk result (λ event. string_bytes event ≡ ping_event interval) }
{
    let event = format!(in alloc; "event: ping\ndata: {{\"interval\":{interval}}}\n\n")?;
    Ok(event)
}
