//! Heads of requests on the port of sockets (RFC 9112 sections 2 to 5).
ghost use Rattle.std.specs.Prelude.{ℕ, ◌<◌, All, IfOk, IfSome, length};
ghost use Rattle.httparse.specs.Spans.{IsHeaderWithin, IsRequestWithin};
ghost use Rattle.spec_http.specs.Responses.{IsStatus};
ghost use Rattle.ws_edge.specs.Linking.{AsksForUserOf};

use event_source::query::{QueryRefusal, StreamQuery, StreamQueryError, read_query, split_target};
use http_edge::bytes::Bytes;
use http_edge::response::{Response, response_bytes};
use http_edge::token::bearer_token;
use httparse::Status;
use httparse::spans::{EMPTY_HEADER_SPAN, HeaderSpan, RequestSpans, parse_request};
use session_doc::Site;
use spec_http::limits::{MAX_FIELDS, MAX_HEAD};
use spec_json::text::Text;
use std::alloc::{AllocError, Global};
use std::io::{self, Read};

/// The path at which streams of events are, as the session object says (RFC 8620 section 2).
const EVENTS: &[u8] = b"/events";

/// How many bytes are taken at once.
const PIECE: usize = 2_048;

/// What the head of a request asks for.
#[derive(Drop)]
pub(crate) enum HeadAsks {
    /// A WebSocket, or what is no head: this is for the handshake to say.
    Socket,
    /// A stream of events.
    Events(EventsAsked),
    /// Nothing that is here. It is answered by these bytes.
    Refused(Vec<u8>),
}

/// A stream of events that is asked for.
#[derive(Drop)]
pub(crate) struct EventsAsked {
    /// The number of the user whose token is shown.
    pub(crate) user: u32,
    /// What is asked for.
    pub(crate) query: StreamQuery,
    /// The id of the last event that the client had, if it names one (HTML section 9.2.4).
    pub(crate) last_event_id: Option<Text>,
}

/// Takes the head of a request from a stream, and maybe bytes behind it: until an empty line ends it, the stream ends, or there are `MAX_HEAD` bytes. Takes memory for it.
pub(crate) fn take_head<S: Read>(alloc: Global, stream: &mut S) -> io::Result<Vec<u8>> {
    let mut head = Vec::new(alloc);
    let mut piece = [0; PIECE];
    for _ in 0..MAX_HEAD {
        let count = stream.read(&mut piece)?;
        let searched = head.len().saturating_sub(2);
        head.extend_from_slice(&piece[..count])?;
        if count == 0 || head.len() >= MAX_HEAD || has_empty_line(&head[searched..]) {
            break;
        }
    }
    Ok(head)
}

// Whether a line feed is followed by an empty line.
fn has_empty_line(bytes: &[u8]) -> bool {
    bytes.windows(2).any(|pair| pair == b"\n\n".as_slice())
        || bytes.windows(3).any(|three| three == b"\n\r\n".as_slice())
}

/// What the head of a request asks for, with the token that it shows of a user of the site. Takes memory for it.
pub(crate) fn read_head(alloc: Global, head: &[u8], site: &Site) -> Result<HeadAsks, AllocError>
    ensures { IfOk result (λ asks. AsksForUserOf (length site.now.users) asks) }
{
    let mut room = [EMPTY_HEADER_SPAN; MAX_FIELDS];
    let Some(spans) = parse_head(head, &mut room) else {
        return Ok(HeadAsks::Socket);
    };
    let fields = &room[..spans.headers];
    if is_upgrade(head, fields) {
        return Ok(HeadAsks::Socket);
    }
    let Some(user) = user_of(alloc, head, fields, site)? else {
        return refused(alloc, 401, None);
    };
    let (path, query) = split_target(spans.path.of(head));
    if path != EVENTS {
        return refused(alloc, 404, None);
    }
    if spans.method.of(head) != b"GET".as_slice() {
        return refused(alloc, 405, Some(Text::from_str(alloc, "GET")?));
    }
    match read_query(alloc, query) {
        Ok(query) => Ok(HeadAsks::Events(EventsAsked {
            user,
            query,
            last_event_id: last_event_id(alloc, head, fields)?,
        })),
        Err(StreamQueryError::Refused(refusal)) => refused_query(alloc, refusal),
        Err(StreamQueryError::NoMemory) => Err(AllocError),
    }
}

// Where the parts of a head stand, where these bytes begin with one.
fn parse_head(head: &[u8], fields: &mut [HeaderSpan]) -> Option<RequestSpans>
    ensures { IfSome result (λ spans. IsRequestWithin head.now fields.new spans) }
{
    match parse_request(head, fields) {
        Ok(Status::Complete(spans)) => Some(spans),
        _ => None,
    }
}

// The value of the first field of this name.
fn field_of<'a>(head: &'a [u8], fields: &[HeaderSpan], name: &[u8]) -> Option<&'a [u8]>
    requires { All (IsHeaderWithin (length head.now)) fields.now }
{
    for field in fields {
        if field.name.of(head).eq_ignore_ascii_case(name) {
            return Some(field.value.of(head));
        }
    }
    None
}

// Whether a head asks to become a WebSocket (RFC 6455 section 4.2.1).
fn is_upgrade(head: &[u8], fields: &[HeaderSpan]) -> bool
    requires { All (IsHeaderWithin (length head.now)) fields.now }
{
    match field_of(head, fields, b"upgrade") {
        Some(value) => value.split(|byte| *byte == b',').any(|protocol| protocol
            .trim_ascii()
            .eq_ignore_ascii_case(b"websocket")),
        None => false,
    }
}

// The number of the user whose token a head shows.
fn user_of(
    alloc: Global,
    head: &[u8],
    fields: &[HeaderSpan],
    site: &Site,
) -> Result<Option<u32>, AllocError>
    requires { All (IsHeaderWithin (length head.now)) fields.now }
    ensures { IfOk result (λ user. IfSome user (λ n. n < length site.now.users)) }
{
    let Some(value) = field_of(head, fields, b"authorization") else {
        return Ok(None);
    };
    match bearer_token(alloc, value)? {
        Some(token) => Ok(site.user_of(&token)),
        None => Ok(None),
    }
}

// The id of the last event that the client had, if it names one.
fn last_event_id(
    alloc: Global,
    head: &[u8],
    fields: &[HeaderSpan],
) -> Result<Option<Text>, AllocError>
    requires { All (IsHeaderWithin (length head.now)) fields.now }
{
    let Some(value) = field_of(head, fields, b"last-event-id") else {
        return Ok(None);
    };
    match simdutf8::basic::from_utf8(value) {
        Ok(id) => Ok(Some(Text::from_str(alloc, id)?)),
        Err(_) => Ok(None),
    }
}

// A refusal without a body, by this status, with the method that is allowed.
fn refused(alloc: Global, status: u16, allow: Option<Text>) -> Result<HeadAsks, AllocError>
    requires { IsStatus status }
    ensures { IfOk result (λ asks. (users : ℕ) → AsksForUserOf users asks) }
{
    let response = Response {
        status,
        problem: false,
        allow,
        close: true,
        body: Bytes::from_vec(Vec::new(alloc)),
    };
    Ok(HeadAsks::Refused(response_bytes(alloc, &response)?))
}

// The refusal of a query, by a problem that names the parameter (RFC 7807 section 3.1).
fn refused_query(alloc: Global, refusal: QueryRefusal) -> Result<HeadAsks, AllocError>
    ensures { IfOk result (λ asks. (users : ℕ) → AsksForUserOf users asks) }
{
    let name = refusal.parameter.name();
    let words = refusal.flaw.words();
    let problem = format!(in alloc;
        "{{\"detail\":\"{name} {words}\",\"status\":400,\"type\":\"about:blank\"}}"
    )?;
    let response = Response {
        status: 400,
        problem: true,
        allow: None,
        close: true,
        body: Bytes::from_vec(problem.into_bytes()),
    };
    Ok(HeadAsks::Refused(response_bytes(alloc, &response)?))
}
