//! A connection.
ghost use Rattle.std.specs.Prelude.{◌≡◌, ◌<◌, length, IfOk};
ghost use Rattle.spec_http.specs.Responses.{IsStatus};
ghost use Rattle.spec_connection.specs.Serving.{Serves, refusal_text};
ghost use Rattle.spec_connection.specs.Exchanges.{closes};
ghost use Rattle.http_edge.specs.Reading.{message_shown};
ghost use Rattle.conn_serve.specs.Ending.{IsRefusalEnd};

use crate::answer::answer;
use crate::tell::tell_refused;
use http_edge::bytes::Bytes;
use http_edge::held::HeldBytes;
use http_edge::message::Message;
use http_edge::next::{Next, next_message};
use http_edge::response::{Response, response_bytes};
use io_edge::clock::Clock;
use io_edge::sink::{Sink, put_all};
use io_edge::source::Source;
use request_log::request::RequestLog;
use session_doc::Site;
use spec_batch::desk::{Desk, DeskError, Front};
use spec_connection::served::{ConnEnd, MAX_MESSAGES, Served, end_for};
use std::alloc::{AllocError, Global};

/// Answers the messages of a connection for the users of a site, in order (RFC 9112, RFC 8620 section 3).
///
/// The bytes of each response are given to the sink as one piece. The clock is read once for each JMAP request of a user. Bytes behind the
/// last message that is answered may have been taken; they are lost. Takes memory for one message and its response at a time, and for the fronts. A log is told of
/// each message that is answered, before its response is given.
pub fn serve_connection<S: Source, K: Sink, D: Desk, C: Clock, G: RequestLog>(
    alloc: Global,
    site: &Site,
    source: &mut S,
    sink: &mut K,
    desk: &mut D,
    clock: &mut C,
    log: &G,
) -> Served
    requires { (D.shown desk.old).accounts ≡ length site.now.accounts }
    ensures { Serves site.now MAX_MESSAGES
        (record { source = S.shown source.old; sink = K.shown sink.old; clock = C.moments clock.old; desk = D.shown desk.old })
        (record { source = S.shown source.new; sink = K.shown sink.new; clock = C.moments clock.new; desk = D.shown desk.new }) result }
{
    serve_at_most(alloc, MAX_MESSAGES, site, source, sink, desk, clock, log)
}

fn serve_at_most<S: Source, K: Sink, D: Desk, C: Clock, G: RequestLog>(
    alloc: Global,
    most: u64,
    site: &Site,
    source: &mut S,
    sink: &mut K,
    desk: &mut D,
    clock: &mut C,
    log: &G,
) -> Served
    requires { (D.shown desk.old).accounts ≡ length site.now.accounts }
    ensures { Serves site.now most
        (record { source = S.shown source.old; sink = K.shown sink.old; clock = C.moments clock.old; desk = D.shown desk.old })
        (record { source = S.shown source.new; sink = K.shown sink.new; clock = C.moments clock.new; desk = D.shown desk.new }) result }
{
    let mut kept = HeldBytes::new(alloc);
    let mut fronts = Vec::new(alloc);
    for requests in 0..most {
        let message = match next_message(alloc, source, &mut kept) {
            Next::Message(message) => message,
            Next::BadHead(status) => {
                let end = refuse(alloc, sink, status, log);
                return served(fronts, requests, end);
            }
            Next::End => return served(fronts, requests, ConnEnd::Closed),
            Next::Truncated => return served(fronts, requests, ConnEnd::Truncated),
            Next::ReadFault => return served(fronts, requests, ConnEnd::ReadFault),
            Next::NoMemory => return served(fronts, requests, ConnEnd::NoMemory),
        };
        let close = closes(&message, requests, most);
        let bytes = match answer(alloc, site, &message, close, desk, clock, &mut fronts, log) {
            Ok(bytes) => bytes,
            Err(error) => return served(fronts, requests, end_for(error)),
        };
        match put_all(sink, &bytes) {
            Ok(()) => {}
            Err(_) => return served(fronts, requests, ConnEnd::WriteFault),
        }
        if message.close {
            return served(fronts, requests + 1, ConnEnd::CloseAsked);
        }
    }
    served(fronts, most, ConnEnd::Quota)
}

// Whether the connection ends behind the response to this message, where so many went before.
fn closes(message: &Message, before: u64, most: u64) -> bool
    requires { before < most }
    ensures { result ≡ closes most before (message_shown message.now) }
{
    message.close || before + 1 == most
}

fn served(fronts: Vec<Front>, requests: u64, end: ConnEnd) -> Served
    ensures fronts { result.fronts.items ≡ fronts.items }
    ensures requests { result.requests ≡ requests }
    ensures end { result.end ≡ end }
{
    Served {
        fronts,
        requests,
        end,
    }
}

// Gives the response to a head that is refused.
fn refuse<K: Sink, G: RequestLog>(alloc: Global, sink: &mut K, status: u16, log: &G) -> ConnEnd
    requires { IsStatus status }
    ensures { IsRefusalEnd (K.shown sink.old) (K.shown sink.new) status result }
{
    let Ok(bytes) = refusal_bytes(alloc, status) else {
        return ConnEnd::NoMemory;
    };
    tell_refused(log, status, bytes.len());
    match put_all(sink, &bytes) {
        Ok(()) => ConnEnd::BadHead(status),
        Err(_) => ConnEnd::WriteFault,
    }
}

fn refusal_bytes(alloc: Global, status: u16) -> Result<Vec<u8>, AllocError>
    requires { IsStatus status }
    ensures { IfOk result (λ v. v.items ≡ refusal_text status) }
{
    let response = Response {
        status,
        problem: false,
        allow: None,
        close: true,
        body: Bytes::from_vec(Vec::new(alloc)),
    };
    response_bytes(alloc, &response)
}
