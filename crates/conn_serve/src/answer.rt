//! The response to one message.
ghost use Rattle.std.specs.Prelude.{◌≡◌, ◌<◌, IfOk, length};
ghost use Rattle.spec_http.specs.Responses.{response_text};
ghost use Rattle.spec_connection.specs.Routes.{api, route};
ghost use Rattle.conn_serve.specs.Answering.{AnswersMessage, outcome_response};
ghost use Rattle.http_edge.specs.Reading.{message_shown};

use crate::route::{Route, route_of, success, with_problem};
use crate::tell::tell_answered;
use http_edge::message::Message;
use http_edge::response::response_bytes;
use io_edge::clock::Clock;
use request_log::request::RequestLog;
use request_reply::reply::{RequestOutcome, reply_to};
use session_doc::Site;
use spec_batch::desk::{Desk, DeskError, Front};
use spec_time::moment::Moment;
use std::alloc::{AllocError, Global};

/// The bytes of the response to a message, behind which the connection ends or doesn't.
///
/// The clock is read where the message is a JMAP request of a user, and a front is added for each call that the desk answered.
/// Takes memory for the response. A log is told of the message and its answer.
pub(crate) fn answer<D: Desk, C: Clock, G: RequestLog>(
    alloc: Global,
    site: &Site,
    message: &Message,
    close: bool,
    desk: &mut D,
    clock: &mut C,
    fronts: &mut Vec<Front>,
    log: &G,
) -> Result<Vec<u8>, DeskError>
    requires { (D.shown desk.old).accounts ≡ length site.now.accounts }
    ensures { AnswersMessage site.now close (message_shown message.now) (C.moments clock.old) (C.moments clock.new) fronts.old.items fronts.new.items (D.shown desk.old) (D.shown desk.new) result }
{
    let begun = log.begin();
    match route_of(alloc, site, message, close) {
        Ok(Route::Direct(response)) => match response_bytes(alloc, &response) {
            Ok(bytes) => {
                let status = response.status;
                tell_answered(log, begun, site, message, status, None, bytes.len());
                Ok(bytes)
            }
            Err(_) => Err(DeskError::NoMemory),
        },
        Ok(Route::Api(user)) => answer_api(
            alloc, site, user, message, close, desk, clock, fronts, log, begun,
        ),
        Err(_) => Err(DeskError::NoMemory),
    }
}

// The bytes of the response to a JMAP request of this user.
fn answer_api<D: Desk, C: Clock, G: RequestLog>(
    alloc: Global,
    site: &Site,
    user: u32,
    message: &Message,
    close: bool,
    desk: &mut D,
    clock: &mut C,
    fronts: &mut Vec<Front>,
    log: &G,
    begun: Option<u64>,
) -> Result<Vec<u8>, DeskError>
    requires accounts { (D.shown desk.old).accounts ≡ length site.now.accounts }
    requires there { user < length site.now.users }
    requires routed { route site.now close (message_shown message.now) ≡ api user }
    ensures { AnswersMessage site.now close (message_shown message.now) (C.moments clock.old) (C.moments clock.new) fronts.old.items fronts.new.items (D.shown desk.old) (D.shown desk.new) result }
{
    let moment = Moment::clamped(clock.now());
    let body = message.body.as_slice();
    let reply = match reply_to(alloc, body, site.user(user), desk, moment, fronts) {
        Ok(reply) => reply,
        Err(error) => return Err(error),
    };
    match reply_bytes(alloc, &reply, close) {
        Ok(bytes) => {
            let status = if reply.is_refusal { 400 } else { 200 };
            let tree = Some(&reply.tree);
            tell_answered(log, begun, site, message, status, tree, bytes.len());
            Ok(bytes)
        }
        Err(_) => Err(DeskError::NoMemory),
    }
}

// The bytes of the response that shows a reply.
fn reply_bytes(alloc: Global, reply: &RequestOutcome, close: bool) -> Result<Vec<u8>, AllocError>
    ensures { IfOk result (λ v. v.items ≡ response_text (outcome_response close reply.now)) }
{
    if reply.is_refusal {
        response_bytes(alloc, &with_problem(alloc, &reply.tree, close)?)
    } else {
        response_bytes(alloc, &success(alloc, &reply.tree, close)?)
    }
}
