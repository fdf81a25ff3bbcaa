//! What is told of a message that was answered.

use crate::route::user_of;
use http_edge::message::Message;
use request_log::request::{AnsweredRequest, RequestLog};
use session_doc::Site;
use spec_json::tree::Tree;

/// Tells a log of a message that was answered with this status and so many bytes, and of the reply to a JMAP request, where it is told of requests: it gave a moment when the message had come.
pub(crate) fn tell_answered<G: RequestLog>(
    log: &G,
    begun: Option<u64>,
    site: &Site,
    message: &Message,
    status: u16,
    reply: Option<&Tree>,
    given: usize,
) {
    let Some(begun) = begun else {
        return;
    };
    let user = match user_of(site, &message.token) {
        Some(user) => Some(site.user(user).name.as_str()),
        None => None,
    };
    log.tell(&AnsweredRequest {
        user,
        status,
        reply,
        taken: message.body.as_slice().len(),
        given,
        begun,
    });
}

/// Tells a log of a head that was refused with this status and so many bytes.
pub(crate) fn tell_refused<G: RequestLog>(log: &G, status: u16, given: usize) {
    let Some(begun) = log.begin() else {
        return;
    };
    log.tell(&AnsweredRequest {
        user: None,
        status,
        reply: None,
        taken: 0,
        given,
        begun,
    });
}
