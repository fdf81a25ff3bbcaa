//! Rows of responses: what a response says, and its bytes.
ghost use Rattle.std.specs.Prelude.{IfSome};
ghost use Rattle.spec_http.specs.Responses.{IsStatus};

use crate::messages::findings::Findings;
use crate::messages::given::{is_true_at, text_at};
use http_edge::bytes::Bytes;
use http_edge::response::{Response, response_bytes};
use spec_json::text::Text;
use spec_json::tree::{Tree, TreeObject};
use std::alloc::{AllocError, Global};

/// The statuses of responses.
fn status_of(number: i128) -> Option<u16>
    ensures { IfSome result IsStatus }
{
    match number {
        200 => Some(200),
        400 => Some(400),
        401 => Some(401),
        404 => Some(404),
        405 => Some(405),
        411 => Some(411),
        413 => Some(413),
        431 => Some(431),
        501 => Some(501),
        _ => None,
    }
}

fn status_in(object: &TreeObject) -> Option<u16>
    ensures { IfSome result IsStatus }
{
    match object.get("status") {
        Some(Tree::Whole(number)) => status_of(number.get()),
        _ => None,
    }
}

/// Tries the response that an object tells of by its `status` and, where it has them, its `problem`, its `allow`, its `close` and its
/// `body`.
pub fn try_response(
    alloc: Global,
    object: &TreeObject,
    wanted: &str,
    findings: &mut Findings,
) -> Result<(), AllocError> {
    let Some(status) = status_in(object) else {
        findings.find(String::from_str(alloc, "no status")?);
        return Ok(());
    };
    let body = text_at(alloc, object, "body")?.unwrap_or(String::new(alloc));
    let allow = match text_at(alloc, object, "allow")? {
        Some(methods) => Some(Text::from_string(methods)?),
        None => None,
    };
    let response = Response {
        status,
        problem: is_true_at(object, "problem"),
        allow,
        close: is_true_at(object, "close"),
        body: Bytes::from_vec(body.into_bytes()),
    };
    let bytes = response_bytes(alloc, &response)?;
    if bytes.as_slice() != wanted.as_bytes() {
        findings.find(String::from_utf8_lossy(alloc, &bytes)?);
    }
    Ok(())
}
