//! The bytes of responses.
ghost use Rattle.std.specs.Prelude.{◌≡◌, IfOk, string_bytes, length, unwrap_or, []};
ghost use Rattle.http.specs.StatusCode.{reason_phrase};
ghost use Rattle.spec_http.specs.Responses as http;
ghost use Rattle.spec_http.specs.Responses.{IsStatus, response_text};
ghost use Rattle.http_edge.specs.Reading.{response_shown};

use crate::bytes::Bytes;
use http::StatusCode;
use spec_json::text::Text;
use std::alloc::{AllocError, Global};

/// A response.
#[derive(Drop)]
pub struct Response {
    /// 200, 400, 401, 404, 405, 411, 413, 431 or 501.
    pub status: u16,
    /// Whether the body is a problem object (RFC 7807).
    pub problem: bool,
    /// The method that is allowed (RFC 9110 section 10.2.1).
    pub allow: Option<Text>,
    /// Whether the connection ends behind it (RFC 9112 section 9.6).
    pub close: bool,
    /// Of no meaning but at 200 and for a problem.
    pub body: Bytes,
}

/// The bytes of a response. Takes memory for them.
pub fn response_bytes(alloc: Global, response: &Response) -> Result<Vec<u8>, AllocError>
    requires { IsStatus response.now.status }
    ensures { IfOk result (λ bytes. bytes.items ≡ response_text (response_shown response.now)) }
{
    let mut bytes = head_text(alloc, response)?.into_bytes();
    bytes.extend_from_slice(content(response))?;
    Ok(bytes)
}

// The head, with the empty line that ends it.
fn head_text(alloc: Global, response: &Response) -> Result<String, AllocError>
    requires { IsStatus response.now.status }
    ensures { IfOk result (λ text. string_bytes text ≡ http.head_text (response_shown response.now)) }
{
    let status = response.status;
    let phrase = phrase_of(status);
    let type_line = type_line(response);
    let length = content(response).len();
    let challenge = challenge_line(response);
    let allow = allow_line(alloc, &response.allow)?;
    let close = close_line(response);
    let text = format!(in alloc;
        "HTTP/1.1 {status} {phrase}\r\n{type_line}Content-Length: {length}\r\n{challenge}{allow}{close}\r\n"
    )?;
    Ok(text)
}

// The body, where there is one.
fn content(response: &Response) -> &[u8]
    ensures { result.now ≡ http.content (response_shown response.now) }
{
    if response.status == 200 || response.problem {
        response.body.as_slice()
    } else {
        b""
    }
}

// The phrase of a status (RFC 9110 section 15).
fn phrase_of(status: u16) -> &'static str
    requires { IsStatus status }
    ensures { result.now ≡ unwrap_or (reason_phrase status) [] }
{
    match StatusCode::from_u16(status) {
        Ok(code) => code.canonical_reason().unwrap_or(""),
        Err(_) => unreachable!(),
    }
}

fn type_line(response: &Response) -> &'static str
    ensures { result.now ≡ http.type_line (response_shown response.now) }
{
    if response.problem {
        "Content-Type: application/problem+json\r\n"
    } else if response.status == 200 {
        "Content-Type: application/json\r\n"
    } else {
        ""
    }
}

fn challenge_line(response: &Response) -> &'static str
    ensures { result.now ≡ http.challenge_line (response_shown response.now) }
{
    if response.status == 401 {
        "WWW-Authenticate: Bearer\r\n"
    } else {
        ""
    }
}

fn allow_line(alloc: Global, allow: &Option<Text>) -> Result<String, AllocError>
    ensures { IfOk result (λ line. string_bytes line ≡ http.allow_line allow.now) }
{
    match allow {
        None => Ok(String::new(alloc)),
        Some(method) => {
            let method = method.as_str();
            let line = format!(in alloc; "Allow: {method}\r\n")?;
            Ok(line)
        }
    }
}

fn close_line(response: &Response) -> &'static str
    ensures { result.now ≡ http.close_line (response_shown response.now) }
{
    if response.close {
        "Connection: close\r\n"
    } else {
        ""
    }
}
