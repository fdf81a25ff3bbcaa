//! The handshake of a server (RFC 6455 section 4.2, RFC 8887 section 4.2).
ghost use Rattle.std.specs.Prelude.{◌≡◌, ◌<◌, IfErr, IfOk, IfSome, length};

use crate::link::LinkError;
use http::{HeaderName, HeaderValue, Request, Response, StatusCode};
use http_edge::token::bearer_token;
use session_doc::Site;
use std::alloc::Global;
use std::cell::Cell;
use std::io::{Read, Write};
use tungstenite::handshake::server::{Callback, ErrorResponse, start};
use tungstenite::{Error, HandshakeError};

/// The subprotocol of JMAP over WebSocket (RFC 8887 section 4.2).
const JMAP: &str = "jmap";

// Looks at the head of a request: it shows a user's token, and offers the subprotocol.
#[derive(Drop)]
struct Reception<'a> {
    alloc: Global,
    site: &'a Site,
    admitted: &'a Cell<Option<u32>>,
}

impl<'a> Reception<'a> {
    // The number of the user whose token the request shows.
    fn user_of(&self, request: &Request<()>) -> Option<u32> {
        let value = request.headers().get("authorization")?;
        match bearer_token(self.alloc, value.as_bytes()) {
            Ok(token) => self.site.user_of(&token?),
            Err(_) => None,
        }
    }

    // The response without a body that refuses a request.
    fn refused(&self, status: StatusCode) -> ErrorResponse {
        let mut refused = Response::new(self.alloc, None);
        *refused.status_mut() = status;
        let fields = refused.headers_mut();
        let _ = fields.insert(
            HeaderName::from_static("content-length"),
            HeaderValue::from_static("0"),
        );
        if status == StatusCode::UNAUTHORIZED {
            let _ = fields.insert(
                HeaderName::from_static("www-authenticate"),
                HeaderValue::from_static("Bearer"),
            );
        }
        refused
    }
}

// Whether one of the subprotocols that the request offers is `jmap`.
fn offers_jmap(request: &Request<()>) -> bool {
    request
        .headers()
        .get_all("sec-websocket-protocol")
        .iter()
        .any(|value| match value.to_str() {
            Ok(offered) => offered.split(',').any(|name| name.trim() == JMAP),
            Err(_) => false,
        })
}

impl<'a> Callback for Reception<'a> {
    fn on_request(
        self,
        request: &Request<()>,
        mut response: Response<()>,
    ) -> Result<Response<()>, ErrorResponse> {
        let Some(user) = self.user_of(request) else {
            return Err(self.refused(StatusCode::UNAUTHORIZED));
        };
        let added = response.headers_mut().insert(
            HeaderName::from_static("sec-websocket-protocol"),
            HeaderValue::from_static(JMAP),
        );
        if added.is_err() || !offers_jmap(request) {
            return Err(self.refused(StatusCode::BAD_REQUEST));
        }
        self.admitted.set(Some(user));
        Ok(response)
    }
}

/// Does a server's handshake on a stream: the number of the user whose token the client shows, and the stream behind it.
///
/// `None` is a handshake that wasn't completed, that shows no user's token (status 401), or that doesn't offer the subprotocol `jmap` (400). Takes memory for the head and its response.
pub fn shake_hands<S: Read + Write + Drop>(
    alloc: Global,
    stream: S,
    site: &Site,
) -> Result<Option<(u32, S)>, LinkError>
    ensures user { IfOk result (λ found. IfSome found (λ pair. pair.0 < length site.now.users)) }
    ensures memory { IfErr result (λ error. error ≡ LinkError.NoMemory) }
{
    let admitted = Cell::new(None);
    let reception = Reception {
        alloc,
        site,
        admitted: &admitted,
    };
    match start(alloc, stream, reception, None).handshake() {
        Ok(socket) => match admitted.get() {
            Some(user) if user < site.users() => Ok(Some((user, socket.into_inner()))),
            _ => Ok(None),
        },
        Err(HandshakeError::Failure(Error::OutOfMemory)) => Err(LinkError::NoMemory),
        Err(_refused) => Ok(None),
    }
}
