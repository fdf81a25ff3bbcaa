//! Messages.
ghost use Rattle.std.specs.Prelude.{◌≡◌, ◌+◌, ◌≤◌, length, take, drop, IfOk, OnErr};

use crate::bytes::Bytes;
use crate::head::Head;
use crate::held::HeldBytes;
use spec_json::text::Text;
use std::alloc::{AllocError, Global};

/// A request (RFC 9112 section 2.1).
#[derive(Drop)]
pub struct Message {
    /// A token, in the case as sent (RFC 9110 section 9.1).
    pub method: Text,
    /// The target up to the first `?`.
    pub path: Bytes,
    /// The bearer token that it shows (RFC 6750 section 2.1).
    pub token: Option<Text>,
    /// Whether the connection ends behind its response (RFC 9112 section 9.6).
    pub close: bool,
    /// The content, which is empty where the head gives no length (RFC 9112 section 6.3).
    pub body: Bytes,
}

/// Takes a message off the beginning, whose head has so many bytes and says this. Takes memory for the body.
pub(crate) fn take_message(
    alloc: Global,
    kept: &mut HeldBytes,
    size: usize,
    head: Head,
) -> Result<Message, AllocError>
    requires { size + head.body ≤ length kept.old }
    ensures body { IfOk result (λ m. m.body ≡ take head.body (drop size kept.old)) }
    ensures said { IfOk result (λ m. (m.method ≡ head.method) × (m.path ≡ head.path) × (m.token ≡ head.token) × (m.close ≡ head.close)) }
    ensures rest { IfOk result (λ _. kept.new ≡ drop head.body (drop size kept.old)) }
    ensures err { OnErr result (kept.new ≡ kept.old) }
{
    let body = Bytes::from_slice(alloc, &kept.as_slice()[size..][..head.body])?;
    kept.skip(size);
    kept.skip(head.body);
    Ok(Message {
        method: head.method,
        path: head.path,
        token: head.token,
        close: head.close,
        body,
    })
}
