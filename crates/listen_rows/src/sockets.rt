//! Sockets in memory.
use crate::connections::failing_at;
use spec_json::tree::Tree;
use spec_sockets::message::WsMessage;
use std::alloc::{AllocError, Global};
use std::fmt::Write;
use std::sync::Wait;
use ws_edge::memory_accept::MemSocket;
use ws_edge::memory_link::MemLink;
use ws_edge::memory_socket_host::{MemSocketHost, ShelvedLink};

/// A host with the `sockets` of each worker, whose calls in `failing_sockets` fail, or `None` where they can't be read.
pub fn socket_host<R: Wait + Copy + Send + Drop + 'static>(
    rt: R,
    alloc: Global,
    asked: &Tree,
) -> Result<Option<MemSocketHost<R>>, AllocError> {
    let mut waiting = Vec::new(alloc);
    for worker in asked.list_at("sockets").unwrap_or(&[]) {
        let Tree::List(items) = worker else {
            return Ok(None);
        };
        let mut sockets = Vec::new(alloc);
        for item in items.items() {
            sockets.push(socket_of(alloc, item)?)?;
        }
        waiting.push(sockets)?;
    }
    let failing = failing_at(alloc, asked, "failing_sockets")?;
    Ok(Some(MemSocketHost::new(alloc, rt, waiting, failing)?))
}

// A socket of the `user` of a number whose client sends its `texts` and closes, or a handshake that comes to nothing.
fn socket_of(alloc: Global, item: &Tree) -> Result<Option<MemSocket>, AllocError> {
    let (Some(user), Some(texts)) = (item.number_at("user"), item.list_at("texts")) else {
        return Ok(None);
    };
    let mut messages = Vec::new(alloc);
    for text in texts {
        if let Tree::Text(text) = text {
            messages.push(Some(WsMessage::Text(text.copy()?)))?;
        }
    }
    let link = MemLink::new(alloc, messages, Vec::new(alloc), Vec::new(alloc));
    let user = u32::try_from(user.get()).unwrap_or(u32::MAX);
    Ok(Some(MemSocket { user, link }))
}

/// Tells how a socket ended and what was sent on it.
pub fn tell_socket(
    alloc: Global,
    told: &mut String,
    shelved: &ShelvedLink,
) -> Result<(), AllocError> {
    let worker = shelved.worker;
    let end = shelved.served.end;
    write!(told, " | socket of {worker}: {end:?}")?;
    for text in shelved.link.sent() {
        told.push(' ')?;
        told.push_str(String::from_utf8_lossy(alloc, text.as_slice())?.as_str())?;
    }
    Ok(())
}
