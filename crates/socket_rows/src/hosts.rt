//! The command `websocket` over sockets in memory.
use crate::links::{CONFIGURATION, link_in, numbers_at, tell};
use command_line::websocket::Websocket;
use io_edge::memory_clock::StillClock;
use io_edge::memory_opener::MemOpener;
use row_table::line::words_in;
use spec_json::tree::Tree;
use std::alloc::{AllocError, Global};
use ws_edge::memory_accept::{MemAccept, MemSocket};
use ws_run::run::listen_ws;

/// How a run of the words ended, and what was sent on each of the `sockets`: a user's, or a handshake that comes to nothing. The calls of `accept` in `failing` fail.
pub fn told(alloc: Global, words: &str, asked: &Tree) -> Result<Option<String>, AllocError> {
    let words = words_in(alloc, words)?;
    let Some(command) = Websocket::read(alloc, &words)? else {
        return Ok(Some(String::from_str(alloc, "no words of websocket")?));
    };
    let mut sockets = Vec::new(alloc);
    for socket in asked.list_at("sockets").unwrap_or(&[]) {
        sockets.push(socket_in(alloc, socket)?)?;
    }
    let mut accepter = MemAccept::new(alloc, sockets, numbers_at(alloc, asked, "failing")?)?;
    let mut files = Vec::new(alloc);
    let name = String::from_str(alloc, "site.json")?;
    files.push((name, CONFIGURATION.as_bytes().to_vec(alloc)?))?;
    let mut opener = MemOpener::new(alloc, files, Vec::new(alloc));
    let mut clock = StillClock { moment: 0 };
    let status = listen_ws(alloc, &command, &mut opener, &mut accepter, &mut clock);
    let mut told = format!(in alloc; "{status:?}")?;
    for returned in accepter.back() {
        told.push_str("; ")?;
        tell(alloc, &mut told, &returned.link, &returned.served)?;
    }
    Ok(Some(told))
}

fn socket_in(alloc: Global, socket: &Tree) -> Result<Option<MemSocket>, AllocError> {
    let (Some(user), Some(link)) = (socket.number_at("user"), link_in(alloc, socket)?) else {
        return Ok(None);
    };
    let user = u32::try_from(user.get()).unwrap_or(u32::MAX);
    Ok(Some(MemSocket { user, link }))
}
