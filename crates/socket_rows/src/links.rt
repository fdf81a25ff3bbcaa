//! One socket in memory.
use account_desk::sole_desk::SoleDesk;
use io_edge::memory_clock::StillClock;
use row_table::answers::text_of;
use session_doc::Site;
use spec_json::text::Text;
use spec_json::tree::Tree;
use spec_sockets::message::WsMessage;
use spec_sockets::served::WsServed;
use std::alloc::{AllocError, Global};
use std::fmt::Write;
use ws_edge::memory_link::MemLink;
use ws_serve::serve::serve_socket;

/// A site with two accounts. Of its users the first has the first account, and the second has both.
pub const CONFIGURATION: &str =
    r#"{"baseUrl":"b","accounts":[{"id":"A1","name":"One"},{"id":"A2","name":"Two"}],"users":[{"name":"ann","token":"t","accounts":["A1"]},{"name":"bob","token":"u","accounts":["A2","A1"]}]}"#;

/// How a socket of the first user ended, and what was sent.
pub fn told(alloc: Global, asked: &Tree) -> Result<Option<String>, AllocError> {
    let Ok(site) = Site::read(alloc, CONFIGURATION.as_bytes()) else {
        return Ok(None);
    };
    let Some(mut link) = link_in(alloc, asked)? else {
        return Ok(None);
    };
    let mut desk = SoleDesk::open(alloc, &site)?;
    let mut clock = StillClock { moment: 0 };
    if site.users() == 0 || site.accounts() != 2 {
        return Ok(None);
    }
    let served = serve_socket(alloc, site.user(0), &mut link, &mut desk, &mut clock);
    let mut told = String::new(alloc);
    tell(alloc, &mut told, &link, &served)?;
    Ok(Some(told))
}

/// The link that a row describes: its `messages`, of which one that is no text is binary, an object being its compact text, and a number so many times in which none comes; and the
/// numbers of the calls that fail. Takes memory for it.
pub fn link_in(alloc: Global, asked: &Tree) -> Result<Option<MemLink>, AllocError> {
    let Some(items) = asked.list_at("messages") else {
        return Ok(None);
    };
    let mut messages = Vec::new(alloc);
    for item in items {
        match item {
            Tree::Whole(times) => {
                for _ in 0..times.get() {
                    messages.push(None)?;
                }
            }
            item => messages.push(Some(message_of(alloc, item)?))?,
        }
    }
    let next = numbers_at(alloc, asked, "failing_next")?;
    let send = numbers_at(alloc, asked, "failing_send")?;
    Ok(Some(MemLink::new(alloc, messages, next, send)))
}

fn message_of(alloc: Global, item: &Tree) -> Result<WsMessage, AllocError> {
    match item {
        Tree::Text(text) => Ok(WsMessage::Text(text.copy()?)),
        Tree::Object(_) | Tree::List(_) => {
            let text = Text::from_str(alloc, text_of(alloc, item)?.as_str())?;
            Ok(WsMessage::Text(text))
        }
        _ => Ok(WsMessage::Binary),
    }
}

/// The numbers at a key. Takes memory for them.
pub fn numbers_at(alloc: Global, asked: &Tree, key: &str) -> Result<Vec<u64>, AllocError> {
    let mut numbers = Vec::new(alloc);
    for item in asked.list_at(key).unwrap_or(&[]) {
        if let Tree::Whole(number) = item {
            numbers.push(u64::try_from(number.get()).unwrap_or(0))?;
        }
    }
    Ok(numbers)
}

/// Tells how a socket ended, how many replies were sent and how many calls answered, and what was sent. Takes memory for it.
pub fn tell(
    alloc: Global,
    told: &mut String,
    link: &MemLink,
    served: &WsServed,
) -> Result<(), AllocError> {
    let end = served.end;
    let replies = served.replies;
    let calls = served.fronts.len();
    write!(told, "{end:?}, {replies} replies, {calls} calls")?;
    for text in link.sent() {
        told.push(' ')?;
        told.push_str(String::from_utf8_lossy(alloc, text.as_slice())?.as_str())?;
    }
    Ok(())
}
