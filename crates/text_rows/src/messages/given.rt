//! What calls of `next_message` give, as a table writes it.
use http_edge::message::Message;
use spec_json::tree::{Tree, TreeList, TreeObject};
use std::alloc::{AllocError, Global};

/// What one call of `next_message` gives.
#[derive(Debug, PartialEq, Eq, Drop)]
pub enum Given {
    /// A whole message.
    Message(Parts),
    /// The input ended between messages.
    End,
    /// The input ended inside a message.
    Truncated,
    /// A head that is refused with this status.
    BadHead(u16),
}

/// The parts of a message. Bytes that are no UTF-8 are shown by U+FFFD, which no table has.
#[derive(Debug, PartialEq, Eq, Drop)]
pub struct Parts {
    method: String,
    path: String,
    token: Option<String>,
    close: bool,
    body: String,
}

impl Parts {
    /// The parts of a message that was read.
    pub fn of(alloc: Global, message: &Message) -> Result<Parts, AllocError> {
        let token = match &message.token {
            Some(token) => Some(String::from_str(alloc, token.as_str())?),
            None => None,
        };
        Ok(Parts {
            method: String::from_str(alloc, message.method.as_str())?,
            path: String::from_utf8_lossy(alloc, message.path.as_slice())?,
            token,
            close: message.close,
            body: String::from_utf8_lossy(alloc, message.body.as_slice())?,
        })
    }

    /// The parts that an object of a table names, none where it names others.
    fn named(alloc: Global, object: &TreeObject) -> Result<Option<Parts>, AllocError> {
        for member in object.members() {
            if !["method", "path", "token", "close", "body"].contains(&member.key.as_str()) {
                return Ok(None);
            }
        }
        let Some(method) = text_at(alloc, object, "method")? else {
            return Ok(None);
        };
        let Some(path) = text_at(alloc, object, "path")? else {
            return Ok(None);
        };
        Ok(Some(Parts {
            method,
            path,
            token: text_at(alloc, object, "token")?,
            close: is_true_at(object, "close"),
            body: text_at(alloc, object, "body")?.unwrap_or(String::new(alloc)),
        }))
    }
}

/// The text at a key.
pub fn text_at(
    alloc: Global,
    object: &TreeObject,
    key: &str,
) -> Result<Option<String>, AllocError> {
    match object.get(key) {
        Some(Tree::Text(text)) => Ok(Some(String::from_str(alloc, text.as_str())?)),
        _ => Ok(None),
    }
}

/// Whether `true` stands at a key.
pub fn is_true_at(object: &TreeObject, key: &str) -> bool {
    matches!(object.get(key), Some(Tree::Truth(true)))
}

/// The answers that a list of a table names, none where an item names none.
///
/// An object names a message by its `method`, its `path` and, where it has them, its `token`, its `close` and its `body`; a number names
/// the status with which a head is refused; and `End` and `Truncated` are those.
pub fn named_in(alloc: Global, list: &TreeList) -> Result<Option<Vec<Given>>, AllocError> {
    let mut all = Vec::new(alloc);
    for item in list.items() {
        let Some(given) = named(alloc, item)? else {
            return Ok(None);
        };
        all.push(given)?;
    }
    Ok(Some(all))
}

fn named(alloc: Global, item: &Tree) -> Result<Option<Given>, AllocError> {
    match item {
        Tree::Object(object) => match Parts::named(alloc, object)? {
            Some(parts) => Ok(Some(Given::Message(parts))),
            None => Ok(None),
        },
        Tree::Whole(status) => Ok(bad_head(status.get())),
        Tree::Text(end) => Ok(end_named(end.as_str())),
        _ => Ok(None),
    }
}

fn bad_head(status: i128) -> Option<Given> {
    match u16::try_from(status) {
        Ok(status) => Some(Given::BadHead(status)),
        Err(_) => None,
    }
}

fn end_named(name: &str) -> Option<Given> {
    match name {
        "End" => Some(Given::End),
        "Truncated" => Some(Given::Truncated),
        _ => None,
    }
}
