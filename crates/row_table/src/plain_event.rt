//! A plain event, and events that differ from it.
use json_edge::read::{ReadError, read_tree};
use spec_json::tree::Tree;
use std::alloc::{AllocError, Global};

/// The event over which the members of a row are laid.
const PLAIN_EVENT: &str =
    r#"{"@type":"Event","uid":"u","calendarIds":{"C1":true},"start":"2024-01-01T09:00:00"}"#;

/// The plain event with these members laid over it, none where they are no object. Takes memory for it.
pub fn over_plain(alloc: Global, members: Tree) -> Result<Option<Tree>, AllocError> {
    let plain = match read_tree(alloc, PLAIN_EVENT.as_bytes()) {
        Ok(plain) => plain,
        Err(ReadError::NotJson | ReadError::NotWhole) => return Ok(None),
        Err(ReadError::NoMemory) => return Err(AllocError),
    };
    match (plain, members) {
        (Tree::Object(plain), Tree::Object(members)) => {
            Ok(Some(Tree::Object(plain.with_all(alloc, members)?)))
        }
        _ => Ok(None),
    }
}
