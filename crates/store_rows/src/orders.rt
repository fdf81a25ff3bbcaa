//! Rows of queries: results, windows and changes.
mod changes;
mod items;
mod results;
mod windows;

use row_table::answers::text_of;
use row_table::line::tree_in;
use spec_json::tree::Tree;
use std::alloc::{AllocError, Global};

/// What comes of a question, none where it can't be read.
pub fn came(alloc: Global, asked: &str) -> Result<Option<String>, AllocError> {
    let Some(asked) = tree_in(alloc, asked)? else {
        return Ok(None);
    };
    match answer(alloc, &asked)? {
        Some(answer) => Ok(Some(text_of(alloc, &answer)?)),
        None => Ok(None),
    }
}

/// The place of a window, the numbers that a splice leaves, the changes between two results, or a result.
fn answer(alloc: Global, asked: &Tree) -> Result<Option<Tree>, AllocError> {
    if asked.get("length").is_some() {
        return windows::window_of(alloc, asked);
    }
    if asked.get("old").is_some() {
        return changes::splice_of(alloc, asked);
    }
    if asked.get("before").is_some() {
        return changes::changes_between(alloc, asked);
    }
    results::result_of(alloc, asked)
}
