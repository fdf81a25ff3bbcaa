//! Rows of JSON texts: how they are read.
mod bytes;
mod outcome;

use bytes::bytes_in;
use outcome::outcome;
use row_table::row::Row;
use row_table::trial::{not_read, unless_answered};
use std::alloc::{AllocError, Global};

/// What a text is read as, where it isn't what the table has.
pub fn other_than(alloc: Global, row: &Row) -> Result<Option<String>, AllocError> {
    let (Some(text), Some(answer)) = (
        bytes_in(alloc, row.asked.as_str())?,
        bytes_in(alloc, row.answer.as_str())?,
    ) else {
        return not_read(alloc);
    };
    let Ok(answer) = String::from_utf8(answer) else {
        return not_read(alloc);
    };
    let came = String::from_utf8_lossy(alloc, &outcome(alloc, &text)?)?;
    unless_answered(alloc, Some(came), answer.as_str())
}
