//! Rows of logs of objects.
mod plain;
mod steps;
mod texts;
pub mod times;
mod trials;
mod words;

use row_table::line::unrolled;
use row_table::row::Row;
use row_table::trial::{not_read, unless_answered};
use std::alloc::{AllocError, Global};
use words::evenly_spaced;

/// What came of a row, word by word, where it isn't what the table has.
pub fn other_than(alloc: Global, row: &Row) -> Result<Option<String>, AllocError> {
    let (Some(asked), Some(answer)) = (
        unrolled(alloc, row.asked.as_str())?,
        unrolled(alloc, row.answer.as_str())?,
    ) else {
        return not_read(alloc);
    };
    let came = match came(alloc, asked.as_str())? {
        Some(came) => Some(evenly_spaced(alloc, came.as_str())?),
        None => None,
    };
    unless_answered(alloc, came, evenly_spaced(alloc, answer.as_str())?.as_str())
}

/// What comes of a question, where it can be read.
///
/// `log` is followed by steps and a question, `random` by a seed, a number of steps and a number of ids.
fn came(alloc: Global, asked: &str) -> Result<Option<String>, AllocError> {
    if let Some(steps) = asked.strip_prefix("log ") {
        steps::shown(alloc, steps)
    } else if let Some(numbers) = asked.strip_prefix("random ") {
        trials::differences(alloc, numbers)
    } else {
        Ok(None)
    }
}
