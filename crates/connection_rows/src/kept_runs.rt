//! Rows of runs of `kept`, one after the other, over a keeper in memory.
mod case;
mod trials;

use case::KeptCase;
use row_table::files::{Files, files_in};
use row_table::line::tree_in;
use row_table::row::Row;
use row_table::trial::not_read;
use std::alloc::{AllocError, Global};
use trials::other_than_wanted;

/// What came of a row, where it isn't what the table has. A row of `files` has those of the rows behind it.
pub fn other_than(
    alloc: Global,
    row: &Row,
    files: &mut Files,
) -> Result<Option<String>, AllocError> {
    if row.asked.as_str() != "files" {
        return other_than_runs(alloc, row, files);
    }
    match files_in(alloc, row.answer.as_str())? {
        Some(named) => {
            *files = named;
            Ok(None)
        }
        None => not_read(alloc),
    }
}

fn other_than_runs(alloc: Global, row: &Row, files: &Files) -> Result<Option<String>, AllocError> {
    let (Some(asked), Some(answer)) = (
        tree_in(alloc, row.asked.as_str())?,
        tree_in(alloc, row.answer.as_str())?,
    ) else {
        return not_read(alloc);
    };
    match KeptCase::read(alloc, &asked, &answer)? {
        Some(case) => other_than_wanted(alloc, case, files),
        None => not_read(alloc),
    }
}
