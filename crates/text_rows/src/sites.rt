//! Rows of time zones and of configurations.
mod configurations;
mod lookups;
mod time_zones;

use configurations::{built_in, configured};
use row_table::line::{tree_in, unrolled};
use row_table::row::Row;
use row_table::trial::{not_read, unless_unrolled};
use std::alloc::{AllocError, Global};
use time_zones::other_than_zones;

/// What came of a row, where it isn't what the table has.
///
/// A line that begins with `zones` has a list of time zones, `built in` is the site without a configuration, and any other line
/// is a configuration.
pub fn other_than(alloc: Global, row: &Row) -> Result<Option<String>, AllocError> {
    match row.asked.strip_prefix("zones ") {
        Some(list) => other_than_listed(alloc, list, row.answer.as_str()),
        None => unless_unrolled(alloc, came(alloc, row.asked.as_str())?, row),
    }
}

fn came(alloc: Global, asked: &str) -> Result<Option<String>, AllocError> {
    if asked == "built in" {
        return Ok(Some(built_in(alloc)?));
    }
    match unrolled(alloc, asked)? {
        Some(text) => Ok(Some(configured(alloc, text.as_str().as_bytes())?)),
        None => Ok(None),
    }
}

fn other_than_listed(
    alloc: Global,
    list: &str,
    answer: &str,
) -> Result<Option<String>, AllocError> {
    match (tree_in(alloc, list)?, tree_in(alloc, answer)?) {
        (Some(list), Some(answer)) => other_than_zones(alloc, &list, &answer),
        _ => not_read(alloc),
    }
}
