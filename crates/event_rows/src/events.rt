//! Rows of events: what they mean, what is bad in them, and what they name.
mod calendars;
mod finds;
mod meanings;
mod recurring;

use spec_json::tree::Tree;
use std::alloc::{AllocError, Global};
use zone_table::Zones;

/// The words that say what is asked of a value.
pub const QUESTIONS: [&str; 6] = ["whole", "recurs", "calendars", "find", "bad", "occurrence"];

/// What comes of a value, or without a question of members that are laid over the plain event. None where it can't be read.
pub fn came(
    alloc: Global,
    zones: &Zones,
    question: &str,
    value: Tree,
) -> Result<Option<Tree>, AllocError> {
    match question {
        "whole" => Ok(Some(meanings::read(alloc, zones, &value)?)),
        "recurs" => Ok(Some(calendars::recurs(&value))),
        "calendars" => calendars::named(alloc, &value),
        "find" => Ok(Some(finds::found(alloc, &value)?)),
        "bad" => recurring::bad(alloc, zones, value),
        "occurrence" => recurring::named(alloc, &value),
        "" => meanings::read_over(alloc, zones, value),
        _ => Ok(None),
    }
}
