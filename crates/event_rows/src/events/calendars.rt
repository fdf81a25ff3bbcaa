//! Rows of the calendars that events name, and of whether events recur.
use row_table::answers::list_of;
use single_event::calendars::{calendars_of, names_calendar};
use single_event::recurrence::has_recurrence;
use spec_json::tree::Tree;
use std::alloc::{AllocError, Global};

/// The numbers of calendars that the program asks of one by one.
const ASKED: u64 = 100;

/// Whether an object has rules of recurrence or overrides.
pub fn recurs(event: &Tree) -> Tree {
    Tree::Truth(has_recurrence(event))
}

/// The numbers of the calendars that an object names, none where it doesn't name just these when asked of one by one.
pub fn named(alloc: Global, event: &Tree) -> Result<Option<Tree>, AllocError> {
    let numbers = calendars_of(alloc, event)?;
    for number in 0..ASKED {
        if names_calendar(event, number) != numbers.contains(&number) {
            return Ok(None);
        }
    }
    Ok(Some(list_of(alloc, &numbers)?))
}
