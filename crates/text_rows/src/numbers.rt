//! Rows of dates and congruences.
mod congruences;
mod dates;

use congruences::least_text;
use dates::{date_text, day_text};
use row_table::line::tree_in;
use std::alloc::{AllocError, Global};

/// What comes of a question, where it can be read: the date of a `day`, the day of a `date`, or the least solution of `congruences`.
pub fn came(alloc: Global, asked: &str) -> Result<Option<String>, AllocError> {
    let Some(asked) = tree_in(alloc, asked)? else {
        return Ok(None);
    };
    if let Some(day) = asked.number_at("day") {
        date_text(alloc, day.get())
    } else if let Some(date) = asked.list_at("date") {
        day_text(alloc, date)
    } else if let Some(congruences) = asked.list_at("congruences") {
        least_text(alloc, congruences, &asked)
    } else {
        Ok(None)
    }
}
