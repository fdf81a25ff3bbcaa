//! Rows of dates.
use civil_days::{civil, day_of, weekday};
use spec_json::tree::Tree;
use std::alloc::{AllocError, Global};

/// The end of the sizes of days that have a date here.
const DAYS: u64 = 1 << 42;

/// The end of the sizes of years whose dates have a day here.
const YEARS: u64 = 1 << 33;

/// Year, month and day of a day number, and its day of the week from 0 for Monday.
pub fn date_text(alloc: Global, day: i128) -> Result<Option<String>, AllocError> {
    let Ok(day) = i64::try_from(day) else {
        return Ok(None);
    };
    if day.unsigned_abs() >= DAYS {
        return Ok(None);
    }
    let date = civil(day);
    let of_week = weekday(day);
    Ok(Some(format!(in alloc; "{} {} {}, {of_week}", date.year, date.month, date.day)?))
}

/// The day number of a year, a month and a day, or `none` where there is no such date.
pub fn day_text(alloc: Global, date: &[Tree]) -> Result<Option<String>, AllocError> {
    let Some((year, month, day)) = date_in(date) else {
        return Ok(None);
    };
    if year.unsigned_abs() >= YEARS {
        return Ok(None);
    }
    match day_of(year, month, day) {
        Some(number) => Ok(Some(format!(in alloc; "{number}")?)),
        None => Ok(Some(String::from_str(alloc, "none")?)),
    }
}

fn date_in(date: &[Tree]) -> Option<(i64, u8, u8)> {
    let [year, month, day] = date else {
        return None;
    };
    let year = i64::try_from(year.as_whole()?.get()).ok()?;
    let month = u8::try_from(month.as_whole()?.get()).ok()?;
    let day = u8::try_from(day.as_whole()?.get()).ok()?;
    Some((year, month, day))
}
