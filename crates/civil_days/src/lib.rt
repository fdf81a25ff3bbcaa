//! Civil dates on all days: the date of a day number, the day number of a date, and the day of the week.
//!
//! A day number counts days from 1970-01-01. The calendar is the Gregorian one of ISO 8601 on every whole
//! year. `jiff` has the years -9999 to 9999: it is asked about the first 400 of them, after which the
//! calendar repeats itself, and whole cycles are added. Nothing here takes memory.
#![tactic(auto)]

mod date;
mod days;
mod laws;

pub use date::Civil;
pub use days::{civil, day_of, weekday};
pub use laws::{one_date_a_day, same_date_later};
