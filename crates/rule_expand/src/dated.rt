//! Days with their dates, one after another.
ghost use Rattle.std.specs.Prelude.{◌≡◌, ◌+◌, ◌-◌, ◌<◌, ◌≤◌, ◌%◌, ℤ, pos, ◌+ℤ◌};
ghost use Rattle.spec_time.specs.CivilDay.{day_of_month, month_length, month_of, weekday_of, year_of};
ghost use Rattle.spec_series.specs.Periods.{month_last};
ghost use Rattle.rule_expand.specs.Near.{IsNear};

use crate::months::days_in_month;
use civil_days::{civil, weekday};

/// A day with its date.
#[derive(Clone, Copy)]
pub(crate) struct Dated {
    pub day: i64,
    pub year: i64,
    pub month: u8,
    pub month_day: u8,
    /// The days of its month.
    pub length: u8,
    pub weekday: u8,
    ghost year_is: { year ≡ year_of day },
    ghost month_is: { month ≡ month_of day },
    ghost month_day_is: { month_day ≡ day_of_month day },
    ghost length_is: { length ≡ month_length (year_of day) (month_of day) },
    ghost weekday_is: { weekday ≡ weekday_of day },
}

/// The day of a number, with its date.
pub(crate) fn with_date(day: i64) -> Dated
    requires { IsNear 2199023262000 day }
    ensures { result.day ≡ day }
{
    let date = civil(day);
    Dated {
        day,
        year: date.year,
        month: date.month,
        month_day: date.day,
        length: days_in_month(date.year, date.month),
        weekday: weekday(day),
    }
}

/// The day after.
pub(crate) fn next(at: Dated) -> Dated
    requires { IsNear 2199023262000 at.day }
    ensures { result.day ≡ at.day +ℤ pos 1 }
{
    if at.month_day < at.length {
        day_after(at)
    } else {
        next_month(at)
    }
}

// The day after, in the same month.
fn day_after(at: Dated) -> Dated
    requires near { IsNear 2199023262000 at.day }
    requires month { at.month_day < at.length }
    ensures { result.day ≡ at.day +ℤ pos 1 }
{
    Dated {
        day: later(at.day, 1),
        year: at.year,
        month: at.month,
        month_day: at.month_day + 1,
        length: at.length,
        weekday: weekday_after(at, 1),
    }
}

// The day of the week some days later.
#[tactic(auto, using(crate::proofs::NextDates::weekday_later))]
fn weekday_after(at: Dated, days: u8) -> u8
    requires { days ≤ 31 }
    ensures { result ≡ weekday_of (at.day +ℤ pos days) }
{
    (at.weekday + days) % 7
}

/// The first day of the month after.
pub(crate) fn next_month(at: Dated) -> Dated
    requires { IsNear 2199023262000 at.day }
    ensures { result.day ≡ month_last at.day +ℤ pos 1 }
{
    let days = days_left(at);
    if at.month < 12 {
        month_after(at, days)
    } else {
        january_after(at, days)
    }
}

// The first day of the month after, in the same year, so many days later.
fn month_after(at: Dated, days: u8) -> Dated
    requires near { IsNear 2199023262000 at.day }
    requires days { month_last at.day +ℤ pos 1 ≡ at.day +ℤ pos days }
    requires few { days ≤ 31 }
    requires month { at.month < 12 }
    ensures { result.day ≡ month_last at.day +ℤ pos 1 }
{
    Dated {
        day: later(at.day, days),
        year: at.year,
        month: at.month + 1,
        month_day: 1,
        length: days_in_month(at.year, at.month + 1),
        weekday: weekday_after(at, days),
    }
}

// The first day of the year after, so many days later.
fn january_after(at: Dated, days: u8) -> Dated
    requires near { IsNear 2199023262000 at.day }
    requires days { month_last at.day +ℤ pos 1 ≡ at.day +ℤ pos days }
    requires few { days ≤ 31 }
    requires month { at.month ≡ 12 }
    ensures { result.day ≡ month_last at.day +ℤ pos 1 }
{
    Dated {
        day: later(at.day, days),
        year: year_after(at),
        month: 1,
        month_day: 1,
        length: 31,
        weekday: weekday_after(at, days),
    }
}

fn year_after(at: Dated) -> i64
    requires { IsNear 2199023262000 at.day }
    ensures { result ≡ year_of at.day +ℤ pos 1 }
{
    at.year + 1
}

// How many days later the next month begins.
fn days_left(at: Dated) -> u8
    ensures value { month_last at.day +ℤ pos 1 ≡ at.day +ℤ pos result }
    ensures bound { (1 ≤ result) × (result ≤ 31) }
{
    at.length - at.month_day + 1
}

/// The days of the month after the day.
pub(crate) fn days_to_end(at: Dated) -> u8
    ensures value { month_last at.day ≡ at.day +ℤ pos result }
    ensures bound { result ≤ 31 }
{
    at.length - at.month_day
}

/// The last day of the month.
pub(crate) fn month_end(at: Dated) -> i64
    requires { IsNear 2199023262000 at.day }
    ensures { result ≡ month_last at.day }
{
    later(at.day, days_to_end(at))
}

fn later(day: i64, days: u8) -> i64
    requires near { IsNear 2199023262000 day }
    requires days { days ≤ 31 }
    ensures { result ≡ day +ℤ pos days }
{
    day + i64::from(days)
}
