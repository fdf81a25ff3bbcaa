//! Day numbers to dates and back, and the day of the week.
ghost use Rattle.std.specs.Prelude.{◌≡◌, ◌+◌, ◌/◌, ◌<◌, ◌≤◌, ◌^◌, ◌-ℤ◌, unsigned_abs, IfSome};
ghost use Rattle.std.specs.Int.{int_rem_euclid};
ghost use Rattle.std.specs.Option.{SomeIff};
ghost use Rattle.spec_time.specs.CivilDay.{IsDate, IsDateOf, day_number, year_of, month_of, day_of_month, weekday_of};

use crate::Civil;
use jiff_core::civil::Date;

/// The years after which the calendar repeats itself.
const CYCLE_YEARS: i64 = 400;

/// The days of so many years.
const CYCLE_DAYS: i64 = 146_097;

/// The first year that `jiff` has.
const FIRST_YEAR: i64 = -9999;

/// The day number of 1 January of that year.
const FIRST_DAY: i64 = -4_371_587;

/// Gives the date of a day number, which counts days from 1970-01-01. Takes no memory.
pub fn civil(day: i64) -> Civil
    requires { unsigned_abs day < 2 ^ 42 }
    ensures year { result.year ≡ year_of day }
    ensures month { result.month ≡ month_of day }
    ensures day { result.day ≡ day_of_month day }
    ensures date { IsDateOf day result.year result.month result.day }

    // So a caller knows that `day_of` takes the year of a day of size below 2^41.
    ensures bound { unsigned_abs result.year ≤ unsigned_abs day / 365 + 1970 }
{
    let since_first = day - FIRST_DAY;
    let date = Date::from_days_since_min(since_first.rem_euclid(CYCLE_DAYS) as u32);
    Civil {
        year: i64::from(date.year) + CYCLE_YEARS * since_first.div_euclid(CYCLE_DAYS),
        month: date.month,
        day: date.day,
    }
}

/// Gives the day number of a date, or `None` where the calendar has no such date. Takes no memory.
pub fn day_of(year: i64, month: u8, day: u8) -> Option<i64>
    requires { unsigned_abs year < 2 ^ 33 }
    ensures exact { SomeIff result (IsDate year month day) (day_number year month day) }

    // So a caller knows that `civil` and `weekday` take the day.
    ensures bound { IfSome result (λ n. unsigned_abs n < 2 ^ 42) }
{
    // `jiff` takes signed bytes, which hold no more than 127.
    if month > 12 || day > 31 {
        return None;
    }
    let cycle = (year - FIRST_YEAR).div_euclid(CYCLE_YEARS);
    match Date::new(year_in_cycle(year), month as i8, day as i8) {
        Ok(date) => Some(i64::from(date.to_unix_epoch_day()) + CYCLE_DAYS * cycle),
        Err(_) => None,
    }
}

/// Gives the day of the week of a day number, from 0 for Monday to 6 for Sunday. Takes no memory.
pub fn weekday(day: i64) -> u8
    requires { unsigned_abs day < 2 ^ 42 }
    ensures value { result ≡ weekday_of day }
    ensures bound { result < 7 }
{
    (day + 3).rem_euclid(7) as u8
}

// The year with the same place in the first cycle that `jiff` has.
fn year_in_cycle(year: i64) -> i16
    requires { unsigned_abs year < 2 ^ 33 }
    ensures { result -ℤ FIRST_YEAR ≡ int_rem_euclid (year -ℤ FIRST_YEAR) CYCLE_YEARS }
{
    ((year - FIRST_YEAR).rem_euclid(CYCLE_YEARS) + FIRST_YEAR) as i16
}
