//! Local times and moments as texts.
ghost use Rattle.std.specs.Prelude.{◌≡◌, ◌++◌, ◌∷◌, ◌+◌, ◌<◌, ◌≤◌, [], true, IfOk, OnOk, pos, string_bytes, unsigned_abs, ◌^◌, ◌≤ℤ◌};
ghost use Rattle.spec_time.specs.CivilDay.{day_of_month, month_of, year_of};
ghost use Rattle.time_text.specs.Written.{IsTwoDigits};
ghost use Rattle.spec_time.specs.Forms.{two};
ghost use Rattle.spec_time.specs.LocalTimes.{clock_text, date_text, local_text, utc_text};
ghost use Rattle.spec_time.specs.Walls.{day_of_wall, is_in_years, second_of_wall};

use civil_days::civil;
use spec_json::text::Text;
use spec_time::wall::Wall;
use std::alloc::{AllocError, Global};

// A date in the years 0 to 9999.
#[derive(Clone, Copy)]
pub(crate) struct Date {
    pub year: u32,
    pub month: u8,
    pub day: u8,
}

/// The LocalDateTime of a wall second in the years 0 to 9999.
pub fn local_text(alloc: Global, wall: Wall) -> Result<Text, AllocError>
    requires { is_in_years wall ≡ true }
    ensures { IfOk result (λ t. t ≡ local_text wall) }
{
    let mut text = String::new(alloc);
    push_local(&mut text, wall.seconds())?;
    Text::from_string(text)
}

/// The UTCDate of a moment in the years 0 to 9999.
pub fn utc_text(alloc: Global, moment: i64) -> Result<Text, AllocError>
    requires { is_in_years moment ≡ true }
    ensures { IfOk result (λ t. t ≡ utc_text moment) }
{
    let mut text = String::new(alloc);
    push_local(&mut text, moment)?;
    text.push('Z')?;
    Text::from_string(text)
}

fn push_local(text: &mut String, wall: i64) -> Result<(), AllocError>
    requires { is_in_years wall ≡ true }
    ensures { OnOk result (string_bytes text.new ≡ string_bytes text.old ++ local_text wall) }
{
    push_date(text, date_of(day_of_wall(wall)))?;
    text.push('T')?;
    push_clock(text, second_of_wall(wall))
}

pub(crate) fn day_of_wall(wall: i64) -> i64
    requires { is_in_years wall ≡ true }
    ensures value { result ≡ day_of_wall wall }
    ensures least { pos 0 ≤ℤ year_of result }
    ensures most { year_of result ≤ℤ pos 9999 }
    ensures bound { unsigned_abs result < 2 ^ 42 }
{
    wall.div_euclid(86400)
}

pub(crate) fn second_of_wall(wall: i64) -> u32
    ensures value { result ≡ second_of_wall wall }
    ensures bound { result < 86400 }
{
    wall.rem_euclid(86400) as u32
}

// The date of a day in the years 0 to 9999.
#[tactic(auto, using(crate::proofs::DateLemmas::month_in_year, crate::proofs::DateLemmas::day_in_month))]
pub(crate) fn date_of(day: i64) -> Date
    requires day { unsigned_abs day < 2 ^ 42 }
    requires least { pos 0 ≤ℤ year_of day }
    requires most { year_of day ≤ℤ pos 9999 }
    ensures year { result.year ≡ unsigned_abs (year_of day) }
    ensures month { result.month ≡ month_of day }
    ensures day { result.day ≡ day_of_month day }
    ensures year_bound { result.year ≤ 9999 }
    ensures month_bound { result.month ≤ 12 }
    ensures day_bound { result.day ≤ 31 }
{
    let date = civil(day);
    Date {
        year: date.year as u32,
        month: date.month,
        day: date.day,
    }
}

fn push_date(text: &mut String, date: Date) -> Result<(), AllocError>
    requires { IsTwoDigits date }
    ensures { OnOk result (string_bytes text.new ≡ string_bytes text.old ++ date_text date.year date.month date.day) }
{
    push_two(text, (date.year / 100) as u8)?;
    push_two(text, (date.year % 100) as u8)?;
    text.push('-')?;
    push_two(text, date.month)?;
    text.push('-')?;
    push_two(text, date.day)
}

fn push_clock(text: &mut String, second: u32) -> Result<(), AllocError>
    requires { second < 86400 }
    ensures { OnOk result (string_bytes text.new ≡ string_bytes text.old ++ clock_text second) }
{
    push_two(text, (second / 3600) as u8)?;
    text.push(':')?;
    push_two(text, (second / 60 % 60) as u8)?;
    text.push(':')?;
    push_two(text, (second % 60) as u8)
}

pub(crate) fn push_two(text: &mut String, number: u8) -> Result<(), AllocError>
    requires { number < 100 }
    ensures { OnOk result (string_bytes text.new ≡ string_bytes text.old ++ two number) }
{
    push_digit(text, number / 10)?;
    push_digit(text, number % 10)
}

fn push_digit(text: &mut String, digit: u8) -> Result<(), AllocError>
    requires { digit < 10 }
    ensures { OnOk result (string_bytes text.new ≡ string_bytes text.old ++ (48 + digit) ∷ []) }
{
    text.push(char::from(b'0' + digit))
}
