//! The numbers of a date and a time of day.
ghost use Rattle.std.specs.Prelude.{◌≡◌, ◌≤◌, ◌<◌, ◌+◌, ◌^◌, length, IfSome, unsigned_abs};
ghost use Rattle.spec_time.specs.Forms.{fits_form, fits_mark, fits_marks, pair_at};
ghost use Rattle.spec_time.specs.LocalTimes.{day_in, second_in, wall_of, year_in};
ghost use Rattle.spec_time.specs.Walls.{wall_at};

use civil_days::day_of;
use spec_time::wall::Wall;

/// The numbers of a date and a time of day, which may be none.
#[derive(Clone, Copy)]
pub(crate) struct Fields {
    pub year: u32,
    pub month: u32,
    pub day: u32,
    pub hour: u32,
    pub minute: u32,
    pub second: u32,
}

/// Whether a text has a form, in which `0` stands for any digit.
pub(crate) fn fits_form(text: &[u8], form: &[u8]) -> bool
    ensures { result ≡ fits_form form.now text.now }
{
    text.len() == form.len() && fits_marks(text, form)
}

#[tactic(auto, using(crate::proofs::FormLemmas::too_short))]
fn fits_marks(text: &[u8], form: &[u8]) -> bool
    ensures { result ≡ fits_marks form.now text.now }
{
    for (i, mark) in form.iter().enumerate() {
        if i >= text.len() {
            return false;
        }
        if !fits_mark(text[i], *mark) {
            return false;
        }
    }
    true
}

#[tactic(auto, unfolding(spec_time::specs::Forms::fits_mark))]
fn fits_mark(byte: u8, mark: u8) -> bool
    ensures { result ≡ fits_mark mark byte }
{
    if mark == b'0' {
        byte.is_ascii_digit()
    } else {
        byte == mark
    }
}

// The number that the two digits at a place write.
pub(crate) fn pair_at(text: &[u8], place: usize) -> u32
    requires { place + 1 < length text.now }
    ensures value { result ≡ pair_at place text.now }
    ensures bound { result ≤ 2277 }
{
    10 * u32::from(text[place].saturating_sub(b'0'))
        + u32::from(text[place + 1].saturating_sub(b'0'))
}

/// The numbers in `YYYY-MM-DDThh:mm:ss`.
pub(crate) fn spaced_fields(text: &[u8]) -> Fields
    requires { 19 ≤ length text.now }
    ensures year { result.year ≡ year_in text.now }
    ensures month { result.month ≡ pair_at 5 text.now }
    ensures day { result.day ≡ pair_at 8 text.now }
    ensures hour { result.hour ≡ pair_at 11 text.now }
    ensures minute { result.minute ≡ pair_at 14 text.now }
    ensures second { result.second ≡ pair_at 17 text.now }
    ensures bound { result.year ≤ 229977 }
{
    Fields {
        year: 100 * pair_at(text, 0) + pair_at(text, 2),
        month: pair_at(text, 5),
        day: pair_at(text, 8),
        hour: pair_at(text, 11),
        minute: pair_at(text, 14),
        second: pair_at(text, 17),
    }
}

/// The wall second of a date and a time of day, none where there is no such date or time.
pub(crate) fn wall(fields: Fields) -> Option<Wall>
    requires { fields.year ≤ 229977 }
    ensures { result ≡ wall_of (day_in fields.year fields.month fields.day) (second_in fields.hour fields.minute fields.second) }
{
    let Some(day) = day(fields.year, fields.month, fields.day) else {
        return None;
    };
    let Some(second) = second(fields.hour, fields.minute, fields.second) else {
        return None;
    };
    Some(wall_at(day, second))
}

fn wall_at(day: i64, second: u32) -> Wall
    requires day { unsigned_abs day < 2 ^ 42 }
    requires second { second < 86400 }
    ensures { result ≡ wall_at day second }
{
    Wall::new(86_400 * day + i64::from(second))
}

#[tactic(auto, using(crate::proofs::DateLemmas::day_in_is, crate::proofs::DateLemmas::no_month, crate::proofs::DateLemmas::no_day))]
fn day(year: u32, month: u32, day: u32) -> Option<i64>
    requires { year ≤ 229977 }
    ensures value { result ≡ day_in year month day }
    ensures bound { IfSome result (λ n. unsigned_abs n < 2 ^ 42) }
{
    if month > 12 {
        return None;
    }
    if day > 31 {
        return None;
    }
    day_of(i64::from(year), month as u8, day as u8)
}

fn second(hour: u32, minute: u32, second: u32) -> Option<u32>
    ensures value { result ≡ second_in hour minute second }
    ensures bound { IfSome result (λ n. n < 86400) }
{
    if hour < 24 && minute < 60 && second < 60 {
        Some(3600 * hour + 60 * minute + second)
    } else {
        None
    }
}
