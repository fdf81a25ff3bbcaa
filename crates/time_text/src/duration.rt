//! Durations.
ghost use Rattle.std.specs.Prelude.{◌≡◌, ◌≤◌, ◌<◌, IfSome, true, length, take};
ghost use Rattle.std.specs.Char.{is_ascii_digit};
ghost use Rattle.std.specs.List.{list_all};
ghost use Rattle.spec_json.specs.Number.{value_of_digits};
ghost use Rattle.spec_time.specs.Durations.{IsShortLength, duration_in};
ghost use Rattle.time_text.specs.DurationParts.{amount, behind_part, clock_in, digits_first, has_part, parts_in, seconds_in};

use spec_time::length::Length;

// A number with its letter, or none, and what stands behind.
#[derive(Clone, Copy)]
struct Part<'a> {
    is_there: bool,
    amount: u64,
    behind: &'a [u8],
}

/// Reads a Duration (RFC 8984 section 1.4.6). None where the text is anything else. Takes no memory.
#[tactic(auto, using(crate::proofs::DurationLemmas::duration_is))]
pub fn read_duration(text: &[u8]) -> Option<Length>
    ensures value { result ≡ duration_in text.now }
    ensures bound { IfSome result IsShortLength }
{
    match text.split_first() {
        Some((letter, parts)) => {
            if *letter == b'P' {
                read_parts(parts)
            } else {
                None
            }
        }
        None => None,
    }
}

fn read_parts(text: &[u8]) -> Option<Length>
    ensures value { result ≡ parts_in text.now }
    ensures bound { IfSome result IsShortLength }
{
    let weeks = first_part(text, b'W');
    let days = first_part(weeks.behind, b'D');
    let Some(seconds) = read_seconds(days.behind, weeks.is_there || days.is_there) else {
        return None;
    };
    Some(Length {
        days: 7 * weeks.amount + days.amount,
        seconds,
    })
}

fn read_seconds(text: &[u8], is_after_days: bool) -> Option<u64>
    ensures value { result ≡ seconds_in is_after_days text.now }
    ensures bound { IfSome result (λ n. n < 10000000000000) }
{
    match text.split_first() {
        Some((letter, clock)) => {
            if *letter == b'T' {
                read_clock(clock)
            } else {
                None
            }
        }
        None => { if is_after_days { Some(0) } else { None } }
    }
}

fn read_clock(text: &[u8]) -> Option<u64>
    ensures value { result ≡ clock_in text.now }
    ensures bound { IfSome result (λ n. n < 10000000000000) }
{
    let hours = first_part(text, b'H');
    let minutes = first_part(hours.behind, b'M');
    let seconds = first_part(minutes.behind, b'S');
    if (hours.is_there || minutes.is_there || seconds.is_there) && seconds.behind.is_empty() {
        Some(3600 * hours.amount + 60 * minutes.amount + seconds.amount)
    } else {
        None
    }
}

// The part of this letter that stands first, if there is one.
#[tactic(auto, unfolding(crate::specs::DurationParts::amount, crate::specs::DurationParts::behind_part))]
fn first_part(text: &[u8], letter: u8) -> Part<'_>
    requires { 0 < letter }
    ensures is_there { result.is_there ≡ has_part letter text.now }
    ensures amount { result.amount ≡ amount letter text.now }
    ensures behind { result.behind.now ≡ behind_part letter text.now }
    ensures bound { result.amount < 1000000000 }
{
    let digits = digits_first(text);
    if has_part(text, digits, letter) {
        Part {
            is_there: true,
            amount: value_of(&text[..digits]),
            behind: &text[digits + 1..],
        }
    } else {
        Part {
            is_there: false,
            amount: 0,
            behind: text,
        }
    }
}

#[tactic(auto, unfolding(crate::specs::DurationParts::has_part))]
fn has_part(text: &[u8], digits: usize, letter: u8) -> bool
    requires digits { digits ≡ digits_first text.now }
    requires letter { 0 < letter }
    ensures value { result ≡ has_part letter text.now }
    ensures few { result ≡ true → digits ≤ 9 }
    ensures short { result ≡ true → digits < length text.now }
{
    digits >= 1 && digits <= 9 && digits < text.len() && text[digits] == letter
}

// How many digits stand first.
fn digits_first(text: &[u8]) -> usize
    ensures value { result ≡ digits_first text.now }
    ensures bound { result ≤ length text.now }
    ensures digits { list_all is_ascii_digit (take result text.now) ≡ true }
{
    let mut i = 0;
    while i < text.len() && text[i].is_ascii_digit() {
        i += 1;
    }
    i
}

// The number that some digits write.
fn value_of(digits: &[u8]) -> u64
    requires few { length digits.now ≤ 9 }
    requires digits { list_all is_ascii_digit digits.now ≡ true }
    ensures value { result ≡ value_of_digits digits.now }
    ensures bound { result < 1000000000 }
{
    let mut value = 0;
    for digit in digits {
        value = 10 * value + u64::from(*digit - b'0');
    }
    value
}
