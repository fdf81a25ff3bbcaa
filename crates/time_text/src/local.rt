//! Local times and moments.
ghost use Rattle.std.specs.Prelude.{◌≡◌, ◌&&◌, int_le, true, IfSome};
ghost use Rattle.spec_time.specs.LocalTimes.{local_in, utc_in};
ghost use Rattle.spec_time.specs.Walls.{is_in_years};

use crate::fields::{fits_form, spaced_fields, wall};
use spec_time::wall::Wall;

/// The wall second of 0000-01-01T00:00:00.
const FIRST_SECOND: i64 = -62_167_219_200;

/// The wall second of 9999-12-31T23:59:59.
const LAST_SECOND: i64 = 253_402_300_799;

/// Reads a LocalDateTime (RFC 8984 section 1.4.5). None where the text is anything else. Takes no memory.
pub fn read_local(text: &[u8]) -> Option<Wall>
    ensures value { result ≡ local_in text.now }
    ensures years { IfSome result (λ w. is_in_years w ≡ true) }
{
    if fits_form(text, b"0000-00-00T00:00:00") {
        wall(spaced_fields(text))
    } else {
        None
    }
}

/// Reads a UTCDate (RFC 8984 section 1.4.4). None where the text is anything else. Takes no memory.
pub fn read_utc(text: &[u8]) -> Option<i64>
    ensures value { result ≡ utc_in text.now }
    ensures years { IfSome result (λ w. is_in_years w ≡ true) }
{
    if fits_form(text, b"0000-00-00T00:00:00Z") {
        seconds_of(wall(spaced_fields(text)))
    } else {
        None
    }
}

/// Whether a wall second lies in the years 0 to 9999, those that a LocalDateTime can tell. Takes no memory.
pub fn is_in_years(wall: Wall) -> bool
    ensures { result ≡ is_in_years wall }
{
    is_between(FIRST_SECOND, wall.seconds(), LAST_SECOND)
}

fn is_between(first: i64, seconds: i64, last: i64) -> bool
    ensures { result ≡ (int_le first seconds && int_le seconds last) }
{
    seconds >= first && seconds <= last
}

// The seconds of a wall second, where there is one.
fn seconds_of(wall: Option<Wall>) -> Option<i64>
    ensures { result ≡ wall }
{
    match wall {
        Some(wall) => Some(wall.seconds()),
        None => None,
    }
}
