//! Instants of wall seconds.
ghost use Rattle.std.specs.Prelude.{◌≡◌, ◌-ℤ◌, ◌*ℤ◌, pos, IfSome, true};
ghost use Rattle.jiff_core.specs.DateTime.{civil_nanos};
ghost use Rattle.jiff_core.specs.Timestamp.{IsOffsetSeconds};
ghost use Rattle.jiff_tz.specs.PosixText.{tz_view};
ghost use Rattle.spec_events.specs.Values.{is_showing};
ghost use Rattle.spec_windows.specs.Clocks.{instant_in, instant_of};
ghost use Rattle.zone_instants.specs.Offsets.{reading_of};

use jiff_core::Offset;
use jiff_core::civil::DateTime;
use jiff_tz::AmbiguousOffset;
use jiff_tz::posix::TimeZone;
use spec_events::limits::{FIRST_START, LAST_START};
use spec_time::wall::Wall;

const NANOSECONDS: i128 = 1_000_000_000;

// The date and time of a wall second.
fn datetime_of(wall: i64) -> DateTime
    requires { is_showing wall ≡ true }
    ensures { civil_nanos result ≡ wall *ℤ pos 1000000000 }
{
    DateTime::from_nanosecond_in_range(wall as i128 * NANOSECONDS)
}

// The instant by an offset.
fn at_offset(wall: i64, offset: Offset) -> i64
    requires { is_showing wall ≡ true }
    ensures { result ≡ wall -ℤ offset.seconds }
{
    wall - offset.seconds as i64
}

// The instant by the offsets that a clock shows.
fn by_offsets(wall: i64, offsets: AmbiguousOffset) -> i64
    requires { is_showing wall ≡ true }
    ensures { result ≡ instant_of wall (reading_of offsets) }
{
    match offsets {
        AmbiguousOffset::Unambiguous { offset } => at_offset(wall, offset),
        AmbiguousOffset::Gap { before, .. } => at_offset(wall, before),
        AmbiguousOffset::Fold { before, after } => {
            at_offset(wall, before).min(at_offset(wall, after))
        }
    }
}

fn is_showing(wall: i64) -> bool
    ensures { result ≡ is_showing wall }
{
    FIRST_START <= wall && wall <= LAST_START
}

fn instant_of_seconds(rule: &TimeZone, wall: i64) -> Option<i64>
    ensures { result ≡ instant_in (tz_view rule.now) wall }
{
    if !is_showing(wall) {
        return None;
    }
    // A clock that is never changed shows one offset, whatever the date.
    if rule.dst.is_none() {
        return Some(at_offset(wall, rule.std_offset));
    }
    let offsets = rule.to_ambiguous_offset(datetime_of(wall));
    Some(by_offsets(wall, offsets))
}

/// The instant of a wall second in a zone of this rule, in seconds of UTC from 1970 (RFC 5545 section 3.3.5).
///
/// A wall second that comes twice has the earlier instant; one that the clock passes over has that of the offset before the
/// gap. `None` outside the years 1 to 9998. Takes no memory.
pub fn instant(rule: &TimeZone, wall: Wall) -> Option<i64>
    ensures value { result ≡ instant_in (tz_view rule.now) wall }
    ensures near { IfSome result (λ t. IsOffsetSeconds (t -ℤ wall)) }
{
    instant_of_seconds(rule, wall.seconds())
}
