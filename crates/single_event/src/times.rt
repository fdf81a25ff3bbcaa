//! When an event may start, and how long it may last.
ghost use Rattle.std.specs.Prelude.{◌≡◌};
ghost use Rattle.spec_events.specs.Values.{is_short_duration, is_short_length, is_showing, is_start};
ghost use Rattle.spec_time.specs.Durations.{IsShortLength};

use spec_events::limits::{FIRST_START, LAST_START, MAX_WALL_SECONDS};
use spec_time::length::Length;
use spec_time::wall::Wall;
use time_text::{read_duration, read_local};

/// The seconds of a day.
const DAY: u64 = 86_400;

/// Whether a text is a LocalDateTime at which an event may start. Takes no memory.
pub fn is_start(text: &[u8]) -> bool
    ensures { result ≡ is_start text.now }
{
    match read_local(text) {
        Some(wall) => is_showing(wall),
        None => false,
    }
}

fn is_showing(wall: Wall) -> bool
    ensures { result ≡ is_showing wall }
{
    FIRST_START <= wall.seconds() && wall.seconds() <= LAST_START
}

/// Whether a text is a Duration that an event may last.
pub(crate) fn is_short_duration(text: &[u8]) -> bool
    ensures { result ≡ is_short_duration text.now }
{
    match read_duration(text) {
        Some(length) => is_short_length(length),
        None => false,
    }
}

fn is_short_length(length: Length) -> bool
    requires { IsShortLength length }
    ensures { result ≡ is_short_length length }
{
    DAY * length.days + length.seconds <= MAX_WALL_SECONDS
}
