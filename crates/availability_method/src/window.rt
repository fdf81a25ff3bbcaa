//! The window that a call asks for.
ghost use Rattle.std.specs.Prelude.{◌≡◌, ◌<ℤ◌, IfSome, true};
ghost use Rattle.spec_availability.specs.Availability.{showing_instant, window_in};
ghost use Rattle.spec_events.specs.Values.{is_showing};

use spec_availability::window::window_between;
use spec_events::limits::{FIRST_START, LAST_START};
use spec_json::text::Text;
use spec_windows::period::Period;
use time_text::read_utc;

/// The window between two UTCDates, or `None` where a call may not ask for it. Takes no memory.
pub(crate) fn read_window(start: &Text, end: &Text) -> Option<Period>
    ensures value { result ≡ window_in start.now end.now }
    ensures from { IfSome result (λ w. is_showing w.from ≡ true) }
    ensures to { IfSome result (λ w. is_showing w.to ≡ true) }
    ensures order { IfSome result (λ w. w.from <ℤ w.to) }
{
    let from = read_instant(start)?;
    let to = read_instant(end)?;
    window_between(from, to)
}

// The instant of a UTCDate in the years 1 to 9998.
fn read_instant(text: &Text) -> Option<i64>
    ensures value { result ≡ showing_instant text.now }
    ensures showing { IfSome result (λ u. is_showing u ≡ true) }
{
    let instant = read_utc(text.as_str().as_bytes())?;
    if is_showing(instant) {
        Some(instant)
    } else {
        None
    }
}

fn is_showing(instant: i64) -> bool
    ensures { result ≡ is_showing instant }
{
    FIRST_START <= instant && instant <= LAST_START
}
