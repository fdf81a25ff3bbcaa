//! The instants from the start to the end of an occurrence.
ghost use Rattle.std.specs.Prelude.{◌≡◌, ◌≤◌, ◌*◌, pos, ◌+ℤ◌};
ghost use Rattle.jiff_core.specs.Calendar.{IsWithin};
ghost use Rattle.jiff_tz.specs.PosixText.{tz_view};
ghost use Rattle.spec_series.specs.SeriesLimits.{wall_seconds};
ghost use Rattle.spec_windows.specs.Clocks.{instant_in};
ghost use Rattle.spec_windows.specs.Windows.{span_at};

use jiff_tz::posix::TimeZone;
use spec_series::occurrence::Occurrence;
use spec_time::wall::Wall;
use spec_windows::period::Period;
use zone_instants::instant;

// The wall second so many days later.
fn days_later(wall: Wall, days: u64) -> Wall
    requires wall { IsWithin 400000000000 wall }
    requires days { 86400 * days ≤ 31622400 }
    ensures { result ≡ wall +ℤ pos (86400 * days) }
{
    Wall::new(wall.seconds() + (86_400 * days) as i64)
}

// The instant so many seconds later.
fn seconds_later(instant: i64, seconds: u64) -> i64
    requires instant { IsWithin 500000000000 instant }
    requires seconds { seconds ≤ 31622400 }
    ensures { result ≡ instant +ℤ pos seconds }
{
    instant + seconds as i64
}

/// The instants from the start of an occurrence up to its end, or `None` where one of the two wall seconds has no instant. Takes no
/// memory.
#[tactic(auto, unfolding(spec_windows::specs::Windows::span_at))]
pub fn span_of(rule: &TimeZone, o: &Occurrence) -> Option<Period>
    requires start { IsWithin 400000000000 o.now.start }
    requires length { wall_seconds o.now.length ≤ 31622400 }
    ensures { result ≡ span_at (instant_in (tz_view rule.now)) o.now }
{
    let Some(from) = instant(rule, o.start) else {
        return None;
    };
    let Some(last) = instant(rule, days_later(o.start, o.length.days)) else {
        return None;
    };
    Some(Period {
        from,
        to: seconds_later(last, o.length.seconds),
    })
}
