//! The walk from one occurrence that overlaps a window to the next.
ghost use Rattle.std.specs.Prelude.{◌≡◌, ◌↔◌, ◌≤◌, IfSome, IfOk, IsTrue};
ghost use Rattle.jiff_core.specs.Calendar.{IsWithin};
ghost use Rattle.jiff_tz.specs.PosixText.{tz_view};
ghost use Rattle.spec_series.specs.SeriesLimits.{wall_seconds};
ghost use Rattle.spec_windows.specs.Clocks.{instant_in};
ghost use Rattle.spec_windows.specs.Overlaps.{has_overlapping};
ghost use Rattle.spec_windows.specs.Windows.{HasOverlapping, IsOverlapping, overlaps_window};
ghost use Rattle.occurrence_windows.specs.Bounds.{first_wall, last_wall, AreNear};
ghost use Rattle.occurrence_windows.specs.Listing.{IsAfter, IsListOf};
ghost use Rattle.spec_series.specs.Given.{IsFirstOf};

use crate::lengths::longest;
use crate::span::span_of;
use jiff_tz::posix::TimeZone;
use rule_expand::next_until;
use spec_events::limits::{FIRST_START, LAST_START};
use spec_series::occurrence::Occurrence;
use spec_series::series::Series;
use spec_time::wall::Wall;
use spec_windows::window::Window;
use std::alloc::{AllocError, Global};

/// The most seconds between a wall second and its instant, by any rule that `jiff` reads.
pub const FARTHEST: i64 = 93_599;

// Whether an occurrence overlaps the window.
#[tactic(auto, unfolding(spec_windows::specs::Windows::overlaps_window))]
fn overlaps_window(rule: &TimeZone, o: &Occurrence, window: Window) -> bool
    requires start { IsWithin 400000000000 o.now.start }
    requires length { wall_seconds o.now.length ≤ 31622400 }
    ensures { result ≡ overlaps_window (instant_in (tz_view rule.now)) window o.now }
{
    match span_of(rule, o) {
        None => false,
        Some(period) => window.overlaps(period),
    }
}

// No occurrence that overlaps the window starts before this wall second.
fn first_wall(window: Window, longest: u64) -> Wall
    requires near { AreNear window }
    requires longest { longest ≤ 31622400 }
    ensures value { result ≡ first_wall window.after longest }
    ensures near { IsWithin 400000000000 result }
{
    match window.after {
        None => Wall::new(FIRST_START),
        Some(after) => Wall::new(after - FARTHEST - longest as i64),
    }
}

// Nor after this one.
fn last_wall(window: Window) -> Wall
    requires near { AreNear window }
    ensures value { result ≡ last_wall window.before }
    ensures near { IsWithin 400000000000 result }
{
    match window.before {
        None => Wall::new(LAST_START),
        Some(before) => Wall::new(before + FARTHEST),
    }
}

/// The first occurrence, by start and then recurrence id, that overlaps the window and starts after `from`, or at it with a
/// recurrence id after `past`, if that is given. `None` where there is none on all days. Takes no memory.
pub fn next_overlapping(
    series: &Series,
    rule: &TimeZone,
    window: Window,
    from: Wall,
    past: Option<Wall>,
) -> Option<Occurrence>
    requires near { AreNear window }
    requires from { IsWithin 400000000000 from }
    requires past { IfSome past (IsWithin 400000000000) }
    ensures { IsFirstOf (IsAfter (IsOverlapping series.now (instant_in (tz_view rule.now)) window) from past) result }
{
    let last = last_wall(window);
    let mut here = from;
    let mut seen = past;
    loop {
        let Some(o) = next_until(series, here, seen, Some(last)) else {
            return None;
        };
        if overlaps_window(rule, &o, window) {
            return Some(o);
        }
        here = o.start;
        seen = Some(o.rid);
    }
}

/// Whether some one occurrence ends after the one limit and starts before the other. Takes no memory.
pub fn matches_window(series: &Series, rule: &TimeZone, window: Window) -> bool
    requires { AreNear window }
    ensures one { IsTrue result ↔ HasOverlapping series.now (instant_in (tz_view rule.now)) window }
    ensures value { result ≡ has_overlapping series.now (instant_in (tz_view rule.now)) window }
{
    next_overlapping(
        series,
        rule,
        window,
        first_wall(window, longest(series)),
        None,
    )
    .is_some()
}

fn copied(o: &Occurrence) -> Occurrence
    ensures { result ≡ o.now }
{
    *o
}

/// All occurrences that overlap the window, by start and then recurrence id.
pub fn expanded(
    alloc: Global,
    series: &Series,
    rule: &TimeZone,
    window: Window,
) -> Result<Vec<Occurrence>, AllocError>
    requires { AreNear window }
    ensures { IfOk result (λ os. IsListOf (IsOverlapping series.now (instant_in (tz_view rule.now)) window) os.items) }
{
    let mut list = Vec::new(alloc);
    let mut here = first_wall(window, longest(series));
    let mut seen = None;
    loop {
        let Some(o) = next_overlapping(series, rule, window, here, seen) else {
            return Ok(list);
        };
        list.push(copied(&o))?;
        here = o.start;
        seen = Some(o.rid);
    }
}
