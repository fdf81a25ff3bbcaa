//! The occurrences of a series that overlap a window.
ghost use Rattle.std.specs.Prelude.{◌≡◌, All, IfOk, true};
ghost use Rattle.jiff_tz.specs.PosixText.{tz_view};
ghost use Rattle.spec_queries.specs.Expanded.{occurrences_overlapping};
ghost use Rattle.spec_time.specs.Walls.{is_in_years};
ghost use Rattle.spec_windows.specs.Clocks.{instant_in};
ghost use Rattle.occurrence_windows.specs.Bounds.{AreNear};

use jiff_tz::posix::TimeZone;
use occurrence_windows::expanded;
use spec_series::occurrence::Occurrence;
use spec_series::series::Series;
use spec_windows::window::Window;
use std::alloc::{AllocError, Global};

/// The occurrences of a series that overlap a window, by their recurrence ids.
pub(crate) fn occurrences_overlapping(
    alloc: Global,
    series: &Series,
    rule: &TimeZone,
    window: Window,
) -> Result<Vec<Occurrence>, AllocError>
    requires { AreNear window }
    ensures value { IfOk result (λ os. os.items ≡ occurrences_overlapping series.now (instant_in (tz_view rule.now)) window) }
    ensures years { IfOk result (λ os. All (λ o. is_in_years o.rid ≡ true) os.items) }
{
    let mut list = expanded(alloc, series, rule, window)?;
    list.sort_by_key(|o| o.rid.seconds())?;
    Ok(list)
}
