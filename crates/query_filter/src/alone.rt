//! Series whose occurrence can't overlap a window, whatever the rule of the zone.
ghost use Rattle.std.specs.Prelude.{◌≡◌, ◌≤◌, option_map, true};
ghost use Rattle.spec_series.specs.SeriesLimits.{wall_seconds};
ghost use Rattle.spec_time.specs.Walls.{is_in_years};
ghost use Rattle.query_filter.specs.Skips.{is_alone, may_overlap, widest};

use occurrence_windows::FARTHEST;
use spec_series::series::Series;
use spec_time::length::Length;
use spec_time::wall::Wall;
use spec_windows::period::Period;
use spec_windows::window::Window;

/// Whether an event with this series may overlap the window, as far as that can be told without the rule of its zone. Takes no memory.
pub(crate) fn may_overlap(series: Option<&Series>, window: Window) -> bool
    ensures { result ≡ may_overlap (option_map (λ s. s.now) series.entry) window }
{
    match series {
        Some(series) => {
            !is_alone(series) || window.overlaps(widest(series.start, series.length))
        }
        None => false,
    }
}

fn is_alone(series: &Series) -> bool
    ensures { result ≡ is_alone series.now }
{
    series.rules.items().is_empty() && series.exceptions.items().is_empty()
}

// What an occurrence takes up by any rule is a part of this.
fn widest(start: Wall, length: Length) -> Period
    requires start { is_in_years start ≡ true }
    requires length { wall_seconds length ≤ 31622400 }
    ensures { result ≡ widest start (wall_seconds length) }
{
    let start = start.seconds();
    let length = 86_400 * length.days + length.seconds;
    Period {
        from: start - FARTHEST,
        to: start + length as i64 + FARTHEST,
    }
}
