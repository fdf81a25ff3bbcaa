//! How long occurrences of a series last.
ghost use Rattle.std.specs.Prelude.{◌≡◌, ◌≤◌, ◌<◌, ℕ, true, Some, slice_get};
ghost use Rattle.spec_series.specs.Occurrences.{IsOccurrence};
ghost use Rattle.spec_series.specs.SeriesLimits.{are_short, is_span_short, wall_seconds};
ghost use Rattle.spec_series.specs.declared.exception.Exception.{Exception};
ghost use Rattle.spec_series.specs.declared.occurrence.Occurrence.{Occurrence};
ghost use Rattle.occurrence_windows.specs.Bounds.{lasts_up_to};

use spec_series::exception::{Exception, Span};
use spec_series::series::Series;
use spec_time::length::Length;

// All of a length in wall seconds.
fn wall_seconds(length: Length) -> u64
    requires { wall_seconds length ≤ 31622400 }
    ensures { result ≡ wall_seconds length }
{
    86_400 * length.days + length.seconds
}

// The longer of so many wall seconds and what stands in an occurrence's place.
fn longer(best: u64, replaced: Option<Span>) -> u64
    requires best { best ≤ 31622400 }
    requires short { is_span_short replaced ≡ true }
    ensures own { best ≤ result }
    ensures other { lasts_up_to result replaced ≡ true }
    ensures size { result ≤ 31622400 }
{
    match replaced {
        None => best,
        Some(span) => best.max(wall_seconds(span.length)),
    }
}

// The longest of so many wall seconds and what the exceptions give.
fn longest_of(exceptions: &[Exception], own: u64) -> u64
    requires own { own ≤ 31622400 }
    requires short { are_short exceptions.now ≡ true }
    ensures own { own ≤ result }
    ensures all { (k : ℕ) (x : Exception) → slice_get exceptions.now k ≡ Some x → lasts_up_to result x.replaced ≡ true }
    ensures size { result ≤ 31622400 }
{
    let mut best = own;
    for x in exceptions {
        best = longer(best, x.replaced);
    }
    best
}

// Wall seconds that no occurrence of a series lasts longer than.
pub(crate) fn longest(series: &Series) -> u64
    ensures all { (o : Occurrence) → IsOccurrence series.now o → wall_seconds o.length ≤ result }
    ensures size { result ≤ 31622400 }
{
    longest_of(series.exceptions.items(), wall_seconds(series.length))
}
