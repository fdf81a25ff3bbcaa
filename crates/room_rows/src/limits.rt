//! The limits of series.
ghost use Rattle.std.specs.Prelude.{◌≡◌, ◌&&◌, nat_le};
ghost use Rattle.spec_time.specs.Walls.{is_in_years};
ghost use Rattle.spec_series.specs.SeriesLimits.{are_distinct, are_in_years, are_short, is_named, is_span_in_years, is_span_short, wall_seconds};
ghost use Rattle.spec_series.specs.Lengths.{are_week_long, is_week_long};

use spec_series::exception::{Exception, Span};
use spec_time::length::Length;
use spec_time::wall::Wall;
use time_text::is_in_years;

/// Whether a length is at most 7 days.
pub fn is_week(length: Length) -> bool
    ensures { result ≡ nat_le (wall_seconds length) 604800 }
{
    length.days <= 7
        && length.seconds <= 604_800
        && 86_400 * length.days + length.seconds <= 604_800
}

/// Whether a length is at most 366 days.
fn is_short(length: Length) -> bool
    ensures { result ≡ nat_le (wall_seconds length) 31622400 }
{
    length.days <= 366
        && length.seconds <= 31_622_400
        && 86_400 * length.days + length.seconds <= 31_622_400
}

fn is_in_its_years(exception: &Exception) -> bool
    ensures { result ≡ (is_in_years exception.now.rid && is_span_in_years exception.now.replaced) }
{
    is_in_years(exception.rid)
        && match exception.replaced {
            Some(span) => is_in_years(span.start),
            None => true,
        }
}

fn is_short_span(span: Option<Span>) -> bool
    ensures { result ≡ is_span_short span }
{
    match span {
        Some(span) => is_short(span.length),
        None => true,
    }
}

fn is_week_long_span(span: Option<Span>) -> bool
    ensures { result ≡ is_week_long span }
{
    match span {
        Some(span) => is_week(span.length),
        None => true,
    }
}

/// Whether recurrence ids and starts lie in the years 0 to 9999.
pub fn are_in_years(exceptions: &[Exception]) -> bool
    ensures { result ≡ are_in_years exceptions.now }
{
    exceptions.iter().all(|x| is_in_its_years(x))
}

/// Whether what replaces them lasts at most 366 days.
pub fn are_short(exceptions: &[Exception]) -> bool
    ensures { result ≡ are_short exceptions.now }
{
    exceptions.iter().all(|x| is_short_span(x.replaced))
}

/// Whether what replaces them lasts at most 7 days.
pub fn are_week_long(exceptions: &[Exception]) -> bool
    ensures { result ≡ are_week_long exceptions.now }
{
    exceptions.iter().all(|x| is_week_long_span(x.replaced))
}

#[tactic(auto, unfolding(spec_series::specs::SeriesLimits::is_named))]
fn names(exceptions: &[Exception], rid: Wall) -> bool
    ensures { result ≡ is_named exceptions.now rid }
{
    exceptions.iter().any(|x| x.rid.seconds() == rid.seconds())
}

/// Whether no recurrence id is named twice.
#[tactic(auto, unfolding(spec_series::specs::SeriesLimits::are_distinct))]
pub fn are_distinct(exceptions: &[Exception]) -> bool
    ensures { result ≡ are_distinct exceptions.now }
{
    match exceptions.split_first() {
        Some((first, rest)) => !names(rest, first.rid) && are_distinct(rest),
        None => true,
    }
}
