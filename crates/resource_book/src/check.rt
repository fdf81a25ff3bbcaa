//! The first second at which a series clashes with bookings.
ghost use Rattle.std.specs.Prelude.{◌≡◌, List, ◌++◌, option_map, IfNone};
ghost use Rattle.spec_series.specs.Lengths.{IsWeekLong};
ghost use Rattle.rule_expand.specs.Least.{IsLeastOf};
ghost use Rattle.spec_bookings.specs.declared.booking.Booking.{Booking as BookingView};
ghost use Rattle.spec_bookings.specs.Bookings.{but};
ghost use Rattle.spec_bookings.specs.Clashes.{IsClash, IsClear, first_clash, second_of};
ghost use Rattle.resource_book.specs.SharedSeconds.{is_shared_with, earlier_of, IsEarliestOf, clash_of};

use crate::places::place_but;
use crate::prepared_booking::PreparedBooking;
use residue_clash::{Shared, Timetable, fill_map, first_self_shared_by, wants_maps};
use spec_bookings::clash::Clash;
use spec_series::series::Series;

// A second that a series shares, and the number of the first booking that covers it, if one does.
#[derive(Clone, Copy, Drop)]
struct SharedSecond {
    with: Option<u64>,
    at: Shared,
}

// The earlier of the shared second so far and the one that was found, with the event that covers it; the one so far where they are the
// same.
fn earlier_of(
    best: Option<SharedSecond>,
    found: Option<Shared>,
    with: Option<u64>,
) -> Option<SharedSecond>
    ensures { result ≡ earlier_of best found with }
{
    match (best, found) {
        (_, None) => best,
        (None, Some(at)) => Some(SharedSecond { with, at }),
        (Some(so_far), Some(at)) => {
            if at.wall().seconds() < so_far.at.wall().seconds() {
                Some(SharedSecond { with, at })
            } else {
                Some(so_far)
            }
        }
    }
}

// Goes on from the shared second so far, which was found among earlier bookings, with these.
fn earliest_among(
    best: Option<SharedSecond>,
    bookings: &[PreparedBooking],
    series: &Timetable<'_>,
) -> Option<SharedSecond>
    ensures { (before : List BookingView) → IsEarliestOf (is_shared_with before series.now) before best
        → IsEarliestOf (is_shared_with (before ++ bookings.now) series.now) (before ++ bookings.now) result }
{
    let mut best = best;
    for booking in bookings {
        let found = booking.first_shared(series);
        best = earlier_of(best, found, Some(booking.number()));
    }
    best
}

// The earliest second that the series shares with a booking that isn't excepted.
fn earliest_among_others(
    bookings: &[PreparedBooking],
    except: Option<u64>,
    series: &Timetable<'_>,
) -> Option<SharedSecond>
    ensures { IsEarliestOf (is_shared_with (but except bookings.now) series.now) (but except bookings.now) result }
{
    match place_but(bookings, except) {
        Some(i) => {
            let earlier = earliest_among(None, &bookings[..i], series);
            earliest_among(earlier, &bookings[i + 1..], series)
        }
        None => earliest_among(None, bookings, series),
    }
}

// The clash that a shared second is.
fn clash_of(found: Option<SharedSecond>) -> Option<Clash>
    ensures { result ≡ option_map clash_of found }
{
    match found {
        Some(shared) => Some(Clash {
            with: shared.with,
            day: shared.at.day(),
            second: shared.at.second(),
        }),
        None => None,
    }
}

/// The first second at which a series clashes with bookings but the excepted one, or with itself.
pub fn check_with(
    bookings: &[PreparedBooking],
    except: Option<u64>,
    series: &Timetable<'_>,
) -> Option<Clash>
    ensures exact { result ≡ first_clash (but except bookings.now) series.now }
    ensures clear { IfNone result (IsClear (but except bookings.now) series.now) }
    ensures least { IsLeastOf (IsClash (but except bookings.now) series.now) (option_map second_of result) }
{
    let shared = earliest_among_others(bookings, except, series);
    clash_of(earlier_of(shared, first_self_shared_by(series), None))
}

// The same by maps of the days of its rules.
fn check_by_maps(
    bookings: &[PreparedBooking],
    except: Option<u64>,
    series: &Series,
) -> Option<Clash>
    requires week { IsWeekLong series.now }
    ensures exact { result ≡ first_clash (but except bookings.now) series.now }
    ensures clear { IfNone result (IsClear (but except bookings.now) series.now) }
    ensures least { IsLeastOf (IsClash (but except bookings.now) series.now) (option_map second_of result) }
{
    let mut first = [0u64; 2283];
    let mut second = [0u64; 2283];
    let mut third = [0u64; 2283];
    let mut fourth = [0u64; 2283];
    fill_map(&mut first, series, 0);
    fill_map(&mut second, series, 1);
    fill_map(&mut third, series, 2);
    fill_map(&mut fourth, series, 3);
    let table = Timetable::with_maps(
        series,
        Some(&first),
        Some(&second),
        Some(&third),
        Some(&fourth),
    );
    check_with(bookings, except, &table)
}

/// The first second at which a series clashes with bookings but the excepted one, or with itself.
pub fn check(bookings: &[PreparedBooking], except: Option<u64>, series: &Series) -> Option<Clash>
    requires week { IsWeekLong series.now }
    ensures exact { result ≡ first_clash (but except bookings.now) series.now }
    ensures clear { IfNone result (IsClear (but except bookings.now) series.now) }
    ensures least { IsLeastOf (IsClash (but except bookings.now) series.now) (option_map second_of result) }
{
    if !bookings.is_empty() && wants_maps(series) {
        check_by_maps(bookings, except, series)
    } else {
        check_with(bookings, except, &Timetable::of(series))
    }
}
