//! The places of bookings in their order.
ghost use Rattle.std.specs.Prelude.{◌≡◌, ◌<◌, ◌≤◌, length, insert, remove, true, false, IfNone, IfSome};
ghost use Rattle.spec_series.specs.declared.series.Series.{Series};
ghost use Rattle.spec_bookings.specs.Bookings.{is_booked, without_booking, with_booking, but};

use crate::prepared_booking::PreparedBooking;

/// The place of the booking of a number.
pub fn place_of(bookings: &[PreparedBooking], number: u64) -> Option<usize>
    ensures none { IfNone result ((is_booked number bookings.now ≡ false) × (without_booking number bookings.now ≡ bookings.now)) }
    ensures some { IfSome result (λ i. (i < length bookings.now) × (is_booked number bookings.now ≡ true) × (without_booking number bookings.now ≡ remove bookings.now i)) }
{
    for (i, booking) in bookings.iter().enumerate() {
        let booked = booking.number();
        if booked == number {
            return Some(i);
        }
    }
    None
}

/// The place that a booking of a number gets.
pub fn place_for(bookings: &[PreparedBooking], number: u64) -> usize
    ensures within { result ≤ length bookings.now }
    ensures at { (s : Series) → with_booking number s bookings.now ≡ insert bookings.now result (record { number = number; series = s }) }
{
    for (i, booking) in bookings.iter().enumerate() {
        let booked = booking.number();
        if number < booked {
            return i;
        }
    }
    bookings.len()
}

/// The place of the excepted booking, if there is one.
pub fn place_but(bookings: &[PreparedBooking], except: Option<u64>) -> Option<usize>
    ensures none { IfNone result (but except bookings.now ≡ bookings.now) }
    ensures some { IfSome result (λ i. (i < length bookings.now) × (but except bookings.now ≡ remove bookings.now i)) }
{
    match except {
        Some(number) => place_of(bookings, number),
        None => None,
    }
}

/// How many bookings there are but the excepted one.
pub fn count_but(bookings: &[PreparedBooking], except: Option<u64>) -> usize
    ensures { result ≡ length (but except bookings.now) }
{
    match place_but(bookings, except) {
        Some(_) => bookings.len() - 1,
        None => bookings.len(),
    }
}
