//! Bookings with what checks want of them.
ghost use Rattle.std.specs.Prelude.{◌≡◌, ◌<◌, ◌^◌, unsigned_abs, IfSome};
ghost use Rattle.spec_series.specs.Shared.{IsShared};
ghost use Rattle.rule_expand.specs.Least.{IsLeastOf};

use residue_clash::{Prepared, Shared, Timetable, first_shared_with};
use std::marker::Model;

/// A booking of a resource whose series is prepared. Contracts see the booking.
#[derive(Drop)]
pub struct PreparedBooking {
    number: u64,
    series: Prepared,
}

impl Model for PreparedBooking {
    ghost use Rattle.spec_bookings.specs.declared.booking.Booking.{Booking};

    ghost Value = { Booking };

    ghost view = { λ b. record { number = b.number; series = b.series } };
}

impl PreparedBooking {
    /// The booking of a series for the event of a number. Takes no memory.
    pub fn new(number: u64, series: Prepared) -> PreparedBooking
        ensures { result ≡ record { number = number; series = series } }
    {
        PreparedBooking { number, series }
    }

    /// The number of the event that books. Takes no memory.
    pub fn number(&self) -> u64
        ensures { result ≡ self.now.number }
    {
        self.number
    }

    /// The first second that the booking shares with a series. Takes no memory.
    pub fn first_shared(&self, series: &Timetable<'_>) -> Option<Shared>
        ensures least { IsLeastOf (IsShared self.now.series series.now) result }
        ensures near { IfSome result (λ x. unsigned_abs x < 2 ^ 57) }
    {
        first_shared_with(&self.series, series)
    }
}
