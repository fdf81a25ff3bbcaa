//! Bookings of a resource.
ghost use Rattle.std.specs.Prelude.{◌≡◌};
ghost use Rattle.spec_series.specs.Lengths.{IsWeekLong};

use spec_series::series::Series;
use std::marker::Model;

/// A series that may be booked: none of its occurrences lasts longer than 7 days.
#[derive(Drop)]
pub struct Bookable {
    series: Series,
}

impl Model for Bookable {
    ghost use Rattle.spec_series.specs.declared.series.Series.{Series};
    ghost use Rattle.spec_series.specs.Lengths.{IsWeekLong};

    ghost Value = { Series };

    ghost view = { λ b. b.series };

    ghost invariant = { λ b. IsWeekLong b.series };
}

impl Bookable {
    /// The series, to be booked. Takes no memory.
    pub fn new(series: Series) -> Bookable
        requires { IsWeekLong series }
        ensures { result ≡ series }
    {
        Bookable { series }
    }

    /// The series. Takes no memory.
    pub fn series(&self) -> &Series
        ensures same { result.now ≡ self.now }
        ensures week { IsWeekLong self.now }
    {
        &self.series
    }
}

/// A booking of a resource.
#[derive(Drop)]
pub struct Booking {
    /// The number of the event that books.
    pub number: u64,
    /// The event's occurrences.
    pub series: Bookable,
}
