//! Moments of UTC.
ghost use Rattle.std.specs.Prelude.{◌≡◌};
ghost use Rattle.spec_time.specs.Moments.{IsMoment, clamped};

use std::alloc::AllocError;
use std::marker::Model;

/// The last second of the year 9998, in seconds of UTC from 1970.
pub const LAST_MOMENT: i64 = 253_370_764_799;

/// A moment, in seconds of UTC from 1970, not before 1970 and not behind the year 9998. Contracts see the seconds.
#[derive(Drop)]
pub struct Moment {
    seconds: i64,
}

impl Model for Moment {
    ghost use Rattle.std.specs.Prelude.{ℤ};
    ghost use Rattle.spec_time.specs.Moments.{IsMoment};

    ghost Value = { ℤ };

    ghost view = { λ a. a.seconds };

    ghost invariant = { λ a. IsMoment a.seconds };

    ghost inverse = { λ z. record { seconds = z } };
}

impl Clone for Moment {
    ghost is_clone = { λ x y. y ≡ x };

    fn clone(&self) -> Result<Moment, AllocError> {
        Ok(*self)
    }
}

impl Copy for Moment {}

impl Moment {
    /// The moment of so many seconds of UTC from 1970. Takes no memory.
    pub fn new(seconds: i64) -> Moment
        requires { IsMoment seconds }
        ensures { result ≡ seconds }
    {
        Moment { seconds }
    }

    /// The moment nearest to so many seconds of UTC from 1970. Takes no memory.
    pub fn clamped(seconds: i64) -> Moment
        ensures { result ≡ clamped seconds }
    {
        Moment {
            seconds: seconds.min(LAST_MOMENT).max(0),
        }
    }

    /// The seconds of UTC from 1970. Takes no memory.
    pub fn seconds(&self) -> i64
        ensures value { result ≡ self.now }
        ensures range { IsMoment result }
    {
        self.seconds
    }
}
