//! Day numbers.
ghost use Rattle.std.specs.Prelude.{◌≡◌};

use std::alloc::AllocError;
use std::marker::Model;

/// A day, by its number: days after 1970-01-01. Contracts see the number.
#[derive(Drop)]
pub struct Day {
    number: i64,
}

impl Model for Day {
    ghost use Rattle.std.specs.Prelude.{ℤ};

    ghost Value = { ℤ };

    ghost view = { λ a. a.number };

    ghost inverse = { λ z. record { number = z } };
}

impl Clone for Day {
    ghost is_clone = { λ x y. y ≡ x };

    fn clone(&self) -> Result<Day, AllocError> {
        Ok(*self)
    }
}

impl Copy for Day {}

impl Day {
    /// The day of a number. Takes no memory.
    pub fn new(number: i64) -> Day
        ensures { result ≡ number }
    {
        Day { number }
    }

    /// The days after 1970-01-01. Takes no memory.
    pub fn number(&self) -> i64
        ensures { result ≡ self.now }
    {
        self.number
    }
}
