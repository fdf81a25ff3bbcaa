//! Wall seconds of a local clock.
ghost use Rattle.std.specs.Prelude.{◌≡◌};

use std::alloc::AllocError;
use std::marker::Model;

/// A wall second: seconds of a local clock from its 1970-01-01T00:00:00. Contracts see the seconds.
#[derive(Drop)]
pub struct Wall {
    seconds: i64,
}

impl Model for Wall {
    ghost use Rattle.std.specs.Prelude.{ℤ};

    ghost Value = { ℤ };

    ghost view = { λ a. a.seconds };

    ghost inverse = { λ z. record { seconds = z } };
}

impl Clone for Wall {
    ghost is_clone = { λ x y. y ≡ x };

    fn clone(&self) -> Result<Wall, AllocError> {
        Ok(*self)
    }
}

impl Copy for Wall {}

impl Wall {
    /// The wall second so many seconds after 1970-01-01T00:00:00. Takes no memory.
    pub fn new(seconds: i64) -> Wall
        ensures { result ≡ seconds }
    {
        Wall { seconds }
    }

    /// The seconds after 1970-01-01T00:00:00. Takes no memory.
    pub fn seconds(&self) -> i64
        ensures { result ≡ self.now }
    {
        self.seconds
    }
}
