//! Clocks: what moment it is.

ghost use Rattle.std.specs.Prelude.{ℕ, ℤ, Option};
ghost use Rattle.io_edge.specs.Outside.{Ticks};

/// Tells the moment.
pub trait Clock {
    /// The moments still to be given, by the number of the call from 0, where the clock tells them.
    ghost moments: { Self → Option (ℕ → ℤ) };

    /// Gives the moment, in seconds of UTC from 1970. Takes no memory.
    fn now(&mut self) -> i64
        ensures { Ticks (moments self.old) (moments self.new) result };
}
