//! The system's clock.

ghost use Rattle.std.specs.Prelude.{◌≡◌, ◌/◌, None, pos};
ghost use Rattle.std.specs.Duration.{as_nanos};
ghost use Rattle.std.specs.Time.{FitsClock};

use crate::clock::Clock;
use std::time::{self, Duration, SystemTime, UNIX_EPOCH};

/// The system's clock, over the runtime. It tells none of its moments.
#[derive(Clone, Copy)]
pub struct SystemClock<R: Copy> {
    runtime: R,
}

impl<R: time::Clock + Copy> SystemClock<R> {
    /// Makes a clock over the runtime. Takes no memory.
    pub fn new(runtime: R) -> SystemClock<R> {
        SystemClock { runtime }
    }
}

impl<R: time::Clock + Copy> Clock for SystemClock<R> {
    ghost moments = { λ _. None };

    // 0 where the system tells no time, or one before 1970.
    fn now(&mut self) -> i64 {
        let Ok(time) = SystemTime::now(&self.runtime) else {
            return 0;
        };
        match time.duration_since(UNIX_EPOCH) {
            Ok(since) => whole_seconds(since),
            Err(_) => 0,
        }
    }
}

// How many whole seconds passed.
fn whole_seconds(since: Duration) -> i64
    requires { FitsClock (as_nanos since) }
    ensures { result ≡ pos (as_nanos since / 1_000_000_000) }
{
    since.as_secs() as i64
}
