//! The windows that a call may ask for.
ghost use Rattle.std.specs.Prelude.{◌≡◌, ◌<ℤ◌, IfSome, true};
ghost use Rattle.spec_availability.specs.Availability.{window_between};
ghost use Rattle.spec_events.specs.Values.{is_showing};

use crate::limits::MAX_WINDOW_SECONDS;
use spec_windows::period::Period;

/// The window from an instant up to another in the years 1 to 9998, or `None` where a call may not ask for it: the other isn't
/// later, or is so by more than 366 days. Takes no memory.
pub fn window_between(from: i64, to: i64) -> Option<Period>
    requires from { is_showing from ≡ true }
    requires to { is_showing to ≡ true }
    ensures value { result ≡ window_between from to }
    ensures from { IfSome result (λ w. w.from ≡ from) }
    ensures to { IfSome result (λ w. w.to ≡ to) }
    ensures order { IfSome result (λ w. w.from <ℤ w.to) }
{
    if from < to && to - from <= MAX_WINDOW_SECONDS as i64 {
        Some(Period { from, to })
    } else {
        None
    }
}
