//! The offsets of days at which occurrences overlap.
ghost use Rattle.std.specs.Prelude.{ℕ, ◌<◌, ◌≤◌, pos, ◌+ℤ◌, ◌-ℤ◌, ◌*ℤ◌, ◌≤ℤ◌, ◌<ℤ◌, unsigned_abs};
ghost use Rattle.residue_clash.specs.Parts.{IsOther, IsOverlap};

/// Offsets of days, each more by 8: from `low` to before `high`.
#[derive(Clone, Copy, Drop)]
pub struct Shifts {
    /// The first.
    pub low: u32,
    /// The first after the last, or `low` where there are none.
    pub high: u32,
    pub ghost order_in: { (low ≤ high) × (high ≤ 17) },
}

// The later of two.
fn later_of(a: u32, b: u32) -> u32
    ensures a { a ≤ result }
    ensures b { b ≤ result }
    ensures least { (c : ℕ) → a ≤ c → b ≤ c → result ≤ c }
{
    if a < b { b } else { a }
}

/// The offsets of days at which an occurrence of one length that begins at one second of its day overlaps one of another that begins at
/// another, so many days later.
pub(crate) fn shifts_of(time: u32, seconds: u64, other: u32, other_seconds: u64) -> Shifts
    requires time { time < 86400 }
    requires other { other < 86400 }
    requires seconds { seconds ≤ 604800 }
    requires other_seconds { other_seconds ≤ 604800 }
    ensures { (k : ℕ) → IsOverlap time other seconds other_seconds (pos k -ℤ pos 8) → (result.low ≤ k) × (k < result.high) }
{
    let low = (777_600 + u64::from(time) - u64::from(other) - other_seconds) / 86_400;
    let high = (777_599 + u64::from(time) + seconds - u64::from(other)) / 86_400;
    Shifts {
        low: low as u32,
        high: later_of(low as u32, high as u32),
    }
}

/// The same without that of no days, where it is the only one and a series is compared with itself.
pub(crate) fn other_shifts(shifts: Shifts, same: bool) -> Shifts
    ensures { (k : ℕ) → IsOther same (pos k -ℤ pos 8) → shifts.low ≤ k → k < shifts.high → (result.low ≤ k) × (k < result.high) }
{
    if same && shifts.low >= 8 && shifts.high <= 9 {
        Shifts {
            low: shifts.low,
            high: shifts.low,
        }
    } else {
        shifts
    }
}
