//! The members of a rule that aren't lists.
ghost use Rattle.std.specs.Prelude.{◌≡◌, ◌<◌, true};
ghost use Rattle.std.specs.Int.{IsInRange};
ghost use Rattle.spec_series.specs.RuleLimits.{is_end};

use spec_series::by_part::{End, Freq, Skip};

/// How long periods are, which of them count, where the rule ends, and what is done with dates that there aren't.
#[derive(Clone, Copy, Drop)]
pub(crate) struct Frame {
    pub frequency: Freq,
    pub interval: u32,
    pub week_start: u8,
    pub end: End,
    pub skip: Skip,
    ghost interval_in: { IsInRange 1 1000 interval },
    ghost week_start_in: { week_start < 7 },
    ghost end_in: { is_end end ≡ true },
}
