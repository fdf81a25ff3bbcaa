//! What is to be booked.
ghost use Rattle.std.specs.Prelude.{◌≤◌};
ghost use Rattle.spec_series.specs.Lengths.{most_booked_seconds};
ghost use Rattle.spec_series.specs.SeriesLimits.{wall_seconds};

use spec_json::tree::Tree;
use spec_time::length::Length;

/// A series that is to be booked at some start: how long an occurrence lasts, at most 7 days, and its rules.
#[derive(Drop)]
pub struct Wish {
    /// How long an occurrence lasts.
    pub length: Length,
    /// `recurrenceRules` (RFC 8984 section 4.3.3), which are read anew at each start.
    pub rules: Tree,
    pub ghost length_in: { wall_seconds length ≤ most_booked_seconds },
}
