//! What is asked for, as it is read.
ghost use Rattle.std.specs.Prelude.{◌≡◌, ◌≤◌, ◌≤ℤ◌, is_some, true};
ghost use Rattle.spec_json.specs.TreeData.{data_of};
ghost use Rattle.spec_series.specs.Lengths.{most_booked_seconds};
ghost use Rattle.spec_series.specs.RuleObjects.{rules_in};
ghost use Rattle.spec_series.specs.SeriesLimits.{wall_seconds};
ghost use Rattle.spec_time.specs.Walls.{is_in_years};

use spec_json::text::Text;
use spec_slots::wish::Wish;
use spec_time::length::Length;
use spec_time::wall::Wall;

/// Where and when a series is to be booked, apart from its rules.
#[derive(Drop)]
pub(crate) struct Frame<'a> {
    /// The id of the calendar.
    pub calendar: &'a Text,
    /// How long an occurrence lasts.
    pub length: Length,
    /// The wall second from which on starts are tried.
    pub from: Wall,
    /// The wall second up to but without which they are.
    pub to: Wall,
    pub ghost length_in: { wall_seconds length ≤ most_booked_seconds },
    pub ghost from_in: { is_in_years from ≡ true },
    pub ghost to_in: { is_in_years to ≡ true },
}

/// What a call for a slot asks for.
#[derive(Drop)]
pub struct SlotRequest {
    /// The id of the calendar.
    pub calendar: Text,
    /// What is to be booked.
    pub wish: Wish,
    /// The wall second from which on starts are tried.
    pub from: Wall,
    /// The wall second up to but without which they are.
    pub to: Wall,
    pub ghost from_in: { is_in_years from ≡ true },
    pub ghost to_in: { is_in_years to ≡ true },
    pub ghost order_in: { from ≤ℤ to },
    pub ghost rules_read: { is_some (rules_in from (data_of wish.rules)) ≡ true },
}
