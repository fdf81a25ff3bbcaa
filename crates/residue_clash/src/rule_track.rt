//! The days of recurrence rules as tracks.
ghost use Rattle.std.specs.Prelude.{◌≡◌, ◌<◌, ◌&&◌, unsigned_abs};
ghost use Rattle.rule_expand.specs.Repeats.{repeats_after};
ghost use Rattle.residue_clash.specs.Kinds.{days_of, phase_by};
ghost use Rattle.residue_clash.specs.RuleMaps.{HasBits, residue_of};

use crate::kept::{is_given_on, ungiven_days};
use crate::phase::{is_phase_day, looks_at_weekdays, phase_day, phase_of};
use crate::rule_map::residue;
use crate::track::Track;
use residue_solve::{Cong, has_bit};
use spec_series::rule::Rule;

/// The days of a rule after the start's.
#[derive(Drop)]
pub struct RuleTrack<'a> {
    /// The rule.
    pub rule: &'a Rule,
    /// The day of the start.
    pub first: i64,
    /// Whether the days are those that the rule moves forward to, whose day before is to be in phase; else they are those that it
    /// keeps or moves backward to.
    pub pushed: bool,
    /// The last day of the rule's set, where there is one.
    pub last: Option<i64>,
    /// A map of the days, where there is one.
    pub map: Option<&'a [u64]>,
    pub ghost first_in: { unsigned_abs first < 4000000 },
    pub ghost map_in: { HasBits map (residue_of pushed rule.now) },
}

impl Track for RuleTrack<'_> {
    ghost use Rattle.std.specs.Prelude.{refl};
    ghost use Rattle.residue_clash.specs.Again.{days_again};

    ghost keeps = { λ t n. days_of t.pushed t.rule.now n };

    ghost phase = { λ t n. phase_by t.pushed t.rule.now t.first n };

    ghost last_of = { λ t. t.last };

    ghost repeats = { λ t c. repeats_after t.rule.now c };

    fn is_kept(&self, day: i64) -> bool {
        match self.map {
            Some(words) => has_bit(words, residue(day)),
            None => is_given_on(self.rule, self.pushed, day),
        }
    }

    fn is_in_phase(&self, day: i64) -> bool {
        is_phase_day(self.rule, self.first, phase_day(self.pushed, day))
    }

    fn phase_from(&self, day: i64, cycle: u32) -> Cong {
        phase_of(self.rule, self.first, phase_day(self.pushed, day), cycle)
    }

    fn unkept(&self, day: i64) -> u32 {
        ungiven_days(self.rule, self.pushed, day)
    }

    fn map(&self) -> Option<&[u64]> {
        self.map
    }

    fn last(&self) -> Option<i64> {
        self.last
    }

    fn repeats_weekly(&self) -> bool {
        looks_at_weekdays(self.rule)
    }

    ghost again = { λ t c h n. days_again t.pushed t.rule.now c h n };

    ghost whole = { λ t. refl };
}
