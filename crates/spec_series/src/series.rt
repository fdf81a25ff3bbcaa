//! An event's occurrences, told by its rules and exceptions.
ghost use Rattle.std.specs.Prelude.{◌≡◌, ◌≤◌, length as count, true, IfOk};
ghost use Rattle.spec_time.specs.Walls.{is_in_years};
ghost use Rattle.spec_series.specs.SeriesLimits.{wall_seconds, are_in_years, are_distinct, are_short};

use crate::exception::Exceptions;
use crate::rules::Rules;
use spec_time::length::Length;
use spec_time::wall::Wall;
use std::alloc::{AllocError, Global};

/// The occurrences of an event (RFC 8984 section 4.3).
#[derive(Drop)]
pub struct Series {
    /// The wall second at which the first occurrence begins.
    pub start: Wall,
    /// How long an occurrence lasts.
    pub length: Length,
    /// Whether occurrences take up the time.
    pub occupying: bool,
    /// `recurrenceRules`: the rules, of which there may be none.
    pub rules: Rules,
    /// `recurrenceOverrides`: what is said of single occurrences.
    pub exceptions: Exceptions,
    pub ghost start_in: { is_in_years start ≡ true },
    pub ghost length_in: { wall_seconds length ≤ 31622400 },
    pub ghost few_rules: { count rules ≤ 4 },
    pub ghost few_exceptions: { count exceptions ≤ 128 },
    pub ghost exceptions_in: { are_in_years exceptions ≡ true },
    pub ghost exceptions_short: { are_short exceptions ≡ true },
    pub ghost exceptions_distinct: { are_distinct exceptions ≡ true },
}

impl Series {
    /// Gives an equal series.
    pub fn copy(&self, alloc: Global) -> Result<Series, AllocError>
        ensures { IfOk result (λ s. s ≡ self.now) }
    {
        Ok(Series {
            start: self.start,
            length: self.length,
            occupying: self.occupying,
            rules: self.rules.copy(alloc)?,
            exceptions: self.exceptions.copy()?,
        })
    }
}
