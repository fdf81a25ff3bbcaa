//! Recurrence rules (RFC 8984 section 4.3.3).
ghost use Rattle.std.specs.Prelude.{◌≡◌, ◌<◌, true, IfOk};
ghost use Rattle.std.specs.Int.{IsInRange};
ghost use Rattle.spec_series.specs.RuleLimits.{are_by_parts, are_year_days, is_end, is_skip};

use crate::by_part::{End, Freq, NDays, Skip, Small};
use std::alloc::AllocError;
use std::marker::Model;

/// A recurrence rule, with its implied parts filled in.
#[derive(Drop)]
pub struct Rule {
    /// `frequency`: how long a period is.
    pub frequency: Freq,
    /// `interval`: of so many periods one is in phase.
    pub interval: u32,
    /// `firstDayOfWeek`: the day with which weeks begin, from 0 for Monday to 6 for Sunday.
    pub week_start: u8,
    /// `byDay`: days of the week.
    pub by_day: NDays,
    /// `byMonthDay`: days of the month, from 1, or from -1 for the last.
    pub by_month_day: Small,
    /// `byMonth`: months, where January is 1.
    pub by_month: Small,
    /// `byYearDay`: days of the year, from 1, or from -1 for the last.
    pub by_year_day: Small,
    /// `bySetPosition`: places among the matching days of a period, from 1, or from -1 for the last.
    pub by_set: Small,
    /// `skip`: what is done with dates that a month hasn't.
    pub skip: Skip,
    /// `count` or `until`.
    pub end: End,
    pub ghost interval_in: { IsInRange 1 1000 interval },
    pub ghost week_start_in: { week_start < 7 },
    pub ghost by_parts_in: { are_by_parts frequency by_day by_month_day by_month by_set ≡ true },
    pub ghost year_days_in: { are_year_days frequency by_year_day ≡ true },
    pub ghost skip_in: { is_skip skip frequency by_day by_month_day by_year_day by_set ≡ true },
    pub ghost end_in: { is_end end ≡ true },
}

impl Rule {
    /// Gives an equal rule.
    pub fn copy(&self) -> Result<Rule, AllocError>
        ensures { IfOk result (λ r. r ≡ self.now) }
    {
        Ok(Rule {
            frequency: self.frequency,
            interval: self.interval,
            week_start: self.week_start,
            by_day: self.by_day.copy()?,
            by_month_day: self.by_month_day.copy()?,
            by_month: self.by_month.copy()?,
            by_year_day: self.by_year_day.copy()?,
            by_set: self.by_set.copy()?,
            skip: self.skip,
            end: self.end,
        })
    }
}
