//! The implied parts of rules, those of the start's day that a rule leaves out, and which parts go together.
ghost use Rattle.std.specs.Prelude.{◌≡◌, ◌<◌, ◌&&◌, ◌||◌, ◌^◌, ◌∷◌, [], None, pos, is_some, true, unsigned_abs, IfOk};
ghost use Rattle.std.specs.List.{list_all, list_any};
ghost use Rattle.spec_series.specs.RuleLimits.{are_year_days, has_months, is_empty, is_place_to, is_skip};
ghost use Rattle.spec_series.specs.RuleObjects.{implied_days, implied_month_days, implied_months, is_dated_yearly, is_monthly, is_settled_by, is_weekly, is_yearly};

use civil_days::{civil, weekday};
use spec_series::by_part::{Freq, NDay, NDays, Skip, Small};
use std::alloc::{AllocError, Global};

fn is_weekly(frequency: Freq) -> bool
    ensures { result ≡ is_weekly frequency }
{
    matches!(frequency, Freq::Weekly)
}

fn is_monthly(frequency: Freq) -> bool
    ensures { result ≡ is_monthly frequency }
{
    matches!(frequency, Freq::Monthly)
}

fn is_yearly(frequency: Freq) -> bool
    ensures { result ≡ is_yearly frequency }
{
    matches!(frequency, Freq::Yearly)
}

fn has_no_days(days: &NDays) -> bool
    ensures { result ≡ is_empty days.now }
{
    days.items().is_empty()
}

fn has_none(numbers: &Small) -> bool
    ensures { result ≡ is_empty numbers.now }
{
    numbers.items().is_empty()
}

// Whether an item has a place.
fn has_places(days: &NDays) -> bool
    ensures { result ≡ list_any (λ x. is_some x.nth) days.now }
{
    days.items().iter().any(|day| day.nth.is_some())
}

// Whether days of the month want a month of the start.
fn is_dated_yearly(frequency: Freq, by_month: &Small, by_year_day: &Small) -> bool
    ensures { result ≡ is_dated_yearly frequency by_month.now by_year_day.now }
{
    is_yearly(frequency) && has_none(by_month) && has_none(by_year_day)
}

/// Whether implied months leave no doubt how places of days of the week are counted.
pub(crate) fn is_settled(
    frequency: Freq,
    by_day: &NDays,
    by_month_day: &Small,
    by_month: &Small,
    by_year_day: &Small,
) -> bool
    ensures { result ≡ is_settled_by frequency by_day.now by_month_day.now by_month.now by_year_day.now }
{
    !(is_dated_yearly(frequency, by_month, by_year_day)
        && !has_none(by_month_day)
        && has_places(by_day))
}

fn has_months(frequency: Freq) -> bool
    ensures { result ≡ has_months frequency }
{
    is_monthly(frequency) || is_yearly(frequency)
}

/// Whether there are days of the year in yearly rules alone.
pub(crate) fn are_year_days(frequency: Freq, by_year_day: &Small) -> bool
    requires { list_all (is_place_to 366) by_year_day.now ≡ true }
    ensures { result ≡ are_year_days frequency by_year_day.now }
{
    has_none(by_year_day) || is_yearly(frequency)
}

/// Whether dates that there aren't may be moved, as those of rules of days of the month alone; `by_month_day` is what it is
/// with the implied days.
pub(crate) fn may_skip(
    skip: Skip,
    frequency: Freq,
    by_day: &NDays,
    by_month_day: &Small,
    by_year_day: &Small,
    by_set: &Small,
) -> bool
    ensures { result ≡ is_skip skip frequency by_day.now by_month_day.now by_year_day.now by_set.now }
{
    match skip {
        Skip::Omit => true,
        Skip::Backward | Skip::Forward => {
            has_months(frequency)
                && !has_none(by_month_day)
                && has_no_days(by_day)
                && has_none(by_year_day)
                && has_none(by_set)
        },
    }
}

/// The days of the week, with the start's where a weekly rule has none.
pub(crate) fn with_days(
    alloc: Global,
    frequency: Freq,
    day: i64,
    by_day: NDays,
) -> Result<NDays, AllocError>
    requires { unsigned_abs day < 2 ^ 42 }
    ensures { IfOk result (λ xs. xs ≡ implied_days frequency day by_day) }
{
    if is_weekly(frequency) && has_no_days(&by_day) {
        one_day(alloc, weekday(day))
    } else {
        Ok(by_day)
    }
}

fn one_day(alloc: Global, weekday: u8) -> Result<NDays, AllocError>
    ensures { IfOk result (λ xs. xs ≡ record { day = weekday; nth = None } ∷ []) }
{
    let mut days = Vec::new(alloc);
    days.push(NDay {
        day: weekday,
        nth: None,
    })?;
    NDays::new(days)
}

/// The days of the month, with the start's where a monthly rule, or a yearly one without days of the year, has none, and none
/// of the week.
pub(crate) fn with_month_days(
    alloc: Global,
    frequency: Freq,
    day: i64,
    by_day: &NDays,
    by_month_day: Small,
    by_year_day: &Small,
) -> Result<Small, AllocError>
    requires { unsigned_abs day < 2 ^ 42 }
    ensures { IfOk result (λ xs. xs ≡ implied_month_days frequency day by_day.now by_month_day by_year_day.now) }
{
    if (is_monthly(frequency) || (is_yearly(frequency) && has_none(by_year_day)))
        && has_no_days(by_day)
        && has_none(&by_month_day)
    {
        one(alloc, civil(day).day)
    } else {
        Ok(by_month_day)
    }
}

fn one(alloc: Global, number: u8) -> Result<Small, AllocError>
    ensures { IfOk result (λ xs. xs ≡ pos number ∷ []) }
{
    let mut numbers = Vec::new(alloc);
    numbers.push(i32::from(number))?;
    Small::new(numbers)
}

/// The months, with the start's where a yearly rule without days of the year has none, and has days of the month or none of
/// the week.
pub(crate) fn with_months(
    alloc: Global,
    frequency: Freq,
    day: i64,
    by_day: &NDays,
    by_month_day: &Small,
    by_month: Small,
    by_year_day: &Small,
) -> Result<Small, AllocError>
    requires { unsigned_abs day < 2 ^ 42 }
    ensures { IfOk result (λ xs. xs ≡ implied_months frequency day by_day.now by_month_day.now by_month by_year_day.now) }
{
    if is_dated_yearly(frequency, &by_month, by_year_day)
        && (!has_none(by_month_day) || has_no_days(by_day))
    {
        one(alloc, civil(day).month)
    } else {
        Ok(by_month)
    }
}
