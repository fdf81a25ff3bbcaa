//! Whether a rule keeps a day, looked at by its month and its weekday first.
ghost use Rattle.std.specs.Prelude.{◌≡◌, ℕ, ◌<◌, ◌≤◌, ◌^◌, ◌==◌, ◌&&◌, true, false, pos, ◌+ℤ◌, unsigned_abs};
ghost use Rattle.residue_clash.specs.Kinds.{days_of, is_backward, is_forward};
ghost use Rattle.std.specs.Ordering.{int_eq};
ghost use Rattle.spec_series.specs.RuleLimits.{is_empty};
ghost use Rattle.spec_series.specs.Places.{empty_or_any};
ghost use Rattle.spec_series.specs.RuleSets.{is_kept, is_moved};

use civil_days::{civil, weekday};
use rule_expand::{kept_on, moved_on, unkept_days, unmoved_days};
use spec_series::by_part::{NDays, Skip, Small};
use spec_series::rule::Rule;

// Whether an item of a part that isn't empty is the month.
fn is_in_months(months: &Small, month: u8) -> bool
    ensures { result ≡ empty_or_any (λ k. int_eq k (pos month)) months.now }
{
    months.items().is_empty() || months.contains(month as i32)
}

// Whether an item of a part that isn't empty has the weekday.
fn is_in_weekdays(days: &NDays, weekday: u8) -> bool
    ensures { result ≡ empty_or_any (λ d. weekday == d.day) days.now }
{
    days.items().is_empty() || days.has_weekday(weekday)
}

// Whether the rule keeps the day, whatever its phase.
fn is_kept_on(rule: &Rule, day: i64) -> bool
    requires { unsigned_abs day < 2 ^ 38 }
    ensures { result ≡ is_kept rule.now day }
{
    // Most days fall to these two, which are cheap.
    if !is_in_weekdays(&rule.by_day, weekday(day)) {
        return false;
    }
    if !is_in_months(&rule.by_month, civil(day).month) {
        return false;
    }
    kept_on(rule, day)
}

// Whether the rule moves backward.
fn moves_backward(rule: &Rule) -> bool
    ensures { result ≡ is_backward rule.now.skip }
{
    match rule.skip {
        Skip::Omit | Skip::Forward => false,
        Skip::Backward => true,
    }
}

/// Whether the rule moves forward.
pub(crate) fn moves_forward(rule: &Rule) -> bool
    ensures { result ≡ is_forward rule.now.skip }
{
    match rule.skip {
        Skip::Omit | Skip::Backward => false,
        Skip::Forward => true,
    }
}

// Whether the rule moves backward to the day.
fn is_moved_back(rule: &Rule, day: i64) -> bool
    requires { unsigned_abs day < 2 ^ 38 }
    ensures { result ≡ (is_backward rule.now.skip && is_moved rule.now day) }
{
    moves_backward(rule) && moved_on(rule, day)
}

// Whether the rule keeps the day, or moves backward to it, whatever its phase.
#[tactic(auto, unfolding(crate::specs::Kinds::days_of))]
fn is_steady_on(rule: &Rule, day: i64) -> bool
    requires { unsigned_abs day < 2 ^ 38 }
    ensures { result ≡ days_of false rule.now day }
{
    is_kept_on(rule, day) || is_moved_back(rule, day)
}

// Whether the rule moves forward to the day, whatever its phase.
#[tactic(auto, unfolding(crate::specs::Kinds::days_of))]
fn is_pushed_on(rule: &Rule, day: i64) -> bool
    requires { unsigned_abs day < 2 ^ 38 }
    ensures { result ≡ days_of true rule.now day }
{
    moves_forward(rule) && moved_on(rule, day)
}

/// Whether a rule gives the day as one of a kind, whatever its phase.
pub(crate) fn is_given_on(rule: &Rule, pushed: bool, day: i64) -> bool
    requires { unsigned_abs day < 2 ^ 38 }
    ensures { result ≡ days_of pushed rule.now day }
{
    if pushed {
        is_pushed_on(rule, day)
    } else {
        is_steady_on(rule, day)
    }
}

// Whether a rule has neither places nor days of the month or of the year.
fn names_no_dates(rule: &Rule) -> bool
    ensures { result ≡ (is_empty rule.now.by_set && (is_empty rule.now.by_month_day && is_empty rule.now.by_year_day)) }
{
    rule.by_set.items().is_empty()
        && rule.by_month_day.items().is_empty()
        && rule.by_year_day.items().is_empty()
}

/// How many days from one on a rule surely doesn't give as days of a kind.
pub(crate) fn ungiven_days(rule: &Rule, pushed: bool, day: i64) -> u32
    requires { unsigned_abs day < 2 ^ 38 }
    ensures ungiven { (i : ℕ) → i < result → days_of pushed rule.now (day +ℤ pos i) ≡ false }
    ensures near { result ≤ 367 }
{
    if pushed {
        return unmoved_days(rule, day);
    }
    // Of days of the week and months alone one day after another is told at less cost.
    if names_no_dates(rule) {
        return 0;
    }
    if moves_backward(rule) {
        return 0;
    }
    unkept_days(rule, day)
}
