//! Days of a period that can be passed over, since their places aren't asked for.
ghost use Rattle.std.specs.Prelude.{◌≡◌, ℕ, ◌+◌, ◌-◌, ◌*◌, ◌/◌, ◌<◌, ◌≤◌, ◌+ℤ◌, pos, false};
ghost use Rattle.std.specs.List.{list_any};
ghost use Rattle.spec_series.specs.Places.{is_place};
ghost use Rattle.spec_series.specs.RuleSets.{is_kept};
ghost use Rattle.rule_expand.specs.Near.{IsNear};
ghost use Rattle.rule_expand.specs.Walk.{IsWholePeriod};

use crate::next_item::days_to_item;
use crate::occurs::{Around, ahead, count_matching, has_place, is_weekly};
use spec_series::by_part::Small;
use spec_series::rule::Rule;

// How many matching days in a row have no place that an item asks for, where so many of their period come before them, and so
// many are left with them.
fn unasked_places(items: &Small, before: u32, left: u32) -> u32
    requires before { before ≤ 366 }
    requires some { 1 ≤ left }
    requires left { left ≤ 367 }
    ensures bound { result ≤ left }
    ensures none { (j : ℕ) → j < result → list_any (is_place (before + j + 1) (left - j)) items.now ≡ false }
{
    if has_place(items, before + 1, left) {
        return 0;
    }
    let around = Around {
        before,
        after: left - 1,
    };
    days_to_item(items, around)
}

// So many matching days in whole weeks, each with some of them, but no more days than there are.
fn days_of_weeks(matching: u32, week: u32, days: u32) -> u32
    requires matching { matching ≤ 367 }
    requires some { 1 ≤ week }
    ensures bound { result ≤ days }
    ensures weeks { result ≤ (matching / week) * 7 }
{
    let found = (matching / week) * 7;
    if found < days { found } else { days }
}

/// How many days of a period, which has `count` from the first on, the rule surely doesn't keep, behind those that are passed.
/// Where it looks at days of the week alone, these are the whole weeks up to the next place that is asked for; else none.
pub(crate) fn days_unasked(rule: &Rule, first: i64, count: u32, passed: u32) -> u32
    requires near { IsNear 2199023248000 first }
    requires small { count ≤ 367 }
    requires passed { passed ≤ count }
    requires whole { IsWholePeriod rule.now first count }
    ensures bound { passed + result ≤ count }
    ensures unkept { (k : ℕ) → passed ≤ k → k < passed + result → is_kept rule.now (first +ℤ pos k) ≡ false }
{
    if rule.by_set.items().is_empty() || !is_weekly(rule) {
        return 0;
    }
    let from = ahead(first, passed);
    let before = count_matching(rule, first, passed);
    let left = count_matching(rule, from, count - passed);
    let week = count_matching(rule, from, 7);
    if left == 0 || week == 0 {
        return 0;
    }
    let unasked = unasked_places(&rule.by_set, before, left);
    days_of_weeks(unasked, week, count - passed)
}
