//! The days that a rule moves to: the last of a month that overflows, or the first after it.
ghost use Rattle.std.specs.Prelude.{◌≡◌, ◌+◌, ◌≤◌, ◌<◌, ℕ, ℤ, pos, true, false, ◌+ℤ◌, ◌≤ℤ◌, ◌&&◌, ◌^◌, int_lt, unsigned_abs, IfSome, IsNone};
ghost use Rattle.std.specs.List.{list_any};
ghost use Rattle.std.specs.Ordering.{int_eq};
ghost use Rattle.spec_series.specs.Periods.{month_last};
ghost use Rattle.spec_series.specs.Places.{empty_or_any};
ghost use Rattle.spec_series.specs.RuleSets.{is_beyond_month, is_moved, is_overflow, month_matches};
ghost use Rattle.rule_expand.specs.Near.{IsNear};
ghost use Rattle.rule_expand.specs.Walk.{IsFirstMatch, IsFirstPlain, NonePlain};

use crate::dated::{Dated, days_to_end, month_end, next_month, with_date};
use crate::matching::{last_of, low_of};
use crate::occurs::in_months;
use crate::set::origin;
use spec_series::by_part::{Skip, Small};
use spec_series::rule::Rule;

// The first day of the month that a month of this length hasn't.
fn first_beyond(length: u8) -> i32
    ensures { result ≡ pos (length + 1) }
{
    i32::from(length) + 1
}

// Whether an item is a day of the month that the month hasn't.
fn has_beyond(items: &Small, length: u8) -> bool
    ensures { result ≡ list_any (λ k. int_lt (pos length) k) items.now }
{
    items.at_least(first_beyond(length)).is_some()
}

// Whether the month of a day is one of the rule's, and hasn't all days that are asked for.
fn overflows(rule: &Rule, at: Dated) -> bool
    ensures { result ≡ (empty_or_any (month_matches at.day) rule.now.by_month && list_any (is_beyond_month at.day) rule.now.by_month_day) }
{
    if !in_months(&rule.by_month, at.month) {
        return false;
    }
    has_beyond(&rule.by_month_day, at.length)
}

// Whether the day is the last of its month.
fn is_last(at: Dated) -> bool
    ensures { result ≡ int_eq at.day (month_last at.day) }
{
    at.month_day == at.length
}

// The first of some days in a row that is the last of a month that overflows.
fn first_overflow(rule: &Rule, from: i64, last: i64) -> Option<i64>
    requires from { IsNear 2199023250000 from }
    requires last { last ≤ℤ (from +ℤ pos 400) }
    ensures none { IsNone result → (n : ℤ) → from ≤ℤ n → n ≤ℤ last → is_overflow rule.now n ≡ true → ⊥ }
    ensures some { IfSome result (IsFirstMatch (is_overflow rule.now) from last) }
{
    let mut at = with_date(from);
    while at.day <= last {
        let end = month_end(at);
        if end > last {
            return None;
        }
        if overflows(rule, at) {
            return Some(end);
        }
        at = next_month(at);
    }
    None
}

// Whether the day is the last of a month that overflows.
fn is_overflow_day(rule: &Rule, day: i64) -> bool
    requires { IsNear 2199023256000 day }
    ensures { result ≡ is_overflow rule.now day }
{
    let at = with_date(day);
    if !is_last(at) {
        return false;
    }
    overflows(rule, at)
}

/// Whether the rule moves to a day, whatever its phase.
pub(crate) fn is_moved_day(rule: &Rule, day: i64) -> bool
    requires { IsNear 2199023255552 day }
    ensures { result ≡ is_moved rule.now day }
{
    match rule.skip {
        Skip::Omit => false,
        Skip::Backward => is_overflow_day(rule, day),
        Skip::Forward => is_overflow_day(rule, day - 1),
    }
}

/// Whether the rule moves to a day what a month hasn't, whatever its phase. Takes no memory.
#[tactic(auto, using(crate::proofs::Range::size_41))]
pub fn moved_on(rule: &Rule, day: i64) -> bool
    requires { unsigned_abs day < 2 ^ 41 }
    ensures { result ≡ is_moved rule.now day }
{
    is_moved_day(rule, day)
}

// The days from one on that the rule surely doesn't move to: up to that of the month's end.
fn days_unmoved(rule: &Rule, day: i64) -> u32
    requires { IsNear 274877906944 day }
    ensures unmoved { (i : ℕ) → i < result → is_moved rule.now (day +ℤ pos i) ≡ false }
    ensures near { result ≤ 31 }
{
    let at = with_date(origin(rule.skip, day));
    u32::from(days_to_end(at))
}

/// How many days from one on the rule surely doesn't move to what a month hasn't, whatever its phase: up to the month's last day, or
/// to the first after it. Takes no memory.
#[tactic(auto, using(crate::proofs::Skips::size_38))]
pub fn unmoved_days(rule: &Rule, day: i64) -> u32
    requires { unsigned_abs day < 2 ^ 38 }
    ensures unmoved { (i : ℕ) → i < result → is_moved rule.now (day +ℤ pos i) ≡ false }
    ensures near { result ≤ 31 }
{
    days_unmoved(rule, day)
}

/// The first day after another of a period that begins with `first` and has so many days more, which is the last of a month that overflows.
pub(crate) fn first_overflow_in(rule: &Rule, first: i64, more: u32, after: i64) -> Option<i64>
    requires near { IsNear 2199023248000 first }
    requires after { IsNear 2199023248000 after }
    requires more { more ≤ 366 }
    ensures none { IsNone result → NonePlain (is_overflow rule.now) after first more }
    ensures some { IfSome result (IsFirstPlain (is_overflow rule.now) after first more) }
{
    let from = low_of(first, after);
    let last = last_of(first, more);
    if from > last {
        return None;
    }
    first_overflow(rule, from, last)
}
