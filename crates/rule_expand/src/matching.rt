//! The days that match a rule, one after another.
ghost use Rattle.std.specs.Prelude.{◌≡◌, ◌≤◌, ◌<◌, length, ℤ, pos, true, false, ◌+ℤ◌, ◌-ℤ◌, ◌<ℤ◌, ◌≤ℤ◌, IfSome, IsNone};
ghost use Rattle.spec_series.specs.Periods.{month_first, month_last, year_first, year_last};
ghost use Rattle.spec_series.specs.Places.{empty_or_any};
ghost use Rattle.spec_series.specs.RuleSets.{counts_in_month, day_matches, month_day_matches, nday_matches, scope_first, scope_last, year_day_matches};
ghost use Rattle.rule_expand.specs.Near.{IsNear};
ghost use Rattle.rule_expand.specs.Walk.{IsFirstMatch, IsFirstPlain, NonePlain};

use crate::dated::{Dated, next, next_month, with_date};
use crate::next_item::days_to_item;
use crate::occurs::{Around, ahead, in_month_days, in_months, in_weekdays, in_year, names_all};
use spec_series::by_part::Freq;
use spec_series::rule::Rule;

/// Whether each part of a rule matches the day.
pub(crate) fn matches(rule: &Rule, at: Dated) -> bool
    requires { IsNear 2199023260000 at.day }
    ensures { result ≡ day_matches rule.now at.day }
{
    if !in_months(&rule.by_month, at.month) {
        return false;
    }
    if !is_month_day(rule, at) {
        return false;
    }
    if !is_year_day(rule, at) {
        return false;
    }
    is_weekday(rule, at)
}

// Whether `byMonthDay` matches the day.
fn is_month_day(rule: &Rule, at: Dated) -> bool
    ensures { result ≡ empty_or_any (month_day_matches at.day) rule.now.by_month_day }
{
    let around = around_in_month(at);
    in_month_days(&rule.by_month_day, around.before + 1, around.after + 1)
}

// Whether `byYearDay` matches the day.
fn is_year_day(rule: &Rule, at: Dated) -> bool
    requires { IsNear 2199023260000 at.day }
    ensures { result ≡ empty_or_any (year_day_matches at.day) rule.now.by_year_day }
{
    if rule.by_year_day.items().is_empty() {
        return true;
    }
    let around = around_in_year(at);
    in_month_days(&rule.by_year_day, around.before + 1, around.after + 1)
}

// Whether `byDay` matches the day.
fn is_weekday(rule: &Rule, at: Dated) -> bool
    requires { IsNear 2199023260000 at.day }
    ensures { result ≡ empty_or_any (nday_matches (counts_in_month rule.now.frequency rule.now.by_month) at.day) rule.now.by_day }
{
    if rule.by_day.items().is_empty() {
        return true;
    }
    if !rule.by_day.has_weekday(at.weekday) {
        return false;
    }
    if names_all(&rule.by_day, at.weekday) {
        return true;
    }
    let scope = scope_of(rule, at);
    in_weekdays(
        &rule.by_day,
        at.weekday,
        scope.before / 7 + 1,
        scope.after / 7 + 1,
    )
}

// The days of the month before and after a day.
fn around_in_month(at: Dated) -> Around
    ensures first { month_first at.day ≡ at.day -ℤ pos result.before }
    ensures last { month_last at.day ≡ at.day +ℤ pos result.after }
    ensures before { result.before ≤ 366 }
    ensures after { result.after ≤ 366 }
{
    Around {
        before: at.month_day as u32 - 1,
        after: (at.length - at.month_day) as u32,
    }
}

// The days of the year before and after a day.
fn around_in_year(at: Dated) -> Around
    requires { IsNear 2199023260000 at.day }
    ensures first { year_first at.day ≡ at.day -ℤ pos result.before }
    ensures last { year_last at.day ≡ at.day +ℤ pos result.after }
    ensures before { result.before ≤ 366 }
    ensures after { result.after ≤ 366 }
{
    in_year(at.day)
}

// The days before and after a day among which days of the week are counted.
fn scope_of(rule: &Rule, at: Dated) -> Around
    requires { IsNear 2199023260000 at.day }
    ensures first { scope_first (counts_in_month rule.now.frequency rule.now.by_month) at.day ≡ at.day -ℤ pos result.before }
    ensures last { scope_last (counts_in_month rule.now.frequency rule.now.by_month) at.day ≡ at.day +ℤ pos result.after }
    ensures before { result.before ≤ 366 }
    ensures after { result.after ≤ 366 }
{
    match rule.frequency {
        Freq::Monthly => around_in_month(at),
        _ => {
            if rule.by_month.items().is_empty() {
                in_year(at.day)
            } else {
                around_in_month(at)
            }
        }
    }
}

// The next day of the year that `byYearDay` may match, or the first of the next year.
fn next_year_day(rule: &Rule, at: Dated) -> Dated
    requires near { IsNear 2199023260000 at.day }
    requires unmatched { day_matches rule.now at.day ≡ false }
    requires parts { 0 < length rule.now.by_year_day }
    ensures later { at.day <ℤ result.day }
    ensures near { result.day ≤ℤ (at.day +ℤ pos 400) }
    ensures none { (n : ℤ) → at.day ≤ℤ n → n <ℤ result.day → day_matches rule.now n ≡ false }
{
    let days = days_to_item(&rule.by_year_day, around_in_year(at));
    with_date(ahead(at.day, days))
}

// The next day of the month that `byMonthDay` may match, or the first of the next month.
fn next_month_day(rule: &Rule, at: Dated) -> Dated
    requires near { IsNear 2199023260000 at.day }
    requires unmatched { day_matches rule.now at.day ≡ false }
    requires parts { 0 < length rule.now.by_month_day }
    ensures later { at.day <ℤ result.day }
    ensures near { result.day ≤ℤ (at.day +ℤ pos 400) }
    ensures none { (n : ℤ) → at.day ≤ℤ n → n <ℤ result.day → day_matches rule.now n ≡ false }
{
    let days = days_to_item(&rule.by_month_day, around_in_month(at));
    with_date(ahead(at.day, days))
}

/// The next day that may match, where a day doesn't: a month that `byMonth` leaves out is passed over, and days that `byYearDay` or `byMonthDay` does.
pub(crate) fn step(rule: &Rule, at: Dated) -> Dated
    requires near { IsNear 2199023260000 at.day }
    requires unmatched { day_matches rule.now at.day ≡ false }
    ensures later { at.day <ℤ result.day }
    ensures near { result.day ≤ℤ (at.day +ℤ pos 400) }
    ensures none { (n : ℤ) → at.day ≤ℤ n → n <ℤ result.day → day_matches rule.now n ≡ false }
{
    if !in_months(&rule.by_month, at.month) {
        next_month(at)
    } else if !rule.by_year_day.items().is_empty() {
        next_year_day(rule, at)
    } else if rule.by_month_day.items().is_empty() {
        next(at)
    } else {
        next_month_day(rule, at)
    }
}

// The first matching day of some days in a row.
fn first_matching(rule: &Rule, from: i64, last: i64) -> Option<i64>
    requires from { IsNear 2199023250000 from }
    requires last { last ≤ℤ (from +ℤ pos 400) }
    ensures none { IsNone result → (n : ℤ) → from ≤ℤ n → n ≤ℤ last → day_matches rule.now n ≡ true → ⊥ }
    ensures some { IfSome result (IsFirstMatch (day_matches rule.now) from last) }
{
    let mut at = with_date(from);
    while at.day <= last {
        if matches(rule, at) {
            return Some(at.day);
        }
        at = step(rule, at);
    }
    None
}

/// The later of a period's first day and the day after another.
pub(crate) fn low_of(first: i64, after: i64) -> i64
    requires { IsNear 2199023248000 after }
    ensures low { first ≤ℤ result }
    ensures past { after <ℤ result }
    ensures least { (n : ℤ) → first ≤ℤ n → after <ℤ n → result ≤ℤ n }
    ensures near { IsNear 2199023248000 first → IsNear 2199023250000 result }
{
    if first > after { first } else { after + 1 }
}

/// The first day after another of a period that begins with `first` and has so many days more, for a rule that keeps every matching day.
pub(crate) fn first_plain(rule: &Rule, first: i64, more: u32, after: i64) -> Option<i64>
    requires near { IsNear 2199023248000 first }
    requires after { IsNear 2199023248000 after }
    requires more { more ≤ 366 }
    ensures none { IsNone result → NonePlain (day_matches rule.now) after first more }
    ensures some { IfSome result (IsFirstPlain (day_matches rule.now) after first more) }
{
    let from = low_of(first, after);
    let last = last_of(first, more);
    if from > last {
        return None;
    }
    first_matching(rule, from, last)
}

/// The last day of a period that has so many days more than its first.
pub(crate) fn last_of(first: i64, more: u32) -> i64
    requires near { IsNear 2199023248000 first }
    requires more { more ≤ 366 }
    ensures { result ≡ first +ℤ pos more }
{
    first + i64::from(more)
}
