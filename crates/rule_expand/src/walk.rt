//! The next day that is due: one that a period in phase gives.
ghost use Rattle.std.specs.Prelude.{[], ◌^◌, unsigned_abs, ℕ, ◌≡◌, ◌+◌, ◌-◌, ◌+ℤ◌, ◌*◌, ◌-ℤ◌, ◌*ℤ◌, ◌<◌, ◌≤◌, ◌<ℤ◌, ◌≤ℤ◌, ℤ, pos, true, IfSome, IsNone};
ghost use Rattle.std.specs.Int.{IsInRange};
ghost use Rattle.spec_series.specs.Periods.{period_number};
ghost use Rattle.spec_series.specs.RuleSets.{is_kept, is_moved, is_overflow, moved_from};
ghost use Rattle.spec_time.specs.CivilDay.{day_number};
ghost use Rattle.spec_time.specs.Floor.{floor_div, modulo};
ghost use Rattle.rule_expand.specs.Near.{IsNear, most};
ghost use Rattle.rule_expand.specs.Walk.{IsWholePeriod, first_of, IsFirstPeriod, IsPhaseDay, IsNextDay, NoneIn, IsFirstIn, IsFirstMoved, NoneGiven, IsFirstGiven, period_to, periods, NoneKept, IsFirstKept};
ghost use Rattle.rule_expand.specs.Sets.{is_up_to, IsNearBound};

use crate::bound::Bound;
use crate::dated::{next, with_date};
use crate::matching::{first_plain, matches};
use crate::moved::first_overflow_in;
use crate::occurs::{ahead, count_matching, date_at, in_month_days, in_period};
use crate::series::lower_of;
use crate::unasked::days_unasked;
use civil_days::day_of;
use spec_series::by_part::{Freq, Skip};
use spec_series::rule::Rule;

// The week's number.
fn week_number(day: i64, week_start: u8) -> i64
    requires near { IsNear 2199023260000 day }
    requires start { week_start ≤ 6 }
    ensures value { result ≡ floor_div (day +ℤ pos 3 -ℤ pos week_start) 7 }
    ensures near { IsNear 2199023300000 result }
{
    (day + 3 - week_start as i64).div_euclid(7)
}

// The month's number.
fn month_number(year: i64, month: u8) -> i64
    requires near { IsNear 12100000000 year }
    requires month { month ≤ 12 }
    ensures value { result ≡ pos 12 *ℤ year +ℤ pos month -ℤ pos 1 }
    ensures near { IsNear 2199023300000 result }
{
    12 * year + month as i64 - 1
}

// The number of a day's period.
#[tactic(auto, using(crate::proofs::Dates::whole), unfolding(spec_series::specs::Periods::period_by))]
pub(crate) fn number_of(rule: &Rule, day: i64) -> i64
    requires { IsNear 2199023260000 day }
    ensures value { result ≡ period_number rule.now day }
    ensures near { IsNear 2199023300000 result }
{
    match rule.frequency {
        Freq::Daily => day,
        Freq::Weekly => week_number(day, rule.week_start),
        Freq::Monthly => {
            let date = date_at(day);
            month_number(date.year, date.month)
        }
        Freq::Yearly => date_at(day).year,
    }
}

// The first number at or after one that leaves the same remainder as another.
fn first_period(here: i64, start: i64, interval: u32) -> i64
    requires here { IsNear 2199023300000 here }
    requires start { IsNear 2199023300000 start }
    requires interval { (1 ≤ interval) × (interval ≤ 1000) }
    ensures value { result ≡ here +ℤ pos (modulo (start -ℤ here) interval) }
    ensures near { IsNear 2199023302000 result }
{
    here + (start - here).rem_euclid(interval as i64)
}

// The number some steps later.
fn steps_later(first: i64, steps: u32, interval: u32) -> i64
    requires near { IsNear 2199023302000 first }
    requires steps { steps ≤ 146097 }
    requires interval { interval ≤ 1000 }
    ensures value { result ≡ first +ℤ pos (steps * interval) }
    ensures near { IsNear 2199170000000 result }
{
    first + (steps * interval) as i64
}

// How many periods are looked at.
fn walk_length(frequency: Freq) -> u32
    ensures value { result ≡ periods frequency + 1 }
    ensures bound { result ≤ 146098 }
{
    match frequency {
        Freq::Daily => 146_098,
        Freq::Weekly => 20_872,
        Freq::Monthly => 4_801,
        Freq::Yearly => 401,
    }
}

// The first day of a week.
fn first_of_week(number: i64, week_start: u8) -> i64
    requires near { IsNear 2199300000000 number }
    requires start { week_start ≤ 6 }
    ensures { result ≡ pos 7 *ℤ number -ℤ pos 3 +ℤ pos week_start }
{
    7 * number - 3 + week_start as i64
}

// The first day of a month.
fn first_of_month(year: i64, month: u8) -> i64
    requires near { IsNear 6250000000 year }
    requires month { IsInRange 1 12 month }
    ensures { result ≡ day_number year month 1 }
{
    match day_of(year, month, 1) {
        Some(day) => day,
        None => 0,
    }
}

// The year of a month's number.
fn year_of_month(number: i64) -> i64
    requires { IsNear 74000000000 number }
    ensures value { result ≡ floor_div number 12 }
    ensures near { IsNear 6250000000 result }
{
    number.div_euclid(12)
}

// The month of a month's number.
fn month_of_month(number: i64) -> u8
    ensures value { result ≡ modulo number 12 + 1 }
    ensures bound { IsInRange 1 12 result }
{
    number.rem_euclid(12) as u8 + 1
}

// The first day of a period.
#[tactic(auto, using(crate::proofs::Dates::whole), unfolding(crate::specs::Walk::first_of))]
fn first_day(rule: &Rule, number: i64) -> i64
    requires near { IsNear (most rule.now.frequency) number }
    ensures { result ≡ first_of rule.now.frequency rule.now.week_start number }
{
    match rule.frequency {
        Freq::Daily => number,
        Freq::Weekly => first_of_week(number, rule.week_start),
        Freq::Monthly => first_of_month(year_of_month(number), month_of_month(number)),
        Freq::Yearly => first_of_month(number, 1),
    }
}

// The first day of a period that lies after another and is kept.
pub(crate) fn first_in_period(rule: &Rule, number: i64, after: i64) -> Option<i64>
    requires near { IsNear (most rule.now.frequency) number }
    requires days { IsNear 2199023248000 (first_of rule.now.frequency rule.now.week_start number) }
    requires after { IsNear 2198000000000 after }
    ensures none { IsNone result → NoneIn rule.now (is_kept rule.now) after number }
    ensures some { IfSome result (IsFirstIn rule.now (is_kept rule.now) after number) }
{
    if rule.by_set.items().is_empty() {
        first_matching_in(rule, number, after)
    } else {
        first_placed_in(rule, number, after)
    }
}

// The same for a rule without places, which keeps every matching day.
fn first_matching_in(rule: &Rule, number: i64, after: i64) -> Option<i64>
    requires near { IsNear (most rule.now.frequency) number }
    requires days { IsNear 2199023248000 (first_of rule.now.frequency rule.now.week_start number) }
    requires after { IsNear 2198000000000 after }
    requires plain { rule.now.by_set ≡ [] }
    ensures none { IsNone result → NoneIn rule.now (is_kept rule.now) after number }
    ensures some { IfSome result (IsFirstIn rule.now (is_kept rule.now) after number) }
{
    let day = first_day(rule, number);
    let length = in_period(rule, day).after;
    first_plain(rule, day, length, after)
}

// The same for a rule with places.
fn first_placed_in(rule: &Rule, number: i64, after: i64) -> Option<i64>
    requires near { IsNear (most rule.now.frequency) number }
    requires days { IsNear 2199023248000 (first_of rule.now.frequency rule.now.week_start number) }
    ensures none { IsNone result → NoneIn rule.now (is_kept rule.now) after number }
    ensures some { IfSome result (IsFirstIn rule.now (is_kept rule.now) after number) }
{
    let day = first_day(rule, number);
    let length = in_period(rule, day).after;
    match first_kept_place(rule, day, length + 1, after) {
        Some(k) => Some(ahead(day, k)),
        None => None,
    }
}

// The first day of a period after another, which is the last of a month that overflows.
fn overflow_in(rule: &Rule, number: i64, after: i64) -> Option<i64>
    requires near { IsNear (most rule.now.frequency) number }
    requires days { IsNear 2199023248000 (first_of rule.now.frequency rule.now.week_start number) }
    requires after { IsNear 2198000000001 after }
    ensures none { IsNone result → NoneIn rule.now (is_overflow rule.now) after number }
    ensures some { IfSome result (IsFirstIn rule.now (is_overflow rule.now) after number) }
    ensures near { IfSome result (IsNear 2199023260000) }
{
    let day = first_day(rule, number);
    let length = in_period(rule, day).after;
    first_overflow_in(rule, day, length, after)
}

// The first day after another that a period moves to.
fn moved_in(rule: &Rule, number: i64, after: i64) -> Option<i64>
    requires near { IsNear (most rule.now.frequency) number }
    requires days { IsNear 2199023248000 (first_of rule.now.frequency rule.now.week_start number) }
    requires after { IsNear 2198000000000 after }
    ensures none { IsNone result → (m : ℤ) → period_number rule.now (moved_from rule.now.skip m) ≡ number → after <ℤ m → is_moved rule.now m ≡ true → ⊥ }
    ensures some { IfSome result (IsFirstMoved rule.now after number) }
{
    match rule.skip {
        Skip::Omit => None,
        Skip::Backward => overflow_in(rule, number, after),
        Skip::Forward => match overflow_in(rule, number, after - 1) {
            Some(last) => Some(ahead(last, 1)),
            None => None,
        },
    }
}

// The first day after another that a period gives.
fn first_given(rule: &Rule, number: i64, after: i64) -> Option<i64>
    requires near { IsNear (most rule.now.frequency) number }
    requires days { IsNear 2199023248000 (first_of rule.now.frequency rule.now.week_start number) }
    requires after { IsNear 2198000000000 after }
    ensures none { IsNone result → NoneGiven rule.now after number }
    ensures some { IfSome result (IsFirstGiven rule.now after number) }
{
    let kept = first_in_period(rule, number, after);
    let moved = moved_in(rule, number, after);
    lower_of(kept, moved)
}

// The number of the last period that begins on a day up to a bound.
fn last_period(rule: &Rule, bound: Bound) -> i64
    requires { IsNearBound 2199023260000 bound }
    ensures { result ≡ period_to rule.now bound }
{
    match bound {
        Bound::Endless => i64::MAX,
        Bound::Last(last) => number_of(rule, last),
    }
}

// The first day after another that is due: that a period in phase with that of the start's day gives. Days past the bound needn't be found.
pub(crate) fn next_day(rule: &Rule, start_day: i64, after: i64, bound: Bound) -> Option<i64>
    requires start { IsNear 10000000 start_day }
    requires after { IsNear 2198000000000 after }
    requires bound { IsNearBound 2199023260000 bound }
    requires reach { (p : ℤ) (j : ℕ) → IsFirstPeriod rule.now start_day after p → j ≤ periods rule.now.frequency
        → IsNear (most rule.now.frequency) (p +ℤ pos (j * rule.now.interval)) × IsNear 2199023248000 (first_of rule.now.frequency rule.now.week_start (p +ℤ pos (j * rule.now.interval))) }
    ensures none { IsNone result → (m : ℤ) → IsPhaseDay rule.now start_day after m → is_up_to bound m ≡ true → ⊥ }
    ensures some { IfSome result (IsNextDay rule.now start_day after) }
{
    let here = number_of(rule, after);
    let start = number_of(rule, start_day);
    let first = first_period(here, start, rule.interval);
    let high = last_period(rule, bound);
    for j in 0..walk_length(rule.frequency) {
        let number = steps_later(first, j, rule.interval);
        if number > high {
            return None;
        }
        if let Some(day) = first_given(rule, number, after) {
            return Some(day);
        }
    }
    None
}

// How many of the days of a period, of which it has so many from the first on, don't lie after another.
fn days_up_to(first: i64, count: u32, after: i64) -> u32
    requires near { IsNear 2199023248000 first }
    requires small { count ≤ 367 }
    ensures bound { result ≤ count }
    ensures early { (k : ℕ) → k < result → (first +ℤ pos k) ≤ℤ after }
    ensures late { (k : ℕ) → result ≤ k → k < count → after <ℤ (first +ℤ pos k) }
{
    if after < first {
        return 0;
    }
    if after >= first + i64::from(count) {
        return count;
    }
    (after - first) as u32 + 1
}

// The place of the first day after another that is kept, of the days of a period.
fn first_kept_place(rule: &Rule, first: i64, count: u32, after: i64) -> Option<u32>
    requires near { IsNear 2199023248000 first }
    requires small { count ≤ 367 }
    requires whole { IsWholePeriod rule.now first count }
    ensures none { IsNone result → NoneKept rule.now after first count }
    ensures some { IfSome result (IsFirstKept rule.now after first count) }
{
    let early = days_up_to(first, count, after);
    let passed = early + days_unasked(rule, first, count, early);
    let from = ahead(first, passed);
    let mut place = count_matching(rule, first, passed);
    let total = place + count_matching(rule, from, count - passed);
    let mut at = with_date(from);
    for k in passed..count {
        if matches(rule, at) {
            if place >= total {
                return None;
            }
            place += 1;
            if in_month_days(&rule.by_set, place, total + 1 - place) {
                return Some(k);
            }
        }
        at = next(at);
    }
    None
}

/// The number of a day's period (RFC 8984 section 4.3.3): of the day, the week, the month or the year. Takes no memory.
#[tactic(auto, using(crate::proofs::Range::size_41))]
pub fn period(rule: &Rule, day: i64) -> i64
    requires { unsigned_abs day < 2 ^ 41 }
    ensures value { result ≡ period_number rule.now day }
    ensures bound { unsigned_abs result < 2 ^ 42 }
{
    number_of(rule, day)
}
