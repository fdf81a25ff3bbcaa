//! The occurrences of a series.
ghost use Rattle.std.specs.Prelude.{◌^◌, ◌&&◌, ◌||◌, int_lt, unsigned_abs, int_le, ℕ, ◌≡◌, ◌+◌, ◌-◌, ◌+ℤ◌, ◌*◌, ◌-ℤ◌, ◌*ℤ◌, ◌<◌, ◌≤◌, ◌≤ℤ◌, ℤ, pos, true, IfSome, IsNone, Some};
ghost use Rattle.spec_series.specs.RuleSets.{is_in_set};
ghost use Rattle.spec_series.specs.SeriesLimits.{is_named};
ghost use Rattle.spec_time.specs.Walls.{second_of_wall};
ghost use Rattle.spec_time.specs.Floor.{floor_div};
ghost use Rattle.spec_series.specs.Given.{is_after, is_sooner, IsFirstOf};
ghost use Rattle.rule_expand.specs.Later.{IsLaterRid, IsLaterOwn, IsLaterOne, IsOwnSecond, IsUntil, is_until, sooner, started, until_found};
ghost use Rattle.rule_expand.specs.Near.{IsNear};
ghost use Rattle.rule_expand.specs.Sets.{is_in_bound, is_regular, is_up_to, IsFirstFrom, IsNearBound};
ghost use Rattle.spec_series.specs.declared.rule.Rule.{Rule};
ghost use Rattle.std.specs.Ordering.{int_eq};
ghost use Rattle.rule_expand.specs.Least.{IsLeastOf, IsSomeDay, lower};

use crate::bound::Bound;
use crate::set::{next_in_set, second_of_day};
use spec_series::exception::Exceptions;
use spec_series::occurrence::{Occurrence, comes_after};
use spec_series::rule::Rule;
use spec_series::series::Series;
use spec_time::wall::Wall;

// The wall second of a day.
fn wall_of(day: i64, second: u32) -> i64
    requires day { IsNear 2198000000000 day }
    requires second { second < 86400 }
    ensures { result ≡ day *ℤ pos 86400 +ℤ pos second }
{
    day * 86_400 + second as i64
}

// The day after.
fn day_after(day: i64) -> i64
    requires { IsNear 2198000000000 day }
    ensures { result ≡ day +ℤ pos 1 }
{
    day + 1
}

// The first day of a rule's set at or after a day, and not past a bound, that no exception names.
fn next_regular(
    rule: &Rule,
    start: i64,
    exceptions: &Exceptions,
    from: i64,
    bound: Bound,
) -> Option<i64>
    requires start { IsNear 400000000000 start }
    requires from { IsNear 2197000000000 from }
    requires bound { IsNearBound 2199023260000 bound }
    requires rids { (w : ℤ) → is_named exceptions.now w ≡ true → IsNear 400000000000 w }
    ensures none { IsNone result → (n : ℤ) → from ≤ℤ n → is_regular exceptions.now (is_in_bound (is_in_set rule.now start) bound) (second_of_wall start) n ≡ true → ⊥ }
    ensures some { IfSome result (IsFirstFrom (is_regular exceptions.now (is_in_bound (is_in_set rule.now start) bound) (second_of_wall start)) from) }
    ensures near { IfSome result (IsNear 2198000000000) }
{
    let second = second_of_day(start);
    let mut here = from;
    loop {
        let Some(n) = next_in_set(rule, start, here, bound) else {
            return None;
        };
        if !exceptions.names(wall_of(n, second)) {
            return Some(n);
        }
        here = day_after(n);
    }
}

// The lower of two.
pub(crate) fn lower_of(a: Option<i64>, b: Option<i64>) -> Option<i64>
    ensures { result ≡ lower a b }
{
    match (a, b) {
        (None, _) => b,
        (Some(x), None) => Some(x),
        (Some(x), Some(y)) => Some(x.min(y)),
    }
}

// The first day at or after one, and not past a bound, of any rule's set that no exception names.
fn next_of_rules(
    rules: &[Rule],
    start: i64,
    exceptions: &Exceptions,
    from: i64,
    bound: Bound,
) -> Option<i64>
    requires start { IsNear 400000000000 start }
    requires from { IsNear 2197000000000 from }
    requires bound { IsNearBound 2199023260000 bound }
    requires rids { (w : ℤ) → is_named exceptions.now w ≡ true → IsNear 400000000000 w }
    ensures least { IsLeastOf (IsSomeDay exceptions.now start from bound rules.now) result }
    ensures near { IfSome result (IsNear 2198000000000) }
{
    let mut best = None;
    for r in rules {
        best = lower_of(best, next_regular(r, start, exceptions, from, bound));
    }
    best
}

// Whether an occurrence comes before another.
#[tactic(auto, unfolding(spec_series::specs::Given::is_sooner))]
fn comes_sooner(a: Occurrence, b: Occurrence) -> bool
    ensures { result ≡ is_sooner a b }
{
    precedes(
        a.start.seconds(),
        a.rid.seconds(),
        b.start.seconds(),
        b.rid.seconds(),
    )
}

// Whether a start and its recurrence id come before others.
fn precedes(start: i64, rid: i64, other: i64, other_rid: i64) -> bool
    ensures { result ≡ (int_lt start other || (int_eq start other && int_lt rid other_rid)) }
{
    start < other || (start == other && rid < other_rid)
}

// The sooner of two.
fn sooner_of(a: Option<Occurrence>, b: Option<Occurrence>) -> Option<Occurrence>
    ensures { result ≡ sooner a b }
{
    match (a, b) {
        (None, _) => b,
        (Some(_), None) => a,
        (Some(x), Some(y)) => { if comes_sooner(y, x) { b } else { a } }
    }
}

// Whether a wall second isn't after the last, where there is one.
fn is_by(wall: i64, last: Option<i64>) -> bool
    ensures { result ≡ is_until last wall }
{
    match last {
        None => true,
        Some(last) => wall <= last,
    }
}

// An occurrence, if it starts no later than the last wall second.
fn if_started(last: Option<i64>, o: Option<Occurrence>) -> Option<Occurrence>
    ensures { result ≡ started last o }
{
    let Some(x) = o else {
        return None;
    };
    if is_by(x.start.seconds(), last) {
        return Some(x);
    }
    None
}

// The last wall second at which an occurrence may start that comes before the one that was found, if one was.
fn until_found(last: Option<i64>, found: &Option<Occurrence>) -> Option<i64>
    ensures { result ≡ until_found last found.now }
{
    match found {
        None => last,
        Some(found) => Some(found.start.seconds()),
    }
}

// The first wall second that is itself after a start and a recurrence id.
fn first_second(from: i64, past: Option<i64>) -> i64
    requires { IsNear 144115188075855872 from }
    ensures value { (w : ℤ) → is_after from past w w ≡ int_le result w }
    ensures near { (from ≤ℤ result) × (result ≤ℤ (from +ℤ pos 1)) }
{
    match past {
        None => from,
        Some(p) => { if p < from { from } else { from + 1 } }
    }
}

// The first day whose second of the day isn't before a wall second.
fn day_at_or_after(wall: i64, second: u32) -> i64
    requires wall { IsNear 144115188075855873 wall }
    requires second { second < 86400 }
    ensures value { result ≡ floor_div (wall -ℤ pos second +ℤ pos 86399) 86400 }
    ensures near { IsNear 2197000000000 result }
{
    (wall - second as i64 + 86_399).div_euclid(86_400)
}

// The last day whose second of the day isn't after the last wall second, where there is one.
fn last_day_until(last: Option<i64>, second: u32) -> Bound
    requires last { IfSome last (IsNear 144115188075855872) }
    requires second { second < 86400 }
    ensures value { (n : ℤ) → is_up_to result n ≡ is_until last (n *ℤ pos 86400 +ℤ pos second) }
    ensures near { IsNearBound 2199023260000 result }
{
    match last {
        None => Bound::Endless,
        Some(last) => Bound::Last((last - second as i64).div_euclid(86_400)),
    }
}

// The first occurrence of a recurrence id, where there are rules.
fn next_own_day(series: &Series, from: i64, past: Option<i64>, last: Option<i64>) -> Option<i64>
    requires from { IsNear 144115188075855872 from }
    requires last { IfSome last (IsNear 144115188075855872) }
    requires start { IsNear 400000000000 series.now.start }
    requires rids { (w : ℤ) → is_named series.now.exceptions w ≡ true → IsNear 400000000000 w }
    ensures { IsLeastOf (IsOwnSecond series.now from past last) result }
{
    let start = series.start.seconds();
    let second = second_of_day(start);
    let low = first_second(from, past);
    let day = day_at_or_after(low, second);
    let bound = last_day_until(last, second);
    let rules = series.rules.items();
    let Some(n) = next_of_rules(rules, start, &series.exceptions, day, bound) else {
        return None;
    };
    Some(wall_of(n, second))
}

// The first second of a recurrence id that no exception names.
fn own_second(series: &Series, from: i64, past: Option<i64>, last: Option<i64>) -> Option<i64>
    requires from { IsNear 144115188075855872 from }
    requires last { IfSome last (IsNear 144115188075855872) }
    requires start { IsNear 400000000000 series.now.start }
    requires rids { (w : ℤ) → is_named series.now.exceptions w ≡ true → IsNear 400000000000 w }
    ensures { IsLeastOf (IsLaterRid series.now from past last) result }
{
    if !series.rules.items().is_empty() {
        return next_own_day(series, from, past, last);
    }
    let start = series.start.seconds();
    if !comes_after(start, start, from, past) {
        return None;
    }
    if !is_by(start, last) {
        return None;
    }
    if series.exceptions.names(start) {
        return None;
    }
    Some(start)
}

// Its occurrence.
fn next_own(series: &Series, from: i64, past: Option<i64>, last: Option<i64>) -> Option<Occurrence>
    requires from { IsNear 144115188075855872 from }
    requires last { IfSome last (IsNear 144115188075855872) }
    requires start { IsNear 400000000000 series.now.start }
    requires rids { (w : ℤ) → is_named series.now.exceptions w ≡ true → IsNear 400000000000 w }
    ensures { IsFirstOf (IsUntil last (IsLaterOwn series.now from past)) result }
{
    let Some(w) = own_second(series, from, past, last) else {
        return None;
    };
    Some(Occurrence {
        rid: Wall::new(w),
        start: Wall::new(w),
        length: series.length,
        occupying: series.occupying,
    })
}

// The first occurrence after a start and a recurrence id that starts no later than the last wall second.
fn first_after(
    series: &Series,
    from: i64,
    past: Option<i64>,
    last: Option<i64>,
) -> Option<Occurrence>
    requires from { IsNear 144115188075855872 from }
    requires last { IfSome last (IsNear 144115188075855872) }
    requires start { IsNear 400000000000 series.now.start }
    requires rids { (w : ℤ) → is_named series.now.exceptions w ≡ true → IsNear 400000000000 w }
    ensures { IsFirstOf (IsUntil last (IsLaterOne series.now from past)) result }
{
    let replaced = if_started(last, series.exceptions.next_given(from, past));
    let own = next_own(series, from, past, until_found(last, &replaced));
    sooner_of(own, replaced)
}

// The seconds of a wall second, where there is one.
fn seconds_of(wall: Option<Wall>) -> Option<i64>
    ensures { result ≡ wall }
{
    match wall {
        Some(wall) => Some(wall.seconds()),
        None => None,
    }
}

/// The first occurrence of a series, by start and then recurrence id, that starts after `from`, or at it with a recurrence
/// id after `past`, if that is given, and no later than `last`, if that is given. `None` where there is none: no day later than
/// the period of `last` is looked at. Takes no memory.
pub fn next_until(
    series: &Series,
    from: Wall,
    past: Option<Wall>,
    last: Option<Wall>,
) -> Option<Occurrence>
    requires from { unsigned_abs from < 2 ^ 57 }
    requires last { IfSome last (λ w. unsigned_abs w < 2 ^ 57) }
    ensures { IsFirstOf (IsUntil last (IsLaterOne series.now from past)) result }
{
    first_after(series, from.seconds(), seconds_of(past), seconds_of(last))
}

/// The first occurrence of a series, by start and then recurrence id, that starts after `from`, or at it with a recurrence
/// id after `past`, if that is given. `None` where there is none on all days. Takes no memory.
pub fn next_from(series: &Series, from: Wall, past: Option<Wall>) -> Option<Occurrence>
    requires { unsigned_abs from < 2 ^ 57 }
    ensures { IsFirstOf (IsLaterOne series.now from past) result }
{
    next_until(series, from, past, None)
}
