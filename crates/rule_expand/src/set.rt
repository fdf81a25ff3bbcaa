//! The set of a rule.
ghost use Rattle.std.specs.Prelude.{◌^◌, unsigned_abs, ◌&&◌, int_le, ℕ, ◌≡◌, ◌+◌, ◌-◌, ◌*◌, ◌+ℤ◌, ◌-ℤ◌, ◌*ℤ◌, ◌<◌, ◌≤◌, ◌≤ℤ◌, ◌<ℤ◌, ℤ, pos, true, IfSome, IsNone};
ghost use Rattle.spec_series.specs.Periods.{is_in_phase};
ghost use Rattle.spec_series.specs.RuleSets.{is_due, is_day_of_set, is_in_set, is_moved, is_native, moved_from};
ghost use Rattle.spec_time.specs.Walls.{day_of_wall, is_in_years, second_of_wall};
ghost use Rattle.spec_time.specs.Floor.{floor_div, modulo};
ghost use Rattle.rule_expand.specs.Near.{IsNear};
ghost use Rattle.rule_expand.specs.Sets.{IsCountAt, IsGreatest, IsLastDue, IsNearBound, IsFirstFrom, IsNext, IsBound, is_in_bound, is_up_to};
ghost use Rattle.spec_series.specs.declared.by_part.End.TheVariants.{Count};

use crate::bound::Bound;
use crate::moved::is_moved_day;
use crate::occurs::is_kept_day;
use crate::walk::{next_day, number_of};
use spec_series::by_part::{End, Skip};
use spec_series::rule::Rule;
use spec_time::wall::Wall;

// The first day after another that is due. Days past the bound needn't be found.
fn next_due(rule: &Rule, start_day: i64, after: i64, bound: Bound) -> Option<i64>
    requires start { IsNear 10000000 start_day }
    requires after { IsNear 2198000000000 after }
    requires bound { IsNearBound 2199023260000 bound }
    ensures none { IsNone result → (m : ℤ) → after <ℤ m → is_up_to bound m ≡ true → is_due rule.now start_day m ≡ true → ⊥ }
    ensures some { IfSome result (IsNext (is_due rule.now start_day) after) }
    ensures near { IfSome result (λ n. n ≤ℤ (after +ℤ pos 146097000)) }
{
    next_day(rule, start_day, after, bound)
}

// The day of a wall second.
pub(crate) fn day_of_second(wall: i64) -> i64
    requires { IsNear 400000000000 wall }
    ensures value { result ≡ day_of_wall wall }
    ensures near { IsNear 5000000 result }
{
    wall.div_euclid(86_400)
}

// The second of its day.
pub(crate) fn second_of_day(wall: i64) -> u32
    ensures value { result ≡ second_of_wall wall }
    ensures bound { result < 86400 }
{
    wall.rem_euclid(86_400) as u32
}

// The last day whose wall second isn't past another.
fn last_by(until: i64, second: u32) -> i64
    requires until { IsNear 400000000000 until }
    requires second { second < 86400 }
    ensures value { result ≡ floor_div (until -ℤ pos second) 86400 }
    ensures near { IsNear 5000000 result }
{
    (until - second as i64).div_euclid(86_400)
}

// The last of the first day and the due days up to one.
fn last_due(rule: &Rule, start_day: i64, high: i64) -> i64
    requires start { IsNear 10000000 start_day }
    requires high { IsNear 10000000 high }
    ensures { IsLastDue (is_due rule.now start_day) start_day high result }
{
    let mut here = start_day;
    loop {
        let Some(n) = next_due(rule, start_day, here, Bound::Last(high)) else {
            return here;
        };
        if n > high {
            return here;
        }
        here = n;
    }
}

// The day of some place in a counted set.
struct Reached {
    day: i64,
    place: u32,
}

// The last of the first day and the due days after it, up to a number of days and up to a day.
fn reach(rule: &Rule, start_day: i64, count: u32, high: i64) -> Reached
    requires start { IsNear 10000000 start_day }
    requires count { (1 ≤ count) × (count ≤ 1000) }
    requires high { (start_day ≤ℤ high) × IsNear 2199023260000 high }
    ensures at { (t : ℕ) → IsCountAt (is_due rule.now start_day) count t start_day result.day result.place }
    ensures place { (1 ≤ result.place) × (result.place ≤ count) }
    ensures near { result.day ≤ℤ (start_day +ℤ pos (result.place * 146097000)) }
    ensures high { result.day ≤ℤ high }
    ensures none { result.place < count → (m : ℤ) → result.day <ℤ m → m ≤ℤ high → is_due rule.now start_day m ≡ true → ⊥ }
{
    let mut here = start_day;
    for k in 1..count {
        let Some(n) = next_due(rule, start_day, here, Bound::Last(high)) else {
            return Reached {
                day: here,
                place: k,
            };
        };
        if n > high {
            return Reached {
                day: here,
                place: k,
            };
        }
        here = n;
    }
    Reached {
        day: here,
        place: count,
    }
}

// The same from the day of some place on, up to a number of days alone.
fn last_from(rule: &Rule, start_day: i64, count: u32, from: i64, place: u32) -> i64
    requires start { IsNear 10000000 start_day }
    requires count { (1 ≤ count) × (count ≤ 1000) }
    requires place { place ≤ count }
    requires at { (t : ℕ) → IsCountAt (is_due rule.now start_day) count t start_day from place }
    requires near { from ≤ℤ (start_day +ℤ pos (place * 146097000)) }
    ensures greatest { (t : ℕ) → IsGreatest (is_day_of_set (is_due rule.now start_day) (Count count) t start_day) result }
    ensures near { IsNear 147000000000 result }
{
    let mut here = from;
    for k in place..count {
        let Some(n) = next_due(rule, start_day, here, Bound::Endless) else {
            return here;
        };
        here = n;
    }
    here
}

// The days of a round, after which the same days are due again.
fn round_of(rule: &Rule) -> i64
    ensures value { result ≡ pos (rule.now.interval * 146097) }
    ensures near { IsNear 146097000 result }
{
    i64::from(rule.interval) * 146_097
}

// Whole rounds that a count leaves behind a place in the first one.
fn rounds_left(count: u32, place: u32) -> u32
    requires { (1 ≤ place) × (place ≤ count) }
    ensures within { place + result * (place - 1) ≤ count }
    ensures first { place ≡ 1 → result ≡ 0 }
    ensures last { place ≡ count → result ≡ 0 }
{
    if place == 1 {
        return 0;
    }
    (count - place) / (place - 1)
}

// The day some rounds later.
fn rounds_later(day: i64, rounds: u32, round: i64) -> i64
    requires day { IsNear 147000000000 day }
    requires rounds { rounds ≤ 1000 }
    requires round { IsNear 146097000 round }
    ensures { result ≡ day +ℤ pos rounds *ℤ round }
{
    day + i64::from(rounds) * round
}

// The last of the first day and the due days after it, up to a number of days: those of the first round tell how many days a round has.
fn last_counted(rule: &Rule, start_day: i64, count: u32) -> i64
    requires start { IsNear 10000000 start_day }
    requires count { (1 ≤ count) × (count ≤ 1000) }
    ensures greatest { (t : ℕ) → IsGreatest (is_day_of_set (is_due rule.now start_day) (Count count) t start_day) result }
    ensures near { IsNear 147000000000 result }
{
    let round = round_of(rule);
    let Reached { day, place } = reach(rule, start_day, count, start_day + round);
    let rounds = rounds_left(count, place);
    last_from(
        rule,
        start_day,
        count,
        rounds_later(day, rounds, round),
        place + rounds * (place - 1),
    )
}

// The last day of a rule's set.
pub(crate) fn end_of(rule: &Rule, start: i64) -> Bound
    requires start { IsNear 400000000000 start }
    ensures bound { IsBound (is_in_set rule.now start) result }
    ensures near { IsNearBound 147000000000 result }
{
    let day = day_of_second(start);
    match rule.end {
        End::Never => match next_due(rule, day, day, Bound::Endless) {
            Some(_) => Bound::Endless,
            None => Bound::Last(day),
        },
        End::Count(count) => Bound::Last(last_counted(rule, day, count)),
        End::Until(until) => Bound::Last(last_due(
            rule,
            day,
            last_by(until.seconds(), second_of_day(start)),
        )),
    }
}

// Whether a number isn't greater than another.
fn is_at_most(a: i64, b: i64) -> bool
    ensures { result ≡ int_le a b }
{
    a <= b
}

// What a number leaves.
fn remainder(number: i64, interval: u32) -> u32
    requires { (1 ≤ interval) × (interval ≤ 1000) }
    ensures { result ≡ modulo number interval }
{
    number.rem_euclid(interval as i64) as u32
}

// Whether a day is in phase with the start's day.
fn is_phase_day(rule: &Rule, start_day: i64, day: i64) -> bool
    requires start { IsNear 10000000 start_day }
    requires day { IsNear 2199023255553 day }
    ensures { result ≡ is_in_phase rule.now start_day day }
{
    let here = remainder(number_of(rule, day), rule.interval);
    let start = remainder(number_of(rule, start_day), rule.interval);
    here == start
}

// Whether a day is kept and in phase.
fn is_native_day(rule: &Rule, start_day: i64, day: i64) -> bool
    requires start { IsNear 10000000 start_day }
    requires day { IsNear 2199023255552 day }
    ensures { result ≡ is_native rule.now start_day day }
{
    is_kept_day(rule, day) && is_phase_day(rule, start_day, day)
}

// The day that tells whether a day is moved.
#[tactic(auto, unfolding(spec_series::specs::RuleSets::moved_from))]
pub(crate) fn origin(skip: Skip, day: i64) -> i64
    requires { IsNear 2199023255552 day }
    ensures value { result ≡ moved_from skip day }
    ensures near { IsNear 2199023255553 result }
{
    match skip {
        Skip::Omit | Skip::Backward => day,
        Skip::Forward => day - 1,
    }
}

// Whether a day is one that the rule moves to, in phase.
fn is_moved_in_phase(rule: &Rule, start_day: i64, day: i64) -> bool
    requires start { IsNear 10000000 start_day }
    requires day { IsNear 2199023255552 day }
    ensures { result ≡ (is_moved rule.now day && is_in_phase rule.now start_day (moved_from rule.now.skip day)) }
{
    is_moved_day(rule, day) && is_phase_day(rule, start_day, origin(rule.skip, day))
}

// Whether a day is due.
#[tactic(auto, unfolding(spec_series::specs::RuleSets::is_due))]
fn is_due_day(rule: &Rule, start_day: i64, day: i64) -> bool
    requires start { IsNear 10000000 start_day }
    requires day { IsNear 2199023255552 day }
    ensures { result ≡ is_due rule.now start_day day }
{
    is_native_day(rule, start_day, day) || is_moved_in_phase(rule, start_day, day)
}

// Whether a due day is one of so many: of the start's day and the due days after it the first.
fn is_among(rule: &Rule, start_day: i64, count: u32, day: i64) -> bool
    requires start { IsNear 10000000 start_day }
    requires count { (1 ≤ count) × (count ≤ 1000) }
    requires near { IsNear 2199023260000 day }
    requires day { start_day <ℤ day }
    requires due { is_due rule.now start_day day ≡ true }
    ensures { (t : ℕ) → result ≡ is_day_of_set (is_due rule.now start_day) (Count count) t start_day day }
{
    let mut here = start_day;
    for place in 1..count {
        let Some(n) = next_due(rule, start_day, here, Bound::Last(day)) else {
            return false;
        };
        if n >= day {
            return true;
        }
        here = n;
    }
    false
}

// Whether a due day after the start's is in the set.
fn is_within(rule: &Rule, start: i64, start_day: i64, day: i64) -> bool
    requires start { IsNear 400000000000 start }
    requires start_day { start_day ≡ day_of_wall start }
    requires near { IsNear 2199023260000 day }
    requires day { start_day <ℤ day }
    requires due { is_due rule.now start_day day ≡ true }
    ensures { result ≡ is_in_set rule.now start day }
{
    match rule.end {
        End::Never => true,
        End::Count(count) => is_among(rule, start_day, count, day),
        End::Until(until) => is_at_most(day, last_by(until.seconds(), second_of_day(start))),
    }
}

// Whether a day is in the rule's set.
fn is_set_day(rule: &Rule, start: i64, day: i64) -> bool
    requires start { IsNear 400000000000 start }
    requires day { IsNear 2199023255552 day }
    ensures { result ≡ is_in_set rule.now start day }
{
    let first = day_of_second(start);
    if day == first {
        return true;
    }
    if day < first {
        return false;
    }
    if !is_due_day(rule, first, day) {
        return false;
    }
    is_within(rule, start, first, day)
}

// The day before.
fn day_before(day: i64) -> i64
    requires { IsNear 2199023255552 day }
    ensures { result ≡ day -ℤ pos 1 }
{
    day - 1
}

// The first day of a rule's set at or after a day. Days past the bound needn't be found.
fn next_of_set(rule: &Rule, start: i64, from: i64, bound: Bound) -> Option<i64>
    requires start { IsNear 400000000000 start }
    requires from { IsNear 2197000000000 from }
    requires bound { IsNearBound 2199023260000 bound }
    ensures none { IsNone result → (n : ℤ) → from ≤ℤ n → is_up_to bound n ≡ true → is_in_set rule.now start n ≡ true → ⊥ }
    ensures some { IfSome result (IsFirstFrom (is_in_set rule.now start) from) }
    ensures near { IfSome result (IsNear 2198000000000) }
{
    let first = day_of_second(start);
    if from <= first {
        return Some(first);
    }
    let Some(n) = next_due(rule, first, day_before(from), bound) else {
        return None;
    };
    if is_within(rule, start, first, n) {
        return Some(n);
    }
    None
}

// Whether a day isn't past a bound.
fn is_up_to(bound: Bound, day: i64) -> bool
    ensures { result ≡ is_up_to bound day }
{
    match bound {
        Bound::Endless => true,
        Bound::Last(last) => day <= last,
    }
}

// The first day of a rule's set at or after a day, and not past a bound.
pub(crate) fn next_in_set(rule: &Rule, start: i64, from: i64, bound: Bound) -> Option<i64>
    requires start { IsNear 400000000000 start }
    requires from { IsNear 2197000000000 from }
    requires bound { IsNearBound 2199023260000 bound }
    ensures none { IsNone result → (n : ℤ) → from ≤ℤ n → is_in_bound (is_in_set rule.now start) bound n ≡ true → ⊥ }
    ensures some { IfSome result (IsFirstFrom (is_in_bound (is_in_set rule.now start) bound) from) }
    ensures near { IfSome result (IsNear 2198000000000) }
{
    let Some(n) = next_of_set(rule, start, from, bound) else {
        return None;
    };
    if is_up_to(bound, n) {
        return Some(n);
    }
    None
}

/// The last day of the set of a rule for a series that starts at a wall second of the years 0 to 9999. Takes no memory.
#[tactic(auto, using(crate::proofs::Range::years_near))]
pub fn last_day(rule: &Rule, start: Wall) -> Bound
    requires { is_in_years start ≡ true }
    ensures { IsBound (is_in_set rule.now start) result }
{
    end_of(rule, start.seconds())
}

/// Whether a day is in the set of a rule for a series that starts at a wall second of the years 0 to 9999. Takes no memory.
#[tactic(auto, using(crate::proofs::Range::years_near, crate::proofs::Range::size_41))]
pub fn occurs_on(rule: &Rule, start: Wall, day: i64) -> bool
    requires start { is_in_years start ≡ true }
    requires day { unsigned_abs day < 2 ^ 41 }
    ensures { result ≡ is_in_set rule.now start day }
{
    is_set_day(rule, start.seconds(), day)
}
