//! The days on which a rule is in phase, by congruences.
ghost use Rattle.std.specs.Prelude.{◌≡◌, ℕ, ◌*◌, ◌<◌, ◌≤◌, ◌^◌, ℤ, pos, ◌+ℤ◌, ◌-ℤ◌, ◌&&◌, true, unsigned_abs, ◌↔◌};
ghost use Rattle.std.specs.Int.{int_rem_euclid};
ghost use Rattle.spec_time.specs.Floor.{modulo};
ghost use Rattle.spec_series.specs.Periods.{is_in_phase};
ghost use Rattle.residue_solve.specs.Cong.{IsInRange, Solves};
ghost use Rattle.rule_expand.specs.Walk.{periods};
ghost use Rattle.rule_expand.specs.Repeats.{is_of_weekdays, repeats_after};
ghost use Rattle.residue_clash.specs.Repeats.{periods_after};
ghost use Rattle.spec_series.specs.RuleLimits.{is_empty};
ghost use Rattle.residue_clash.specs.Kinds.{phase_day};

use residue_solve::Cong;
use rule_expand::period;
use spec_series::by_part::Freq;
use spec_series::rule::Rule;

// What a number leaves.
fn remainder(number: i64, interval: u32) -> u32
    requires { (1 ≤ interval) × (interval ≤ 1000) }
    ensures { result ≡ modulo number interval }
{
    number.rem_euclid(i64::from(interval)) as u32
}

/// The day that is to be in phase: the day itself, or the one before.
pub(crate) fn phase_day(pushed: bool, day: i64) -> i64
    requires { unsigned_abs day < 2 ^ 38 }
    ensures value { result ≡ phase_day pushed day }
    ensures size { unsigned_abs result < 2 ^ 39 }
{
    if pushed { day - 1 } else { day }
}

/// Whether a day is in phase with the start's day.
#[tactic(auto, unfolding(spec_series::specs::Periods::is_in_phase))]
pub(crate) fn is_phase_day(rule: &Rule, first: i64, day: i64) -> bool
    requires first { unsigned_abs first < 4000000 }
    requires day { unsigned_abs day < 2 ^ 39 }
    ensures { result ≡ is_in_phase rule.now first day }
{
    let here = remainder(period(rule, day), rule.interval);
    let start = remainder(period(rule, first), rule.interval);
    here == start
}

// Whether a rule has no parts but days of the week and places.
fn has_only_weekdays(rule: &Rule) -> bool
    ensures { result ≡ (is_empty rule.now.by_month_day && (is_empty rule.now.by_month && is_empty rule.now.by_year_day)) }
{
    rule.by_month_day.items().is_empty()
        && rule.by_month.items().is_empty()
        && rule.by_year_day.items().is_empty()
}

/// Whether a rule looks at days of the week alone.
pub(crate) fn looks_at_weekdays(rule: &Rule) -> bool
    ensures { result ≡ is_of_weekdays rule.now }
{
    match rule.frequency {
        Freq::Daily | Freq::Weekly => { has_only_weekdays(rule) }
        Freq::Monthly | Freq::Yearly => false,
    }
}

// The periods of the 400 years of the calendar's cycle.
fn periods_of_cycle(frequency: Freq) -> i64
    ensures value { result ≡ pos (periods frequency) }
    ensures size { unsigned_abs result < 2 ^ 40 }
{
    match frequency {
        Freq::Daily => 146_097,
        Freq::Weekly => 20_871,
        Freq::Monthly => 4_800,
        Freq::Yearly => 400,
    }
}

// The periods of so many days.
fn periods_in(frequency: Freq, days: u32) -> i64
    ensures value { result ≡ pos (periods_after frequency days) }
    ensures size { unsigned_abs result < 2 ^ 40 }
{
    if days != 7 {
        return periods_of_cycle(frequency);
    }
    match frequency {
        Freq::Daily => 7,
        Freq::Weekly => 1,
        Freq::Monthly | Freq::Yearly => 0,
    }
}

// What a difference leaves.
fn rest_of(number: i64, other: i64, interval: u32) -> i64
    requires number { unsigned_abs number < 2 ^ 42 }
    requires other { unsigned_abs other < 2 ^ 42 }
    requires interval { (1 ≤ interval) × (interval ≤ 1000) }
    ensures value { result ≡ int_rem_euclid (number -ℤ other) (pos interval) }
    ensures size { unsigned_abs result < 2 ^ 40 }
{
    (number - other).rem_euclid(i64::from(interval))
}

/// The congruence on the number of cycles after which a day is in phase with the start's day.
pub(crate) fn phase_of(rule: &Rule, first: i64, day: i64, cycle: u32) -> Cong
    requires first { unsigned_abs first < 4000000 }
    requires day { unsigned_abs day < 2 ^ 39 }
    requires cycle { repeats_after rule.now cycle ≡ true }
    ensures range { IsInRange result }
    ensures solves { (t : ℕ) → Solves result (pos t) ↔ (is_in_phase rule.now first (day +ℤ pos (t * cycle)) ≡ true) }
{
    let start = period(rule, first);
    let here = period(rule, day);
    Cong {
        a: periods_in(rule.frequency, cycle),
        b: rest_of(start, here, rule.interval),
        n: rule.interval,
    }
}
