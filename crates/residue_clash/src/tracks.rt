//! The tracks of a series' rules.
ghost use Rattle.std.specs.Prelude.{◌≡◌, ℕ, ◌<◌, Bool, true, false, unsigned_abs, Option, Some};
ghost use Rattle.rule_expand.specs.Repeats.{is_of_weekdays};
ghost use Rattle.spec_time.specs.Walls.{day_of_wall, second_of_wall, is_in_years};
ghost use Rattle.spec_series.specs.Lengths.{IsWeekLong};
ghost use Rattle.residue_clash.specs.RuleMaps.{HasBits, IsMapGiven, IsMapIn, residue_of};
ghost use Rattle.residue_clash.specs.RuleTracks.{IsEndOf, IsTrackOf, IsSlotOf, AreTracks, IsKeptOf, AreKept, IsOutlineOf};
ghost use Rattle.residue_clash.specs.Repeats.{limit_of};

use crate::kept::moves_forward;
use crate::kept_rule::KeptRule;
use crate::outline::Outline;
use crate::phase::looks_at_weekdays;
use crate::rule_map::DayMap;
use crate::rule_track::RuleTrack;
use rule_expand::{Bound, last_day};
use spec_series::rule::Rule;
use spec_series::series::Series;
use spec_time::wall::Wall;

// The day of a start.
fn day_of(start: Wall) -> i64
    requires { is_in_years start ≡ true }
    ensures value { result ≡ day_of_wall start }
    ensures size { unsigned_abs result < 4000000 }
{
    start.seconds().div_euclid(86_400)
}

// The second of its day.
fn second_of(start: Wall) -> u32
    ensures value { result ≡ second_of_wall start }
    ensures bound { result < 86400 }
{
    start.seconds().rem_euclid(86_400) as u32
}

// The last day, where there is one.
fn limit(bound: Bound) -> Option<i64>
    ensures { result ≡ limit_of bound }
{
    match bound {
        Bound::Endless => None,
        Bound::Last(last) => Some(last),
    }
}

// The last day of a rule's set, where there is one.
pub(crate) fn end_of(rule: &Rule, start: Wall) -> Option<i64>
    requires { is_in_years start ≡ true }
    ensures { (kind : Bool) → IsEndOf rule.now start kind result }
{
    limit(last_day(rule, start))
}

// The track of the days of one kind that a rule gives.
fn track_of<'a>(
    rule: &'a Rule,
    start: Wall,
    pushed: bool,
    last: Option<i64>,
    map: Option<&'a [u64]>,
) -> RuleTrack<'a>
    requires start { is_in_years start ≡ true }
    requires last { IsEndOf rule.now start pushed last }
    requires map { HasBits map (residue_of pushed rule.now) }
    ensures { IsTrackOf rule.now start pushed result }
{
    RuleTrack {
        rule,
        first: day_of(start),
        pushed,
        last,
        map,
    }
}

// The map that is given for a rule, unless it looks at days of the week alone.
fn map_for<'a>(rule: &Rule, map: Option<&'a [u64]>) -> Option<&'a [u64]>
    requires { is_of_weekdays rule.now ≡ false → HasBits map (residue_of false rule.now) }
    ensures { HasBits result (residue_of false rule.now) }
{
    if looks_at_weekdays(rule) { None } else { map }
}

// The track of one of the rules, if there are so many, with the map that is given.
fn slot<'a>(series: &'a Series, k: usize, map: Option<&'a [u64]>) -> Option<RuleTrack<'a>>
    requires { IsMapGiven series.now k map }
    ensures { IsSlotOf series.now k false result }
{
    let rules = series.rules.items();
    if k >= rules.len() {
        return None;
    }
    let rule = &rules[k];
    let last = end_of(rule, series.start);
    let map = map_for(rule, map);
    Some(track_of(rule, series.start, false, last, map))
}

// The track of the days that one of the rules moves forward to, if there are any.
fn pushed_slot<'a>(series: &'a Series, k: usize) -> Option<RuleTrack<'a>>
    ensures { IsSlotOf series.now k true result }
{
    let rules = series.rules.items();
    if k >= rules.len() {
        return None;
    }
    let rule = &rules[k];
    if !moves_forward(rule) {
        return None;
    }
    let last = end_of(rule, series.start);
    Some(track_of(rule, series.start, true, last, None))
}

/// The tracks of the rules, in order, with the maps that are given.
pub(crate) fn tracks<'a>(
    series: &'a Series,
    first: Option<&'a [u64]>,
    second: Option<&'a [u64]>,
    third: Option<&'a [u64]>,
    fourth: Option<&'a [u64]>,
) -> [Option<RuleTrack<'a>>; 8]
    requires first { IsMapGiven series.now 0 first }
    requires second { IsMapGiven series.now 1 second }
    requires third { IsMapGiven series.now 2 third }
    requires fourth { IsMapGiven series.now 3 fourth }
    ensures { AreTracks series.now result }
{
    [
        slot(series, 0, first),
        slot(series, 1, second),
        slot(series, 2, third),
        slot(series, 3, fourth),
        pushed_slot(series, 0),
        pushed_slot(series, 1),
        pushed_slot(series, 2),
        pushed_slot(series, 3),
    ]
}

// The words of a map, where there is one.
fn words_of(map: &Option<DayMap>) -> Option<&[u64]>
    ensures { (test : ℕ → Bool) → IsMapIn map.now test → HasBits result test }
{
    match map {
        Some(map) => Some(map.words()),
        None => None,
    }
}

// The track of one of the rules by what is kept of it, if there are so many.
fn kept_slot<'a>(series: &'a Series, k: usize, kept: &'a Option<KeptRule>) -> Option<RuleTrack<'a>>
    requires { IsKeptOf series.now k kept.now }
    ensures { IsSlotOf series.now k false result }
{
    match kept {
        Some(kept) => {
            let rule = &series.rules.items()[k];
            let map = words_of(&kept.own);
            Some(track_of(rule, series.start, false, kept.last, map))
        }
        None => None,
    }
}

// The same of the days that the rule moves forward to, if there are any.
fn kept_pushed_slot<'a>(
    series: &'a Series,
    k: usize,
    kept: &'a Option<KeptRule>,
) -> Option<RuleTrack<'a>>
    requires { IsKeptOf series.now k kept.now }
    ensures { IsSlotOf series.now k true result }
{
    match kept {
        Some(kept) => {
            let rule = &series.rules.items()[k];
            if !moves_forward(rule) {
                return None;
            }
            let map = words_of(&kept.pushed);
            Some(track_of(rule, series.start, true, kept.last, map))
        }
        None => None,
    }
}

/// The tracks of the rules, by what is kept of them.
pub(crate) fn kept_tracks<'a>(
    series: &'a Series,
    kept: &'a [Option<KeptRule>; 4],
) -> [Option<RuleTrack<'a>>; 8]
    requires { AreKept series.now kept.now }
    ensures { AreTracks series.now result }
{
    [
        kept_slot(series, 0, &kept[0]),
        kept_slot(series, 1, &kept[1]),
        kept_slot(series, 2, &kept[2]),
        kept_slot(series, 3, &kept[3]),
        kept_pushed_slot(series, 0, &kept[0]),
        kept_pushed_slot(series, 1, &kept[1]),
        kept_pushed_slot(series, 2, &kept[2]),
        kept_pushed_slot(series, 3, &kept[3]),
    ]
}

/// The series apart from its rules.
pub(crate) fn outline<'a>(series: &'a Series) -> Outline<'a>
    requires { IsWeekLong series.now }
    ensures { IsOutlineOf series.now result }
{
    Outline {
        first: day_of(series.start),
        time: second_of(series.start),
        length: series.length,
        occupying: series.occupying,
        exceptions: &series.exceptions,
    }
}
