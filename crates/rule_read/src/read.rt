//! Reads recurrence rules.
ghost use Rattle.std.specs.Prelude.{◌≡◌, ◌≤◌, ◌<◌, ◌^◌, Some, None, length, map, option_and_then, option_map, true, unsigned_abs, if◌then◌else◌, IfErr, IfOk, IfSome};
ghost use Rattle.std.specs.List.{list_all};
ghost use Rattle.spec_json.specs.Parts.{all_some};
ghost use Rattle.spec_json.specs.TreeData.{data_of};
ghost use Rattle.spec_series.specs.RuleLimits.{are_by_parts, is_place_to};
ghost use Rattle.spec_series.specs.RuleObjects.{filled, fits_frequency, frequency_of, frequency_in, parts_of, parts_read, readings_of, rule_in, rule_with, rules_in, rules_of, settled_rule};
ghost use Rattle.spec_time.specs.Walls.{day_of_wall, is_in_years};
ghost use Rattle.rule_read.specs.declared.error.RulesError.TheVariants.{BadRules};

use crate::error::RulesError;
use crate::frame::Frame;
use crate::implied::{
    are_year_days, is_settled, may_skip, with_days, with_month_days, with_months,
};
use crate::lists::{items_of, months, ndays, places};
use crate::values::{end, frequency, interval, skip, week_start};
use crate::words::{is_rule_object, present_at};
use spec_json::tree::Tree;
use spec_series::by_part::{Freq, NDays, Small};
use spec_series::rule::Rule;
use spec_series::rules::Rules;
use spec_time::wall::Wall;
use std::alloc::{AllocError, Global};

/// The most rules of a series.
const MAX_RULES: usize = 4;

/// Reads the rules of a series that starts at a wall second of the years 0 to 9999, with their implied parts filled in.
///
/// `BadRules` exactly where the value isn't a list of at most 4 objects, each of them a rule.
pub fn read_rules(alloc: Global, tree: &Tree, start: Wall) -> Result<Rules, RulesError>
    requires { is_in_years start ≡ true }
    ensures ok { IfOk result (λ rules. rules_in start (data_of tree.now) ≡ Some (map parts_of rules)) }
    ensures few { IfOk result (λ rules. length rules ≤ 4) }
    ensures bad { IfErr result (λ error. error ≡ BadRules → rules_in start (data_of tree.now) ≡ None) }
{
    match rules(alloc, tree, start)? {
        Some(rules) => Ok(rules),
        None => Err(RulesError::BadRules),
    }
}

// The rules, where the value is a list of such.
fn rules(alloc: Global, tree: &Tree, start: Wall) -> Result<Option<Rules>, AllocError>
    requires { is_in_years start ≡ true }
    ensures value { IfOk result (λ o. option_map (λ rules. map parts_of rules) o ≡ rules_in start (data_of tree.now)) }
    ensures few { IfOk result (λ o. IfSome o (λ rules. length rules ≤ 4)) }
{
    match items_of(tree) {
        Some(items) => few_rules(alloc, items, day_of(start)),
        None => Ok(None),
    }
}

// The day of a wall second.
fn day_of(wall: Wall) -> i64
    requires { is_in_years wall ≡ true }
    ensures value { result ≡ day_of_wall wall }
    ensures bound { unsigned_abs result < 2 ^ 42 }
{
    wall.seconds().div_euclid(86_400)
}

fn few_rules(alloc: Global, items: &[Tree], day: i64) -> Result<Option<Rules>, AllocError>
    requires { unsigned_abs day < 2 ^ 42 }
    ensures value { IfOk result (λ o. option_map (λ rules. map parts_of rules) o ≡ rules_of day (map data_of items.now)) }
    ensures few { IfOk result (λ o. IfSome o (λ rules. length rules ≤ 4)) }
{
    if items.len() <= MAX_RULES {
        each_rule(alloc, items, day)
    } else {
        Ok(None)
    }
}

fn each_rule(alloc: Global, items: &[Tree], day: i64) -> Result<Option<Rules>, AllocError>
    requires { unsigned_abs day < 2 ^ 42 }
    ensures value { IfOk result (λ o. option_map (λ rules. map parts_of rules) o ≡ all_some (rule_in day) (map data_of items.now)) }
    ensures count { IfOk result (λ o. IfSome o (λ rules. length rules ≡ length items.now)) }
{
    let mut rules = Vec::new(alloc);
    for item in items {
        match rule(alloc, item, day)? {
            Some(rule) => rules.push(rule)?,
            None => return Ok(None),
        }
    }
    Ok(Some(Rules::new(rules)))
}

// The rule that a value is, for a series whose start's day is given.
#[tactic(auto, unfolding(spec_series::specs::RuleObjects::rule_in))]
fn rule(alloc: Global, tree: &Tree, day: i64) -> Result<Option<Rule>, AllocError>
    requires { unsigned_abs day < 2 ^ 42 }
    ensures { IfOk result (λ o. option_map parts_of o ≡ rule_in day (data_of tree.now)) }
{
    if is_rule_object(tree) {
        with_members(alloc, tree, day)
    } else {
        Ok(None)
    }
}

fn frequency_at(value: Option<&Tree>) -> Option<Freq>
    ensures { result ≡ option_and_then frequency_in (option_map (λ t. data_of t.now) value.entry) }
{
    match value {
        Some(value) => frequency(value),
        None => None,
    }
}

#[tactic(auto, unfolding(spec_series::specs::RuleObjects::parts_read))]
fn with_members(alloc: Global, tree: &Tree, day: i64) -> Result<Option<Rule>, AllocError>
    requires { unsigned_abs day < 2 ^ 42 }
    ensures { IfOk result (λ o. option_map parts_of o ≡ option_and_then (settled_rule day) (parts_read (readings_of (data_of tree.now)))) }
{
    let Some(frequency) = frequency_at(present_at(tree, "frequency")) else {
        return Ok(None);
    };
    let Some(interval) = interval(present_at(tree, "interval")) else {
        return Ok(None);
    };
    let Some(week_start) = week_start(present_at(tree, "firstDayOfWeek")) else {
        return Ok(None);
    };
    let Some(end) = end(present_at(tree, "count"), present_at(tree, "until")) else {
        return Ok(None);
    };
    let Some(skip) = skip(present_at(tree, "skip")) else {
        return Ok(None);
    };
    let frame = Frame {
        frequency,
        interval,
        week_start,
        end,
        skip,
    };
    with_lists(alloc, tree, day, frame)
}

#[tactic(auto, unfolding(spec_series::specs::RuleObjects::parts_read))]
fn with_lists(
    alloc: Global,
    tree: &Tree,
    day: i64,
    frame: Frame,
) -> Result<Option<Rule>, AllocError>
    requires day { unsigned_abs day < 2 ^ 42 }
    requires frequency { (readings_of (data_of tree.now)).frequency ≡ Some frame.frequency }
    requires interval { (readings_of (data_of tree.now)).interval ≡ Some frame.interval }
    requires week_start { (readings_of (data_of tree.now)).week_start ≡ Some frame.week_start }
    requires end { (readings_of (data_of tree.now)).end ≡ Some frame.end }
    requires skip { (readings_of (data_of tree.now)).skip ≡ Some frame.skip }
    ensures { IfOk result (λ o. option_map parts_of o ≡ option_and_then (settled_rule day) (parts_read (readings_of (data_of tree.now)))) }
{
    let Some(by_day) = ndays(alloc, frame.frequency, present_at(tree, "byDay"))? else {
        return Ok(None);
    };
    let Some(by_month_day) = places(alloc, 31, present_at(tree, "byMonthDay"))? else {
        return Ok(None);
    };
    let Some(by_month) = months(alloc, present_at(tree, "byMonth"))? else {
        return Ok(None);
    };
    with_places(alloc, tree, day, frame, by_day, by_month_day, by_month)
}

// The lists of places in a period.
#[tactic(auto, unfolding(spec_series::specs::RuleObjects::parts_read))]
fn with_places(
    alloc: Global,
    tree: &Tree,
    day: i64,
    frame: Frame,
    by_day: NDays,
    by_month_day: Small,
    by_month: Small,
) -> Result<Option<Rule>, AllocError>
    requires day { unsigned_abs day < 2 ^ 42 }
    requires frequency { (readings_of (data_of tree.now)).frequency ≡ Some frame.frequency }
    requires interval { (readings_of (data_of tree.now)).interval ≡ Some frame.interval }
    requires week_start { (readings_of (data_of tree.now)).week_start ≡ Some frame.week_start }
    requires end { (readings_of (data_of tree.now)).end ≡ Some frame.end }
    requires skip { (readings_of (data_of tree.now)).skip ≡ Some frame.skip }
    requires by_day { (readings_of (data_of tree.now)).by_day ≡ Some by_day }
    requires by_month_day { (readings_of (data_of tree.now)).by_month_day ≡ Some by_month_day }
    requires by_month { (readings_of (data_of tree.now)).by_month ≡ Some by_month }
    ensures { IfOk result (λ o. option_map parts_of o ≡ option_and_then (settled_rule day) (parts_read (readings_of (data_of tree.now)))) }
{
    let Some(by_year_day) = places(alloc, 366, present_at(tree, "byYearDay"))? else {
        return Ok(None);
    };
    let Some(by_set) = places(alloc, 366, present_at(tree, "bySetPosition"))? else {
        return Ok(None);
    };
    settled(
        alloc,
        day,
        frame,
        by_day,
        by_month_day,
        by_month,
        by_year_day,
        by_set,
    )
}

// The rule with its implied parts, where it leaves nothing open.
fn settled(
    alloc: Global,
    day: i64,
    frame: Frame,
    by_day: NDays,
    by_month_day: Small,
    by_month: Small,
    by_year_day: Small,
    by_set: Small,
) -> Result<Option<Rule>, AllocError>
    requires day { unsigned_abs day < 2 ^ 42 }
    requires parts { are_by_parts frame.frequency by_day by_month_day by_month by_set ≡ true }
    requires year_days { list_all (is_place_to 366) by_year_day ≡ true }
    ensures { IfOk result (λ o. option_map parts_of o ≡ settled_rule day (rule_with frame.frequency frame.interval frame.week_start frame.end frame.skip by_day by_month_day by_month by_year_day by_set)) }
{
    if is_settled(
        frame.frequency,
        &by_day,
        &by_month_day,
        &by_month,
        &by_year_day,
    ) {
        filled(
            alloc,
            day,
            frame,
            by_day,
            by_month_day,
            by_month,
            by_year_day,
            by_set,
        )
    } else {
        Ok(None)
    }
}

// The rule with its implied parts, where these go together.
fn filled(
    alloc: Global,
    day: i64,
    frame: Frame,
    by_day: NDays,
    by_month_day: Small,
    by_month: Small,
    by_year_day: Small,
    by_set: Small,
) -> Result<Option<Rule>, AllocError>
    requires day { unsigned_abs day < 2 ^ 42 }
    requires parts { are_by_parts frame.frequency by_day by_month_day by_month by_set ≡ true }
    requires year_days { list_all (is_place_to 366) by_year_day ≡ true }
    ensures { IfOk result (λ o. option_map parts_of o ≡ (if fits_frequency (filled day (rule_with frame.frequency frame.interval frame.week_start frame.end frame.skip by_day by_month_day by_month by_year_day by_set)) then Some (filled day (rule_with frame.frequency frame.interval frame.week_start frame.end frame.skip by_day by_month_day by_month by_year_day by_set)) else None)) }
{
    let by_month = with_months(
        alloc,
        frame.frequency,
        day,
        &by_day,
        &by_month_day,
        by_month,
        &by_year_day,
    )?;
    let by_month_day = with_month_days(
        alloc,
        frame.frequency,
        day,
        &by_day,
        by_month_day,
        &by_year_day,
    )?;
    let by_day = with_days(alloc, frame.frequency, day, by_day)?;
    if !are_year_days(frame.frequency, &by_year_day) {
        return Ok(None);
    }
    if !may_skip(
        frame.skip,
        frame.frequency,
        &by_day,
        &by_month_day,
        &by_year_day,
        &by_set,
    ) {
        return Ok(None);
    }
    Ok(Some(Rule {
        frequency: frame.frequency,
        interval: frame.interval,
        week_start: frame.week_start,
        by_day,
        by_month_day,
        by_month,
        by_year_day,
        by_set,
        skip: frame.skip,
        end: frame.end,
    }))
}
