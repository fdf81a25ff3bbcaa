//! Rows of recurrence rules, and the days that they give.
ghost use Rattle.std.specs.Prelude.{◌≡◌, ◌≤◌, ◌<◌, ◌^◌, IfSome, length, true, unsigned_abs};
ghost use Rattle.spec_time.specs.Walls.{is_in_years};

use row_table::answers::push_wall;
use row_table::members::wall_at;
use rule_expand::{Bound, last_day, next_until, occurs_on};
use rule_read::{RulesError, read_rules};
use spec_json::tree::Tree;
use spec_series::by_part::End;
use spec_series::exception::Exceptions;
use spec_series::rules::Rules;
use spec_series::series::Series;
use spec_time::length::Length;
use spec_time::wall::Wall;
use std::alloc::{AllocError, Global};
use std::fmt::Write;
use time_text::is_in_years;

/// How many occurrences of a series are told.
const TOLD: u32 = 10;

/// The end of the wall seconds that `next_until` is asked about.
const FAR: u64 = 1 << 57;

/// What is told of the `rules` from a `start`, or `bad`. None where the row can't be read.
pub fn told(alloc: Global, asked: &Tree) -> Result<Option<String>, AllocError> {
    match (wall_at(asked, "start"), asked.get("rules")) {
        (Some(start), Some(rules)) => told_of(alloc, start, rules, asked),
        _ => Ok(None),
    }
}

fn told_of(
    alloc: Global,
    start: Wall,
    rules: &Tree,
    asked: &Tree,
) -> Result<Option<String>, AllocError> {
    if !is_in_years(start) {
        return Ok(None);
    }
    match read_rules(alloc, rules, start) {
        Ok(rules) => Ok(Some(told_of_rules(alloc, start, rules, asked)?)),
        Err(RulesError::BadRules) => Ok(Some(String::from_str(alloc, "bad")?)),
        Err(RulesError::NoMemory) => Err(AllocError),
    }
}

// What the table asks of the rules: the first occurrences, the last day, or whether a day is in the set.
fn told_of_rules(
    alloc: Global,
    start: Wall,
    rules: Rules,
    asked: &Tree,
) -> Result<String, AllocError>
    requires years { is_in_years start ≡ true }
    requires few { length rules ≤ 4 }
{
    if asked.get("last").is_some() {
        return last_days(alloc, start, &rules);
    }
    if let Some(Tree::Whole(day)) = asked.get("day") {
        return on_day(alloc, start, &rules, day.get());
    }
    let series = hourly(start, rules);
    match asked.get("times") {
        Some(Tree::Whole(times)) => asked_again(alloc, &series, asked, times.get()),
        _ => first_occurrences(alloc, &series, &last_asked(asked)),
    }
}

// A series of hours from a start, without exceptions.
fn hourly(start: Wall, rules: Rules) -> Series
    requires years { is_in_years start ≡ true }
    requires few { length rules ≤ 4 }
{
    Series {
        start,
        length: Length {
            days: 0,
            seconds: 3600,
        },
        occupying: true,
        rules,
        exceptions: Exceptions::none(),
    }
}

// The last wall second that is asked about, if there is one.
fn last_asked(asked: &Tree) -> Option<Wall>
    ensures { IfSome result (λ w. unsigned_abs w < 2 ^ 57) }
{
    let Some(to) = wall_at(asked, "to") else {
        return None;
    };
    if to.seconds().unsigned_abs() < FAR {
        return Some(to);
    }
    None
}

fn copy_of(wall: &Option<Wall>) -> Option<Wall>
    ensures { result ≡ wall.now }
{
    match wall {
        Some(wall) => Some(*wall),
        None => None,
    }
}

// How many of so many questions for the next occurrence had an answer, from a wall second on and behind the year 9999 from there again.
//
// It is there to measure how long a question takes.
fn asked_again(
    alloc: Global,
    series: &Series,
    asked: &Tree,
    times: i128,
) -> Result<String, AllocError> {
    let from = wall_at(asked, "from").unwrap_or(series.start);
    let to = last_asked(asked);
    let mut here = from;
    let mut answers: u64 = 0;
    for _ in 0..times.unsigned_abs() {
        if !is_in_years(here) {
            here = from;
        }
        if here.seconds().unsigned_abs() >= FAR {
            break;
        }
        if let Some(next) = next_until(series, here, Some(here), copy_of(&to)) {
            here = next.start;
            answers = answers.saturating_add(1);
        }
    }
    let mut text = String::new(alloc);
    write!(&mut text, "{answers}")?;
    Ok(text)
}

// The starts of the first occurrences up to a wall second, if one is given, one after another.
fn first_occurrences(
    alloc: Global,
    series: &Series,
    to: &Option<Wall>,
) -> Result<String, AllocError>
    requires { IfSome to.now (λ w. unsigned_abs w < 2 ^ 57) }
{
    let mut text = String::new(alloc);
    let mut from = series.start;
    let mut past = None;
    for _ in 0..TOLD {
        if from.seconds().unsigned_abs() >= FAR {
            break;
        }
        let Some(next) = next_until(series, from, past, copy_of(to)) else {
            break;
        };
        if !text.is_empty() {
            text.push(' ')?;
        }
        push_wall(alloc, &mut text, next.start)?;
        from = next.start;
        past = Some(next.rid);
    }
    Ok(text)
}

// The last day of each rule.
fn last_days(alloc: Global, start: Wall, rules: &Rules) -> Result<String, AllocError>
    requires { is_in_years start ≡ true }
{
    let mut text = String::new(alloc);
    for rule in rules.items() {
        match last_day(rule, start) {
            Bound::Endless => text.push_str("endless")?,
            Bound::Last(day) => write!(&mut text, "{day}")?,
        }
    }
    Ok(text)
}

// For each rule whether the day is in its set.
fn on_day(alloc: Global, start: Wall, rules: &Rules, day: i128) -> Result<String, AllocError>
    requires { is_in_years start ≡ true }
{
    let mut text = String::new(alloc);
    for rule in rules.items() {
        if day.unsigned_abs() < 1 << 41 && occurs_on(rule, start, day as i64) {
            text.push_str("yes")?;
        } else {
            text.push_str("no")?;
        }
    }
    Ok(text)
}
