//! Rows of wall times, windows and busy periods.
mod events;
mod fields;

use availability::Busy;
use events::{ZonedSeries, event_in};
use fields::{instant_at, rule_at, wall_in_years, window_at};
use occurrence_windows::{expanded, matches_window};
use row_table::answers::push_wall;
use spec_json::tree::Tree;
use spec_time::wall::Wall;
use spec_windows::period::Period;
use std::alloc::{AllocError, Global};
use std::fmt::Write;
use time_text::{is_in_years, utc_text};
use zone_instants::instant;

/// What is told of a row: the instant of a wall time, the starts of the occurrences that overlap a window, whether there is one, or busy
/// periods. None where the row can't be read.
pub fn told(alloc: Global, asked: &Tree) -> Result<Option<String>, AllocError> {
    if let Some(wall) = wall_in_years(asked, "at") {
        return told_instant(alloc, asked, wall);
    }
    if let Some(Tree::List(events)) = asked.get("events") {
        return told_busy(alloc, asked, events.items());
    }
    let Some(event) = asked.get("event") else {
        return Ok(None);
    };
    let Some(event) = event_in(alloc, event)? else {
        return Ok(None);
    };
    if let Some(within) = asked.get("within") {
        return told_whether(alloc, &event, within);
    }
    told_starts(alloc, &event, asked)
}

fn told_instant(alloc: Global, asked: &Tree, wall: Wall) -> Result<Option<String>, AllocError> {
    let Some(rule) = rule_at(alloc, asked)? else {
        return Ok(None);
    };
    let mut text = String::new(alloc);
    match instant(&rule, wall) {
        Some(instant) => push_instant(alloc, &mut text, instant)?,
        None => text.push_str("none")?,
    }
    Ok(Some(text))
}

// An instant as a UTCDate, or as its number where it lies outside the years 0 to 9999.
fn push_instant(alloc: Global, text: &mut String, instant: i64) -> Result<(), AllocError> {
    if is_in_years(Wall::new(instant)) {
        text.push_str(utc_text(alloc, instant)?.as_str())
    } else {
        write!(text, "{instant}")
    }
}

// A space, where something stands before it.
fn push_space(text: &mut String) -> Result<(), AllocError> {
    if text.is_empty() {
        return Ok(());
    }
    text.push(' ')
}

fn told_whether(
    alloc: Global,
    event: &ZonedSeries,
    within: &Tree,
) -> Result<Option<String>, AllocError> {
    let answer = if matches_window(&event.series, &event.rule, window_at(within)) {
        "yes"
    } else {
        "no"
    };
    Ok(Some(String::from_str(alloc, answer)?))
}

fn told_starts(
    alloc: Global,
    event: &ZonedSeries,
    asked: &Tree,
) -> Result<Option<String>, AllocError> {
    let mut text = String::new(alloc);
    for o in &expanded(alloc, &event.series, &event.rule, window_at(asked))? {
        push_space(&mut text)?;
        push_wall(alloc, &mut text, o.start)?;
    }
    if text.is_empty() {
        text.push_str("none")?;
    }
    Ok(Some(text))
}

fn told_busy(alloc: Global, asked: &Tree, events: &[Tree]) -> Result<Option<String>, AllocError> {
    let (Some(from), Some(to)) = (instant_at(asked, "after"), instant_at(asked, "before")) else {
        return Ok(None);
    };
    let mut busy = Busy::new(alloc, Period { from, to });
    for event in events {
        let Some(event) = event_in(alloc, event)? else {
            return Ok(None);
        };
        busy.add(alloc, &event.series, &event.rule)?;
    }
    told_periods(alloc, &busy.into_periods(alloc)?)
}

fn told_periods(alloc: Global, periods: &[Period]) -> Result<Option<String>, AllocError> {
    let mut text = String::new(alloc);
    for p in periods {
        push_space(&mut text)?;
        push_instant(alloc, &mut text, p.from)?;
        text.push('/')?;
        push_instant(alloc, &mut text, p.to)?;
    }
    if text.is_empty() {
        text.push_str("none")?;
    }
    Ok(Some(text))
}
