//! Series as a table has them.
ghost use Rattle.std.specs.Prelude.{◌≡◌, ◌≤◌, length as count, true, IfOk, IfSome};
ghost use Rattle.spec_time.specs.Walls.{is_in_years};
ghost use Rattle.spec_series.specs.Lengths.{IsWeekLong};

use crate::limits::{are_distinct, are_in_years, are_short, are_week_long, is_week};
use row_table::members::{count_at, wall_at};
use rule_read::{RulesError, read_rules};
use spec_json::tree::Tree;
use spec_series::exception::{Exception, Exceptions, Span};
use spec_series::rules::Rules;
use spec_series::series::Series;
use spec_time::length::Length;
use spec_time::wall::Wall;
use std::alloc::{AllocError, Global};
use time_text::is_in_years;

/// The most exceptions of a series.
const MAX_EXCEPTIONS: usize = 128;

/// The series that a value tells, where it is one that may be booked.
pub fn series_in(alloc: Global, tree: &Tree) -> Result<Option<Series>, AllocError>
    ensures { IfOk result (λ o. IfSome o IsWeekLong) }
{
    let Some(start) = wall_at(tree, "start") else {
        return Ok(None);
    };
    if !is_in_years(start) {
        return Ok(None);
    }
    let exceptions = exceptions_in(alloc, tree)?;
    match tree.get("rules") {
        Some(rules) => match read_rules(alloc, rules, start) {
            Ok(rules) => Ok(booked(start, length_in(tree), is_busy(tree), rules, exceptions)),
            Err(RulesError::BadRules) => Ok(None),
            Err(RulesError::NoMemory) => Err(AllocError),
        },
        None => {
            let none = Rules::new(Vec::new(alloc));
            Ok(booked(start, length_in(tree), is_busy(tree), none, exceptions))
        }
    }
}

/// The length at `days` and `seconds`.
pub fn length_in(tree: &Tree) -> Length {
    Length {
        days: count_at(tree, "days"),
        seconds: count_at(tree, "seconds"),
    }
}

fn is_busy(tree: &Tree) -> bool {
    tree.get("free").is_none()
}

fn exceptions_in(alloc: Global, tree: &Tree) -> Result<Exceptions, AllocError> {
    let mut exceptions = Vec::new(alloc);
    if let Some(Tree::List(list)) = tree.get("exceptions") {
        for item in list.items() {
            if let Some(rid) = wall_at(item, "rid") {
                let replaced = wall_at(item, "start").map(|start| Span {
                    start,
                    length: length_in(item),
                    occupying: is_busy(item),
                });
                exceptions.push(Exception { rid, replaced })?;
            }
        }
    }
    Exceptions::new(alloc, exceptions)
}

// The series, where it keeps the limits.
fn booked(
    start: Wall,
    length: Length,
    occupying: bool,
    rules: Rules,
    exceptions: Exceptions,
) -> Option<Series>
    requires years { is_in_years start ≡ true }
    requires few { count rules ≤ 4 }
    ensures { IfSome result IsWeekLong }
{
    if !is_week(length) {
        return None;
    }
    if exceptions.items().len() > MAX_EXCEPTIONS {
        return None;
    }
    if !are_in_years(exceptions.items()) {
        return None;
    }
    if !are_short(exceptions.items()) {
        return None;
    }
    if !are_week_long(exceptions.items()) {
        return None;
    }
    if !are_distinct(exceptions.items()) {
        return None;
    }
    Some(Series {
        start,
        length,
        occupying,
        rules,
        exceptions,
    })
}
