//! The events of a row: a series in a zone.
ghost use Rattle.std.specs.Prelude.{◌≡◌, ◌≤◌, IfOk, IfSome, length as count, true};
ghost use Rattle.spec_series.specs.SeriesLimits.{are_distinct, are_in_years, are_short, wall_seconds};
ghost use Rattle.spec_time.specs.Walls.{is_in_years};

use crate::windows::fields::{length_at, rule_at, wall_in_years};
use jiff_tz::posix::TimeZone;
use rule_read::{RulesError, read_rules};
use spec_json::tree::Tree;
use spec_series::exception::{Exception, Exceptions, Span};
use spec_series::rules::Rules;
use spec_series::series::Series;
use spec_time::length::Length;
use spec_time::wall::Wall;
use std::alloc::{AllocError, Global};

/// An event: its series, and the rule of its zone.
#[derive(Drop)]
pub struct ZonedSeries {
    /// The occurrences.
    pub series: Series,
    /// The rule of the zone.
    pub rule: TimeZone,
}

/// The event that an object is, with `zone`, `start`, `duration`, `rules`, `free`, and in `moved` one override, which has `rid` and may have
/// `start` and `duration`. None where it isn't one.
pub fn event_in(alloc: Global, tree: &Tree) -> Result<Option<ZonedSeries>, AllocError> {
    let Some(rule) = rule_at(alloc, tree)? else {
        return Ok(None);
    };
    let (Some(start), Some(length)) = (wall_in_years(tree, "start"), length_at(tree, "duration"))
    else {
        return Ok(None);
    };
    let Some(rules) = rules_at(alloc, tree, start)? else {
        return Ok(None);
    };
    let occupying = !matches!(tree.get("free"), Some(Tree::Truth(true)));
    let exceptions = match tree.get("moved") {
        Some(moved) => moved_in(alloc, moved)?,
        None => no_exceptions(),
    };
    Ok(Some(ZonedSeries {
        series: series_of(start, length, occupying, rules, exceptions),
        rule,
    }))
}

fn rules_at(alloc: Global, tree: &Tree, start: Wall) -> Result<Option<Rules>, AllocError>
    requires { is_in_years start ≡ true }
    ensures { IfOk result (λ o. IfSome o (λ rules. count rules ≤ 4)) }
{
    let Some(rules) = tree.get("rules") else {
        return Ok(Some(Rules::new(Vec::new(alloc))));
    };
    match read_rules(alloc, rules, start) {
        Ok(rules) => Ok(Some(rules)),
        Err(RulesError::BadRules) => Ok(None),
        Err(RulesError::NoMemory) => Err(AllocError),
    }
}

// A list without exceptions, or with one.
#[derive(Drop)]
struct AtMostOne {
    exceptions: Exceptions,
    ghost few: { count exceptions ≤ 1 },
    ghost in_years: { are_in_years exceptions ≡ true },
    ghost short: { are_short exceptions ≡ true },
    ghost distinct: { are_distinct exceptions ≡ true },
}

fn no_exceptions() -> AtMostOne {
    AtMostOne {
        exceptions: Exceptions::none(),
    }
}

fn one_exception(alloc: Global, rid: Wall, replaced: Option<Span>) -> Result<AtMostOne, AllocError>
    requires rid { is_in_years rid ≡ true }
    requires start { IfSome replaced (λ s. is_in_years s.start ≡ true) }
    requires length { IfSome replaced (λ s. wall_seconds s.length ≤ 31622400) }
{
    let mut items = Vec::new(alloc);
    items.push(Exception { rid, replaced })?;
    let exceptions = Exceptions::new(alloc, items)?;
    Ok(AtMostOne { exceptions })
}

// What an override with `rid` comes to: it leaves the occurrence out where it has no `start`.
fn moved_in(alloc: Global, moved: &Tree) -> Result<AtMostOne, AllocError> {
    let Some(rid) = wall_in_years(moved, "rid") else {
        return Ok(no_exceptions());
    };
    one_exception(alloc, rid, span_in(moved))
}

fn span_in(moved: &Tree) -> Option<Span>
    ensures start { IfSome result (λ s. is_in_years s.start ≡ true) }
    ensures length { IfSome result (λ s. wall_seconds s.length ≤ 31622400) }
{
    let (Some(start), Some(length)) = (wall_in_years(moved, "start"), length_at(moved, "duration"))
    else {
        return None;
    };
    Some(Span {
        start,
        length,
        occupying: true,
    })
}

fn series_of(
    start: Wall,
    length: Length,
    occupying: bool,
    rules: Rules,
    exceptions: AtMostOne,
) -> Series
    requires start { is_in_years start ≡ true }
    requires length { wall_seconds length ≤ 31622400 }
    requires rules { count rules ≤ 4 }
{
    Series {
        start,
        length,
        occupying,
        rules,
        exceptions: exceptions.exceptions,
    }
}
