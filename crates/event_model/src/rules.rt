//! The rules of an event.
ghost use Rattle.std.specs.Prelude.{◌≡◌, ◌<◌, ◌≤◌, ◌^◌, IfOk, length, true, unsigned_abs};
ghost use Rattle.std.specs.List.{list_any};
ghost use Rattle.spec_json.specs.TreeData.{data_of};
ghost use Rattle.spec_recurrence.specs.RulesOf.{rules_meant, rules_of_event};
ghost use Rattle.spec_series.specs.Occurrences.{is_day};
ghost use Rattle.spec_series.specs.RuleSets.{is_in_set};
ghost use Rattle.spec_time.specs.Walls.{is_in_years};

use crate::dates::day_of;
use rule_expand::occurs_on;
use rule_read::{RulesError, read_rules};
use single_event::parts::start_of;
use spec_json::tree::Tree;
use spec_series::rule::Rule;
use spec_series::rules::Rules;
use spec_time::wall::Wall;
use std::alloc::{AllocError, Global};

/// The rules of an event (RFC 8984 section 4.3.3), none where it may not have them. Takes memory for them.
pub fn rules_of_event(alloc: Global, event: &Tree) -> Result<Rules, AllocError>
    ensures value { IfOk result (λ rules. rules ≡ rules_of_event (data_of event.now)) }
    ensures few { IfOk result (λ rules. length rules ≤ 4) }
{
    match event.get("recurrenceRules") {
        Some(rules) => rules_meant(alloc, rules, start_of(event)),
        None => Ok(Rules::new(Vec::new(alloc))),
    }
}

#[tactic(auto, using(spec_recurrence::proofs::RuleLemmas::rules_back))]
fn rules_meant(alloc: Global, rules: &Tree, start: Wall) -> Result<Rules, AllocError>
    requires { is_in_years start ≡ true }
    ensures value { IfOk result (λ rs. rs ≡ rules_meant start (data_of rules.now)) }
    ensures few { IfOk result (λ rs. length rs ≤ 4) }
{
    match read_rules(alloc, rules, start) {
        Ok(rules) => Ok(rules),
        Err(RulesError::BadRules) => Ok(Rules::new(Vec::new(alloc))),
        Err(RulesError::NoMemory) => Err(AllocError),
    }
}

/// Whether rules give a day, for a series that starts at a wall second; without rules it is the day of that.
pub(crate) fn is_day(rules: &[Rule], start: Wall, day: i64) -> bool
    requires years { is_in_years start ≡ true }
    requires near { unsigned_abs day < 2 ^ 41 }
    ensures { result ≡ is_day rules.now start day }
{
    if rules.is_empty() {
        day == day_of(start)
    } else {
        is_day_of_any(rules, start, day)
    }
}

fn is_day_of_any(rules: &[Rule], start: Wall, day: i64) -> bool
    requires years { is_in_years start ≡ true }
    requires near { unsigned_abs day < 2 ^ 41 }
    ensures { result ≡ list_any (λ rule. is_in_set rule start day) rules.now }
{
    for rule in rules {
        if occurs_on(rule, start, day) {
            return true;
        }
    }
    false
}
