//! Maps of the days that a rule gives in the cycle of 146097 days.
ghost use Rattle.std.specs.Prelude.{◌≡◌, ◌<◌, replicate, IfOk};
ghost use Rattle.spec_time.specs.Floor.{modulo};
ghost use Rattle.residue_clash.specs.RuleMaps.{residue_of, IsMapIn, IsMapOfRule};

use crate::kept::{is_given_on, ungiven_days};
use crate::phase::looks_at_weekdays;
use residue_solve::{Residues, fill};
use spec_series::rule::Rule;
use spec_series::series::Series;
use std::alloc::{AllocError, Global};
use std::marker::Model;

// The days of one kind that a rule gives, whatever their phase.
#[derive(Drop)]
struct DaysOf<'a> {
    rule: &'a Rule,
    pushed: bool,
}

impl Residues for DaysOf<'_> {
    ghost has = { λ d k. residue_of d.pushed d.rule.now k };

    fn is_in(&self, residue: u32) -> bool {
        is_given_on(self.rule, self.pushed, i64::from(residue))
    }

    fn absent(&self, residue: u32) -> u32 {
        ungiven_days(self.rule, self.pushed, i64::from(residue))
    }
}

/// The residue of a day.
pub(crate) fn residue(day: i64) -> u32
    ensures value { result ≡ modulo day 146097 }
    ensures bound { result < 146097 }
{
    day.rem_euclid(146_097) as u32
}

/// A map of days in memory. Contracts see its words.
#[derive(Drop)]
pub struct DayMap {
    words: Vec<u64>,
}

impl Model for DayMap {
    ghost use Rattle.std.specs.Prelude.{List, ℕ};

    ghost Value = { List ℕ };

    ghost view = { λ m. m.words.items };
}

impl DayMap {
    // A map of the days of one kind that a rule gives, or `None` where it looks at days of the week alone, which are told at once.
    pub(crate) fn of(alloc: Global, rule: &Rule, pushed: bool) -> Result<Option<DayMap>, AllocError>
        ensures { IfOk result (λ map. IsMapIn map (residue_of pushed rule.now)) }
    {
        if looks_at_weekdays(rule) {
            return Ok(None);
        }
        let mut words = vec![in alloc; 0u64; 2283]?;
        fill(&mut words, &DaysOf { rule, pushed });
        Ok(Some(DayMap { words }))
    }

    // The words.
    pub(crate) fn words(&self) -> &[u64]
        ensures { result.now ≡ self.now }
    {
        &self.words
    }
}

/// Fills a map with the days that one of the rules keeps or moves backward to, if there are so many and it doesn't look at days of the
/// week alone. Takes no memory.
pub fn fill_map(words: &mut [u64], series: &Series, k: usize)
    requires { words.old ≡ replicate 2283 0 }
    ensures { IsMapOfRule series.now k words.new }
{
    let rules = series.rules.items();
    if k < rules.len() && !looks_at_weekdays(&rules[k]) {
        fill(
            words,
            &DaysOf {
                rule: &rules[k],
                pushed: false,
            },
        );
    }
}

/// Whether some rule of a series looks at more than days of the week, so that a map of its days serves. Takes no memory.
pub fn wants_maps(series: &Series) -> bool {
    !series.rules.items().iter().all(looks_at_weekdays)
}
