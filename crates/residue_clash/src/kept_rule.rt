//! What is kept of a rule, so that it needn't be worked out again.
ghost use Rattle.std.specs.Prelude.{IfOk, true};
ghost use Rattle.residue_clash.specs.RuleMaps.{IsMapIn, residue_of};
ghost use Rattle.residue_clash.specs.RuleTracks.{IsKeptOf, AreKept};

use crate::kept::moves_forward;
use crate::rule_map::DayMap;
use crate::tracks::end_of;
use spec_series::rule::Rule;
use spec_series::series::Series;
use std::alloc::{AllocError, Global};

/// What is kept of a rule.
#[derive(Drop)]
pub struct KeptRule {
    /// The last day of the rule's set, where there is one.
    pub last: Option<i64>,
    /// A map of the days that it keeps or moves backward to, unless it looks at days of the week alone.
    pub own: Option<DayMap>,
    /// A map of the days that it moves forward to, if it does.
    pub pushed: Option<DayMap>,
}

// A map of the days that a rule moves forward to, if it does.
fn pushed_map(alloc: Global, rule: &Rule) -> Result<Option<DayMap>, AllocError>
    ensures { IfOk result (λ map. IsMapIn map (residue_of true rule.now)) }
{
    if moves_forward(rule) {
        DayMap::of(alloc, rule, true)
    } else {
        Ok(None)
    }
}

// What is kept of one of the rules, if there are so many.
fn kept_rule(alloc: Global, series: &Series, k: usize) -> Result<Option<KeptRule>, AllocError>
    ensures { IfOk result (IsKeptOf series.now k) }
{
    let rules = series.rules.items();
    if k >= rules.len() {
        return Ok(None);
    }
    let rule = &rules[k];
    let own = DayMap::of(alloc, rule, false)?;
    let pushed = pushed_map(alloc, rule)?;
    Ok(Some(KeptRule {
        last: end_of(rule, series.start),
        own,
        pushed,
    }))
}

/// What is kept of the rules of a series, in order.
pub(crate) fn kept_rules(
    alloc: Global,
    series: &Series,
) -> Result<[Option<KeptRule>; 4], AllocError>
    ensures { IfOk result (AreKept series.now) }
{
    let first = kept_rule(alloc, series, 0)?;
    let second = kept_rule(alloc, series, 1)?;
    let third = kept_rule(alloc, series, 2)?;
    let fourth = kept_rule(alloc, series, 3)?;
    Ok([first, second, third, fourth])
}
