//! Filters whose times are those of a zone.
ghost use Rattle.std.specs.Prelude.{◌≡◌, [], IfOk, false, map, option_map, unwrap_or};
ghost use Rattle.jiff_tz.specs.PosixText.{tz_view};
ghost use Rattle.spec_filters.specs.Filters.{all_true, holds, operator_holds, some_true};
ghost use Rattle.spec_filters.specs.Matches.{instants_asked, matches_by};
ghost use Rattle.spec_json.specs.Data.{members_of, object};
ghost use Rattle.spec_json.specs.Parts.{as_text, members_in};
ghost use Rattle.spec_json.specs.TreeData.{data_of};
ghost use Rattle.occurrence_windows.specs.Bounds.{AreNear};
ghost use Rattle.query_filter.specs.EventTests.{event_meets};
ghost use Rattle.query_filter.specs.Skips.{IsForNoneOf, may_match};

use crate::alone::may_overlap;
use crate::clock::Clock;
use crate::condition::{EventTest, instants_asked};
use crate::conditions::conditions_of;
use crate::filter::Filter;
use crate::members::given;
use crate::needles::Needles;
use crate::times::{Times, times_of};
use jiff_tz::posix::TimeZone;
use spec_json::text::Text;
use spec_json::tree::{Tree, TreeObject};
use spec_series::series::Series;
use spec_windows::window::Window;
use std::alloc::{AllocError, Global};
use std::marker::Model;

/// A filter whose times are those of a zone. Contracts see the filter and the rule of the zone.
#[derive(Drop)]
pub struct ZonedFilter {
    filter: Filter,
    clock: Clock,
    needles: Needles,
    // of a filter that is one condition which asks when an event is
    times: Option<Times>,
}

impl Model for ZonedFilter {
    ghost use Rattle.std.specs.Prelude.{◌≡◌, IfSome};
    ghost use Rattle.std.specs.Coded.{codes};
    ghost use Rattle.spec_json.specs.DataCode.{data_code};
    ghost use Rattle.occurrence_windows.specs.Bounds.{AreNear};
    ghost use Rattle.query_filter.specs.InZone.{FilterInZone};
    ghost use Rattle.query_filter.specs.KeptTimes.{times_of};

    ghost Value = { FilterInZone };

    ghost coded = { Prim.hlevel (codes, data_code) };

    ghost view = { λ a. record { filter = a.filter; clock = a.clock } };

    ghost invariant = { λ a. (a.times ≡ times_of a.clock a.filter) × IfSome a.times (λ t. AreNear t.window) };
}

impl Filter {
    /// The filter, with the times of a zone of this rule. Takes memory for folded texts.
    pub fn in_zone(self, alloc: Global, rule: TimeZone) -> Result<ZonedFilter, AllocError>
        ensures { IfOk result (λ f. f ≡ record { filter = self; clock = tz_view rule }) }
    {
        let mut clock = Clock::new(alloc, rule);
        let mut needles = Needles::new(alloc);
        keep_all(alloc, &self.tree, &mut clock, &mut needles)?;
        let times = times_of(&clock, &self.tree);
        Ok(ZonedFilter {
            filter: self,
            clock,
            needles,
            times,
        })
    }
}

impl ZonedFilter {
    /// Whether the filter holds of an event, by its series and the rule of its zone, where it has such (`rule_of_event`). Where the
    /// filter doesn't ask when an event is (`has_time`), both may be left out. Takes memory for folded texts.
    pub fn matches(
        &self,
        alloc: Global,
        event: &Tree,
        series: Option<&Series>,
        rule: Option<&TimeZone>,
    ) -> Result<bool, AllocError>
        ensures { IfOk result (λ b. b ≡ matches_by self.now.clock (option_map (λ s. s.now) series.entry) (option_map (λ r. tz_view r.now) rule.entry) self.now.filter (data_of event.now)) }
    {
        let test = EventTest {
            alloc,
            clock: &self.clock,
            needles: &self.needles,
            event,
            series,
            rule,
        };
        match self.times {
            Some(times) => test.holds_by(times, &self.filter.tree),
            None => test.holds(&self.filter.tree),
        }
    }

    /// Whether the filter may hold of an event with this series, as far as that can be told without the rule of its zone. Takes no
    /// memory.
    #[tactic(auto, using(crate::proofs::SkipLemmas::skipped))]
    pub fn may_match(&self, series: Option<&Series>) -> bool
        ensures value { result ≡ may_match self.now (option_map (λ s. s.now) series.entry) }
        ensures none { result ≡ false → IsForNoneOf self.now (option_map (λ s. s.now) series.entry) }
    {
        match self.times {
            Some(times) => may_overlap(series, times.window),
            None => true,
        }
    }

    /// The window between the instants of `after` and `before`, where the filter is one condition. Takes no memory.
    pub fn window(&self) -> Window
        ensures value { result ≡ instants_asked self.now.clock (members_in self.now.filter) }
        ensures near { AreNear result }
    {
        match self.times {
            Some(times) => times.window,
            None => window_asked(&self.clock, &self.filter.tree),
        }
    }
}

impl<'a> EventTest<'a> {
    /// Whether a filter holds. Takes memory for folded texts.
    #[cycle(holds)]
    fn holds(&self, filter: &Tree) -> Result<bool, AllocError>
        ensures { IfOk result (λ b. b ≡ holds (event_meets self.now) (data_of filter.now)) }
    {
        match filter {
            Tree::Object(object) => self.object_holds(object),
            _ => Ok(true),
        }
    }

    #[cycle(holds)]
    fn object_holds(&self, filter: &TreeObject) -> Result<bool, AllocError>
        ensures { IfOk result (λ b. b ≡ holds (event_meets self.now) (object (members_of filter.now))) }
    {
        match given(filter, "operator") {
            None => self.meets(filter),
            Some(operator) => match conditions_of(filter) {
                None => self.operator_holds(name_of(operator), &[]),
                Some(conditions) => self.operator_holds(name_of(operator), conditions),
            },
        }
    }

    #[cycle(holds)]
    fn operator_holds(&self, operator: &str, conditions: &[Tree]) -> Result<bool, AllocError>
        ensures { IfOk result (λ b. b ≡ operator_holds operator.now (map (holds (event_meets self.now)) (map data_of conditions.now))) }
    {
        match operator {
            "AND" => self.all_hold(conditions),
            "OR" => self.any_holds(conditions),
            _ => Ok(!self.any_holds(conditions)?),
        }
    }

    #[cycle(holds)]
    #[tactic(auto, using(spec_json::specs::TreeDepth::item_falls))]
    fn all_hold(&self, filters: &[Tree]) -> Result<bool, AllocError>
        ensures { IfOk result (λ b. b ≡ all_true (map (holds (event_meets self.now)) (map data_of filters.now))) }
    {
        for filter in filters {
            if !self.holds(filter)? {
                return Ok(false);
            }
        }
        Ok(true)
    }

    #[cycle(holds)]
    #[tactic(auto, using(spec_json::specs::TreeDepth::item_falls))]
    fn any_holds(&self, filters: &[Tree]) -> Result<bool, AllocError>
        ensures { IfOk result (λ b. b ≡ some_true (map (holds (event_meets self.now)) (map data_of filters.now))) }
    {
        for filter in filters {
            if self.holds(filter)? {
                return Ok(true);
            }
        }
        Ok(false)
    }
}

// The window of a filter that is one condition.
#[tactic(auto, using(spec_json::specs::Data::pairs_back))]
fn window_asked(clock: &Clock, filter: &Tree) -> Window
    ensures value { result ≡ instants_asked clock.now (members_in (data_of filter.now)) }
    ensures near { AreNear result }
{
    match filter {
        Tree::Object(condition) => instants_asked(clock, condition),
        _ => Window {
            after: None,
            before: None,
        },
    }
}

// The text that a value is, or an empty one.
fn name_of(value: &Tree) -> &str
    ensures { result.now ≡ unwrap_or (as_text (data_of value.now)) [] }
{
    match value {
        Tree::Text(text) => text.as_str(),
        _ => "",
    }
}

// Folds the texts and reads the times of a filter, as far as there is room for them.
#[cycle(keep)]
fn keep_all(
    alloc: Global,
    filter: &Tree,
    clock: &mut Clock,
    needles: &mut Needles,
) -> Result<(), AllocError>
    ensures { clock.new ≡ clock.old }
{
    match filter {
        Tree::Object(object) => keep_object(alloc, object, clock, needles),
        _ => Ok(()),
    }
}

#[cycle(keep)]
fn keep_object(
    alloc: Global,
    filter: &TreeObject,
    clock: &mut Clock,
    needles: &mut Needles,
) -> Result<(), AllocError>
    ensures { clock.new ≡ clock.old }
{
    match conditions_of(filter) {
        Some(conditions) => keep_each(alloc, conditions, clock, needles),
        None => keep_condition(alloc, filter, clock, needles),
    }
}

#[cycle(keep)]
#[tactic(auto, using(spec_json::specs::TreeDepth::item_falls))]
fn keep_each(
    alloc: Global,
    filters: &[Tree],
    clock: &mut Clock,
    needles: &mut Needles,
) -> Result<(), AllocError>
    ensures { clock.new ≡ clock.old }
{
    for filter in filters {
        keep_all(alloc, filter, clock, needles)?;
    }
    Ok(())
}

fn keep_condition(
    alloc: Global,
    condition: &TreeObject,
    clock: &mut Clock,
    needles: &mut Needles,
) -> Result<(), AllocError>
    ensures { clock.new ≡ clock.old }
{
    keep_time(clock, condition.text_at("after"))?;
    keep_time(clock, condition.text_at("before"))?;
    keep_text(alloc, needles, condition.text_at("title"))?;
    keep_text(alloc, needles, condition.text_at("text"))?;
    keep_text(alloc, needles, condition.text_at("participant"))
}

fn keep_time(clock: &mut Clock, text: Option<&Text>) -> Result<(), AllocError>
    ensures { clock.new ≡ clock.old }
{
    match text {
        Some(text) => clock.keep(text),
        None => Ok(()),
    }
}

fn keep_text(alloc: Global, needles: &mut Needles, text: Option<&Text>) -> Result<(), AllocError> {
    match text {
        Some(text) => needles.keep(alloc, text),
        None => Ok(()),
    }
}
