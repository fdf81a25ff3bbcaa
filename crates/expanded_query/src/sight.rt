//! What a query sees of events whose occurrences are results.
ghost use Rattle.std.specs.Prelude.{◌≡◌, IfOk, IfSome, Some, flat_map, option_map, unwrap_or};
ghost use Rattle.event_store.specs.StoredEvents.{HasItsSeries};
ghost use Rattle.jiff_tz.specs.PosixText.{tz_view};
ghost use Rattle.occurrence_windows.specs.Bounds.{AreNear};
ghost use Rattle.expanded_query.specs.Founds.{given_by};
ghost use Rattle.expanded_query.specs.OwnTitles.{NamesOverrides};
ghost use Rattle.spec_json.specs.Parts.{some_of};
ghost use Rattle.spec_json.specs.TreeData.{data_of};
ghost use Rattle.spec_queries.specs.Expanded.{results_by};
ghost use Rattle.spec_windows.specs.ZoneRules.{rule_of, utc_rule};
ghost use Rattle.spec_windows.specs.declared.window.Window.{Window};

use crate::source::Source;
use event_store::StoredEvent;
use jiff_tz::posix::TimeZone;
use query_filter::{Filter, ZonedFilter};
use spec_json::text::Text;
use spec_json::tree::Tree;
use spec_series::series::Series;
use spec_windows::window::Window;
use std::alloc::{AllocError, Global};
use zone_instants::rule_of_event;
use zone_table::Zones;

/// The occurrences that overlap the window of a filter, of the events that it holds of. Its times and floating events are of one zone.
#[derive(Drop)]
pub(crate) struct OccurrenceSight<'a> {
    filter: ZonedFilter,
    zones: &'a Zones,
    floating: &'a Text,
    ghost zoned: { filter.clock ≡ unwrap_or (rule_of zones.now floating.now) utc_rule },
}

impl<'a> OccurrenceSight<'a> {
    ghost use Rattle.expanded_query.specs.Sights.{filter_window, gives, looks_for};

    /// What is seen by a filter whose zone has this rule. Takes memory for folded texts.
    pub(crate) fn new(
        alloc: Global,
        filter: Filter,
        rule: TimeZone,
        zones: &'a Zones,
        floating: &'a Text,
    ) -> Result<OccurrenceSight<'a>, AllocError>
        requires { Some (tz_view rule) ≡ rule_of zones.now floating.now }
        ensures sight { IfOk result (λ s. looks_for s ≡ (zones.now, (floating.now, filter))) }
        ensures zones { IfOk result (λ s. s.zones.now ≡ zones.now) }
    {
        Ok(OccurrenceSight {
            filter: filter.in_zone(alloc, rule)?,
            zones,
            floating,
        })
    }

    /// The window between the times of the filter. Takes no memory.
    pub(crate) fn window(&self) -> Window
        ensures value { result ≡ filter_window self.now }
        ensures near { AreNear result }
    {
        self.filter.window()
    }

    /// The event of a number, where its occurrences are results. Takes memory for folded texts.
    pub(crate) fn source<'b>(
        &self,
        alloc: Global,
        number: u64,
        event: &StoredEvent<'b>,
    ) -> Result<Option<Source<'b>>, AllocError>
        requires { HasItsSeries self.now.zones.now event.now }
        ensures { IfOk result (λ source. flat_map (given_by (filter_window self.now)) (some_of source) ≡ gives self.now number (data_of event.now.object.now)) }
    {
        let object = event.object;
        let series = event.series;
        if !self.filter.may_match(series) {
            return Ok(None);
        }
        let rule = rule_of_event(self.zones, self.floating, object);
        if self.filter.matches(alloc, object, series, rule.as_ref())? {
            Ok(source_of(number, object, series, rule))
        } else {
            Ok(None)
        }
    }
}

// An event with its series and the rule of its zone, where it has both.
fn source_of<'a>(
    number: u64,
    event: &'a Tree,
    series: Option<&'a Series>,
    rule: Option<TimeZone>,
) -> Option<Source<'a>>
    requires { IfSome series (λ s. NamesOverrides s.now (data_of event.now)) }
    ensures { (w : Window) → flat_map (given_by w) (some_of result) ≡ results_by (option_map (λ s. s.now) series.entry) (option_map tz_view rule) w number (data_of event.now) }
{
    match (series, rule) {
        (Some(series), Some(rule)) => Some(Source::new(number, event, series, rule)),
        _ => None,
    }
}
