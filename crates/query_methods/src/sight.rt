//! What a query sees of events.
ghost use Rattle.std.specs.Prelude.{◌≡◌, IfOk, Some, false, is_some, unwrap_or};
ghost use Rattle.std.specs.Coded.{codes};
ghost use Rattle.event_store.specs.StoredEvents.{HasItsSeries};
ghost use Rattle.jiff_tz.specs.PosixText.{tz_view};
ghost use Rattle.spec_filters.specs.Matches.{event_matches};
ghost use Rattle.spec_json.specs.TreeData.{data_of};
ghost use Rattle.spec_queries.specs.Items.{seen_where};
ghost use Rattle.spec_windows.specs.ZoneRules.{rule_of, utc_rule};
ghost use Rattle.query_filter.specs.AnyTime.{IsForAnyTime};

use crate::item::compared_item;
use event_store::StoredEvent;
use jiff_tz::posix::TimeZone;
use query_filter::{Filter, ZonedFilter};
use query_order::order::Order;
use spec_json::text::Text;
use spec_queries::item::Item;
use std::alloc::{AllocError, Global};
use zone_instants::rule_of_event;
use zone_table::Zones;

/// What a query sees of events: which its filter holds of, and by what they are compared. Its times and floating events are of one zone.
#[derive(Drop)]
pub(crate) struct Sight<'a> {
    filter: ZonedFilter,
    // whether the filter asks when an event is
    has_time: bool,
    zones: &'a Zones,
    floating: &'a Text,
    ghost zoned: { filter.clock ≡ unwrap_or (rule_of zones.now floating.now) utc_rule },
    ghost untimed: { has_time ≡ false → IsForAnyTime filter.filter } by { Prim.hlevel codes },
}

impl<'a> Sight<'a> {
    ghost use Rattle.query_methods.specs.Compared.{seen_in};
    ghost use Rattle.query_methods.specs.Sights.{seen_by};

    /// What is seen by a filter whose zone has this rule. Takes memory for folded texts.
    pub(crate) fn new(
        alloc: Global,
        filter: Filter,
        rule: TimeZone,
        zones: &'a Zones,
        floating: &'a Text,
    ) -> Result<Sight<'a>, AllocError>
        requires { Some (tz_view rule) ≡ rule_of zones.now floating.now }
        ensures sight { IfOk result (λ s. seen_by s ≡ seen_where (event_matches zones.now floating.now filter) zones.now floating.now) }
        ensures zones { IfOk result (λ s. s.zones.now ≡ zones.now) }
    {
        let has_time = filter.has_time();
        Ok(Sight {
            filter: filter.in_zone(alloc, rule)?,
            has_time,
            zones,
            floating,
        })
    }

    /// Whether the filter holds of an event.
    pub(crate) fn holds(&self, alloc: Global, event: &StoredEvent<'_>) -> Result<bool, AllocError>
        requires { HasItsSeries self.now.zones.now event.now }
        ensures { IfOk result (λ b. b ≡ is_some (seen_by self.now event.now.object.now)) }
    {
        self.meets(alloc, event)
    }

    /// What the comparators of an order see of an event, or `None` where the filter doesn't hold of it.
    pub(crate) fn see(
        &self,
        alloc: Global,
        order: &Order,
        event: &StoredEvent<'_>,
    ) -> Result<Option<Item>, AllocError>
        requires { HasItsSeries self.now.zones.now event.now }
        ensures { IfOk result (λ o. o ≡ seen_in order.now (seen_by self.now) event.now.object.now) }
    {
        if self.meets(alloc, event)? {
            let item = compared_item(alloc, self.zones, self.floating, order, event.object)?;
            Ok(Some(item))
        } else {
            Ok(None)
        }
    }

    // Whether the filter holds of an event. The rule of its zone is looked up only where the filter asks when the event is, and its
    // series doesn't tell already that it is at another time.
    fn meets(&self, alloc: Global, event: &StoredEvent<'_>) -> Result<bool, AllocError>
        requires { HasItsSeries self.now.zones.now event.now }
        ensures { IfOk result (λ b. b ≡ event_matches self.now.zones.now self.now.floating.now self.now.filter.filter (data_of event.now.object.now)) }
    {
        if !self.has_time {
            return self.filter.matches(alloc, event.object, None, None);
        }
        if !self.filter.may_match(event.series) {
            return Ok(false);
        }
        let rule = rule_of_event(self.zones, self.floating, event.object);
        self.filter
            .matches(alloc, event.object, event.series, rule.as_ref())
    }
}
