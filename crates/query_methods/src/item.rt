//! What comparators see of an event.
ghost use Rattle.std.specs.Prelude.{◌≡◌, IfOk, option_and_then};
ghost use Rattle.spec_json.specs.Parts.{text_at};
ghost use Rattle.spec_json.specs.TreeData.{data_of};
ghost use Rattle.spec_queries.specs.Items.{item_of, utc_moment, start_instant, text_or_empty};
ghost use Rattle.query_methods.specs.Compared.{compared, with_property};
ghost use Rattle.spec_time.specs.LocalTimes.{utc_in};

use query_order::order::Order;
use single_event::parts::start_of;
use spec_json::text::Text;
use spec_json::tree::Tree;
use spec_queries::comparator::Property;
use spec_queries::item::Item;
use std::alloc::{AllocError, Global};
use time_text::read_utc;
use zone_instants::{instant, rule_of_event};
use zone_table::Zones;

/// What the comparators of an order see of an event: a floating one starts by the clock of the zone `floating`. What none of them compares is
/// left empty, and isn't looked up.
///
/// Takes memory for copies of its uid and title, where these are compared.
pub(crate) fn compared_item(
    alloc: Global,
    zones: &Zones,
    floating: &Text,
    order: &Order,
    event: &Tree,
) -> Result<Item, AllocError>
    ensures { IfOk result (λ item. item ≡ compared order.now (item_of zones.now floating.now (data_of event.now))) }
{
    let mut item = Item {
        start: 0,
        uid: Text::empty(),
        title: Text::empty(),
        created: 0,
        updated: 0,
    };
    for comparator in order.comparators() {
        item = with_property(alloc, zones, floating, comparator.property, event, item)?;
    }
    Ok(item)
}

// The item, where it has a property of an event.
fn with_property(
    alloc: Global,
    zones: &Zones,
    floating: &Text,
    property: Property,
    event: &Tree,
    item: Item,
) -> Result<Item, AllocError>
    ensures { IfOk result (λ i. i ≡ with_property (item_of zones.now floating.now (data_of event.now)) property item) }
{
    let mut item = item;
    match property {
        Property::Start => item.start = start_instant(zones, floating, event),
        Property::Uid => item.uid = text_or_empty(alloc, event, "uid")?,
        Property::Title => item.title = text_or_empty(alloc, event, "title")?,
        Property::Created => item.created = utc_moment(event, "created"),
        Property::Updated => item.updated = utc_moment(event, "updated"),
    }
    Ok(item)
}

/// The text at a key of an event, empty where there is none. Takes memory for a copy.
pub fn text_or_empty(alloc: Global, event: &Tree, key: &str) -> Result<Text, AllocError>
    ensures { IfOk result (λ text. text ≡ text_or_empty key.now (data_of event.now)) }
{
    match event.text_at(key) {
        Some(text) => text.copy(),
        None => Text::from_str(alloc, ""),
    }
}

/// The moment that the UTCDate at a key of an event names, in seconds of UTC from 1970, or 0 where there is none. Takes no memory.
pub fn utc_moment(event: &Tree, key: &str) -> i64
    ensures { result ≡ utc_moment key.now (data_of event.now) }
{
    match given_moment(event, key) {
        Some(moment) => moment,
        None => 0,
    }
}

fn given_moment(event: &Tree, key: &str) -> Option<i64>
    ensures { result ≡ option_and_then utc_in (text_at key.now (data_of event.now)) }
{
    read_utc(event.text_at(key)?.as_str().as_bytes())
}

fn start_instant(zones: &Zones, floating: &Text, event: &Tree) -> i64
    ensures { result ≡ start_instant zones.now floating.now (data_of event.now) }
{
    let Some(rule) = rule_of_event(zones, floating, event) else {
        return 0;
    };
    match instant(&rule, start_of(event)) {
        Some(start) => start,
        None => 0,
    }
}
