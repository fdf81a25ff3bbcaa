//! The table of an event's properties.
ghost use Rattle.std.specs.Prelude.{◌≡◌, ◌&&◌, ◌∷◌, [], Some, IfOk, codes, is_some, map};
ghost use Rattle.std.specs.List.{list_all};
ghost use Rattle.spec_events.specs.Events.{are_calendar_ids, event_table, is_calendar_member, is_free_busy_status, is_status, other_property};
ghost use Rattle.spec_events.specs.Participants.{are_participants};
ghost use Rattle.spec_events.specs.Values.{is_empty_list, is_false, is_object_that, is_one_of, is_shallow, is_short_duration, is_start};
ghost use Rattle.spec_history.specs.ObjectId.{object_number};
ghost use Rattle.spec_history.specs.declared.entry.Kind.TheVariants.{Calendar};
ghost use Rattle.spec_json.specs.TreeData.{data_of, pair_of};
ghost use Rattle.spec_site.specs.TimeZones.{has_zone};
ghost use Rattle.property_table.specs.Table.{test_at};
ghost use Rattle.property_table.specs.Values.{is_text_that};

use crate::depth::is_shallow;
use crate::recurrence::is_empty_list;
use crate::times::{is_short_duration, is_start};
use participants::table::are_participants;
use property_table::table::PropertyTable;
use property_table::values::{is_name, is_text};
use spec_core::names;
use spec_events::limits::MAX_CALENDARS;
use spec_events::values::{is_one_of, is_true};
use spec_history::entry::Kind;
use spec_json::tree::{Member, Tree};
use std::alloc::{AllocError, Global};
use time_text::read_object_id;
use zone_table::Zones;

/// The properties of an event where these time zones are known.
#[derive(Clone, Copy)]
pub struct EventTable<'a> {
    pub alloc: Global,
    pub zones: &'a Zones,
}

impl PropertyTable for EventTable<'_> {
    ghost use Rattle.spec_events.specs.Events.{event_table};

    ghost table = { λ t. event_table t.zones.now };

    fn passes(&self, name: &str, value: &Tree) -> Result<bool, AllocError> {
        passes(self.alloc, self.zones, name, value)
    }

    #[tactic(auto, unfolding(spec_events::specs::Events::event_table))]
    fn required_names(&self) -> &'static [&'static str] {
        &["uid", "calendarIds", "start"]
    }
}

#[tactic(auto, unfolding(spec_events::specs::Events::event_table))]
fn passes(alloc: Global, zones: &Zones, name: &str, value: &Tree) -> Result<bool, AllocError>
    ensures { IfOk result (λ b. b ≡ test_at (event_table zones.now) name.now (Some (data_of value.now))) }
{
    match name {
        "@type" => Ok(is_event_type(value)),
        "uid" => Ok(is_name(value)),
        "calendarIds" => Ok(are_calendar_ids(value)),
        "start" => Ok(is_start_text(value)),
        "duration" => Ok(is_duration_text(value)),
        "timeZone" => Ok(is_zone(zones, value)),
        "status" => Ok(is_status(value)),
        "freeBusyStatus" => Ok(is_free_busy_status(value)),
        "title" | "description" => Ok(is_text(value)),
        "participants" => are_shallow_participants(alloc, value),
        "excluded" => Ok(is_false(value)),
        "excludedRecurrenceRules" => Ok(is_empty_list(value)),
        "recurrenceId" | "baseEventId" => Ok(false),
        _ => Ok(is_other_property(name, value)),
    }
}

fn is_other_property(name: &str, value: &Tree) -> bool
    ensures { result ≡ other_property name.now (Some (data_of value.now)) }
{
    names::is_name(name) && is_shallow(value)
}

fn is_event_type(value: &Tree) -> bool
    ensures { result ≡ is_one_of (codes "Event" ∷ []) (data_of value.now) }
{
    is_one_of(value, &["Event"])
}

fn is_status(value: &Tree) -> bool
    ensures { result ≡ is_status (data_of value.now) }
{
    is_one_of(value, &["confirmed", "cancelled", "tentative"])
}

fn is_free_busy_status(value: &Tree) -> bool
    ensures { result ≡ is_free_busy_status (data_of value.now) }
{
    is_one_of(value, &["free", "busy"])
}

fn is_false(value: &Tree) -> bool
    ensures { result ≡ is_false (data_of value.now) }
{
    match value {
        Tree::Truth(truth) => !*truth,
        _ => false,
    }
}

fn is_zone(zones: &Zones, value: &Tree) -> bool
    ensures { result ≡ is_text_that (has_zone zones.now) (data_of value.now) }
{
    match value {
        Tree::Text(text) => zones.has(text),
        _ => false,
    }
}

fn is_start_text(value: &Tree) -> bool
    ensures { result ≡ is_text_that is_start (data_of value.now) }
{
    match value {
        Tree::Text(text) => is_start(text.as_str().as_bytes()),
        _ => false,
    }
}

fn is_duration_text(value: &Tree) -> bool
    ensures { result ≡ is_text_that is_short_duration (data_of value.now) }
{
    match value {
        Tree::Text(text) => is_short_duration(text.as_str().as_bytes()),
        _ => false,
    }
}

fn are_shallow_participants(alloc: Global, value: &Tree) -> Result<bool, AllocError>
    ensures { IfOk result (λ b. b ≡ (is_object_that are_participants (data_of value.now) && is_shallow (data_of value.now))) }
{
    if !is_shallow(value) {
        return Ok(false);
    }
    are_participants(alloc, value)
}

#[tactic(auto, using(spec_json::specs::Data::pairs_back))]
fn are_calendar_ids(value: &Tree) -> bool
    ensures { result ≡ is_object_that are_calendar_ids (data_of value.now) }
{
    match value {
        Tree::Object(object) => are_few_calendars(object.members()),
        _ => false,
    }
}

fn are_few_calendars(members: &[Member]) -> bool
    ensures { result ≡ are_calendar_ids (map pair_of members.now) }
{
    !members.is_empty() && members.len() <= MAX_CALENDARS && all_calendars(members)
}

fn all_calendars(members: &[Member]) -> bool
    ensures { result ≡ list_all is_calendar_member (map pair_of members.now) }
{
    for member in members {
        if !is_calendar_member(member) {
            return false;
        }
    }
    true
}

fn is_calendar_member(member: &Member) -> bool
    ensures { result ≡ is_calendar_member (pair_of member.now) }
{
    is_calendar_id(member.key.as_str().as_bytes()) && is_true(&member.value)
}

fn is_calendar_id(id: &[u8]) -> bool
    ensures { result ≡ is_some (object_number Calendar id.now) }
{
    read_object_id(Kind::Calendar, id).is_some()
}
