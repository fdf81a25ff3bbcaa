//! Whether live objects are sound: whether an account would store them as they stand.
ghost use Rattle.std.specs.Prelude.{◌≡◌, IfNone, IfOk, IfSome, List, false, map, not, true};
ghost use Rattle.std.specs.List.{list_all};
ghost use Rattle.cal_model.specs.Sound.{has_moment, has_own_id, has_server_values, is_moment_text};
ghost use Rattle.cal_model.specs.SoundObjects.{is_sound_object};
ghost use Rattle.spec_history.specs.declared.entry.Change.{Change as AnyChange};
ghost use Rattle.spec_history.specs.declared.entry.Kind.TheVariants.{Calendar as calendar_kind, Event as event_kind};
ghost use Rattle.spec_bookings.specs.Resources.{resources_of};
ghost use Rattle.spec_json.specs.Parts.{is_null};
ghost use Rattle.spec_json.specs.TreeData.{data_of, pair_of};
ghost use Rattle.object_outcomes.specs.Judging.{IsStorable};

use crate::booking_rules::has_long_exception;
use crate::event::with_own_names;
use cal_model::view::CalendarsView;
use calendar_model::read::{CalendarError, read_calendar};
use event_series::read::read_event;
use single_event::read::EventError;
use spec_history::entry::Kind;
use spec_json::text::Text;
use spec_json::tree::{Member, Tree};
use spec_series::series::Series;
use spec_time::moment::LAST_MOMENT;
use std::alloc::{AllocError, Global};
use time_text::{object_id_text, read_utc};
use zone_table::Zones;

/// Whether a live calendar of this number is sound. Takes memory as storing it does.
pub fn is_sound_calendar(
    alloc: Global,
    zones: &Zones,
    number: u64,
    calendar: &Tree,
) -> Result<bool, AllocError>
    ensures { (cs : List AnyChange) → IfOk result (λ b. b ≡ is_sound_object zones.now cs calendar_kind number (data_of calendar.now)) }
{
    if !has_own_id(alloc, Kind::Calendar, number, calendar)? {
        return Ok(false);
    }
    match read_calendar(alloc, calendar, zones) {
        Ok(read) => Ok(read.tree(alloc)?.same(calendar)),
        Err(CalendarError::BadCalendar { .. }) => Ok(false),
        Err(CalendarError::NoMemory) => Err(AllocError),
    }
}

/// The series of a live event of this number that is in these resources, where it is sound. Takes memory as storing it does.
pub fn sound_event<V: CalendarsView>(
    alloc: Global,
    view: &V,
    zones: &Zones,
    number: u64,
    event: &Tree,
    resources: &[u64],
) -> Result<Option<Series>, AllocError>
    requires resources { resources.now ≡ resources_of (V.changes view.now) (data_of event.now) }
    requires zones { (V.base view.now).zones ≡ zones.now }
    ensures sound { IfOk result (λ s. IfSome s (λ series. is_sound_object zones.now (V.changes view.now) event_kind number (data_of event.now) ≡ true)) }
    ensures storable { IfOk result (λ s. IfSome s (IsStorable zones.now (V.changes view.now) (data_of event.now))) }
    ensures unsound { IfOk result (λ s. IfNone s (is_sound_object zones.now (V.changes view.now) event_kind number (data_of event.now) ≡ false)) }
{
    if !has_server_values(alloc, number, event)? {
        return Ok(None);
    }
    match read_event(alloc, event, zones) {
        Ok(series) => {
            let is_long = has_long_exception(&series, resources);
            let none = Vec::new(alloc);
            let names = with_own_names(alloc, view, None, false, is_long, event, resources, none)?;
            if names.is_empty() {
                Ok(Some(series))
            } else {
                Ok(None)
            }
        }
        Err(EventError::BadEvent { .. }) => Ok(None),
        Err(EventError::NoMemory) => Err(AllocError),
    }
}

// Whether what the server sets or supplies of an event stands in it, as it is stored.
fn has_server_values(alloc: Global, number: u64, event: &Tree) -> Result<bool, AllocError>
    ensures { IfOk result (λ b. b ≡ has_server_values event_kind number (data_of event.now)) }
{
    Ok(
        has_own_id(alloc, Kind::Event, number, event)?
            && event.get("@type").is_some()
            && has_moment(event, "created")
            && has_moment(event, "updated")
            && has_no_null(event.members_in()),
    )
}

fn has_own_id(alloc: Global, kind: Kind, number: u64, object: &Tree) -> Result<bool, AllocError>
    ensures { IfOk result (λ b. b ≡ has_own_id kind number (data_of object.now)) }
{
    match object.text_at("id") {
        Some(id) => Ok(id.as_str() == object_id_text(alloc, kind, number)?.as_str()),
        None => Ok(false),
    }
}

fn has_moment(object: &Tree, key: &str) -> bool
    ensures { result ≡ has_moment key.now (data_of object.now) }
{
    match object.text_at(key) {
        Some(text) => is_moment_text(text),
        None => false,
    }
}

fn is_moment_text(text: &Text) -> bool
    ensures { result ≡ is_moment_text text.now }
{
    match read_utc(text.as_str().as_bytes()) {
        Some(seconds) => 0 <= seconds && seconds <= LAST_MOMENT,
        None => false,
    }
}

fn has_no_null(members: &[Member]) -> bool
    ensures { result ≡ list_all (λ p. not (is_null p.1)) (map pair_of members.now) }
{
    for member in members {
        if member.value.is_null() {
            return false;
        }
    }
    true
}
