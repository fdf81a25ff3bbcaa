//! Live objects, judged as if they were stored anew.
ghost use Rattle.std.specs.Prelude.{◌≡◌, ◌≤◌, [], IfErr, IfOk, OnOk, length, true};
ghost use Rattle.account_opening.specs.Again.{AreSound, again_at};
ghost use Rattle.account_opening.specs.Opening.{NamesUnsound};
ghost use Rattle.account_rooms.specs.Rooms.{AreRooms};
ghost use Rattle.account_store.specs.Store.{entries};
ghost use Rattle.spec_bookings.specs.Resources.{resources_at};
ghost use Rattle.spec_bookings.specs.declared.limits.TheConstants.{MAX_RESOURCES};
ghost use Rattle.spec_history.specs.History.{changes_of};
ghost use Rattle.spec_history.specs.declared.entry.Kind.TheVariants.{Calendar as calendar_kind, Event as event_kind};
ghost use Rattle.spec_snapshots.specs.Numbered.{are_numbered};

use crate::again::Again;
use crate::open::OpeningError;
use account_rooms::Rooms;
use account_store::Store;
use object_outcomes::sound::is_sound_calendar;
use spec_bookings::limits::MAX_RESOURCES;
use spec_history::entry::Kind;
use std::alloc::Global;
use zone_table::Zones;

/// The rooms of the live calendars of a store, where each is sound, and no more of them are of resources than an account may have.
pub(crate) fn judge_calendars(
    alloc: Global,
    zones: &Zones,
    store: &Store,
) -> Result<Rooms, OpeningError>
    requires { are_numbered [] (changes_of (entries store.now)) ≡ true }
    ensures rooms { IfOk result (λ r. AreRooms zones.now (again_at (changes_of (entries store.now)) 0) r.rooms) }
    ensures sound { OnOk result (AreSound zones.now (changes_of (entries store.now)) calendar_kind) }
    ensures resources { OnOk result (length (resources_at (changes_of (entries store.now))) ≤ MAX_RESOURCES) }
    ensures named { IfErr result (NamesUnsound zones.now (changes_of (entries store.now))) }
{
    let rooms = calendar_rooms(alloc, zones, store)?;
    let resources = rooms.calendars(alloc)?;
    if resources.len() > MAX_RESOURCES {
        return Err(OpeningError::BadObject {
            kind: Kind::Calendar,
            id: resources[MAX_RESOURCES],
        });
    }
    Ok(rooms)
}

// The rooms of the live calendars, where each is sound.
fn calendar_rooms(alloc: Global, zones: &Zones, store: &Store) -> Result<Rooms, OpeningError>
    requires { are_numbered [] (changes_of (entries store.now)) ≡ true }
    ensures rooms { IfOk result (λ r. AreRooms zones.now (again_at (changes_of (entries store.now)) 0) r.rooms) }
    ensures sound { OnOk result (AreSound zones.now (changes_of (entries store.now)) calendar_kind) }
    ensures named { IfErr result (NamesUnsound zones.now (changes_of (entries store.now))) }
{
    let mut rooms = Rooms::new(alloc);
    let ids = store.live_ids(alloc, Kind::Calendar)?;
    for id in &ids {
        let Some(calendar) = store.object(Kind::Calendar, *id) else {
            unreachable!()
        };
        if !is_sound_calendar(alloc, zones, *id, calendar)? {
            return Err(OpeningError::BadObject {
                kind: Kind::Calendar,
                id: *id,
            });
        }
        rooms.put_calendar(*id, calendar)?;
    }
    Ok(rooms)
}

/// The rooms of the live objects of a store, from those of its calendars, where each event is sound, and no second of a room is covered twice.
pub(crate) fn judge_events(
    alloc: Global,
    zones: &Zones,
    store: &Store,
    rooms: Rooms,
) -> Result<Rooms, OpeningError>
    requires numbered { are_numbered [] (changes_of (entries store.now)) ≡ true }
    requires rooms { AreRooms zones.now (again_at (changes_of (entries store.now)) 0) rooms.rooms }
    requires calendars { AreSound zones.now (changes_of (entries store.now)) calendar_kind }
    ensures rooms { IfOk result (λ r. AreRooms zones.now (changes_of (entries store.now)) r.rooms) }
    ensures kept { IfOk result (λ r. r.kept ≡ r.rooms) }
    ensures sound { OnOk result (AreSound zones.now (changes_of (entries store.now)) event_kind) }
    ensures named { IfErr result (NamesUnsound zones.now (changes_of (entries store.now))) }
{
    let mut again = Again::new(store, zones, rooms);
    let ids = store.live_ids(alloc, Kind::Event)?;
    for id in &ids {
        let Some(event) = store.object(Kind::Event, *id) else {
            unreachable!()
        };
        let Some(more) = again.with_event(alloc, *id, event)? else {
            return Err(OpeningError::BadObject {
                kind: Kind::Event,
                id: *id,
            });
        };
        again = more;
    }
    Ok(again.into_rooms())
}
