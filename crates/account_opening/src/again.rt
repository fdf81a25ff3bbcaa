//! The live objects of a store, put again one after the other.
ghost use Rattle.std.specs.Prelude.{◌≡◌, ◌+◌, ◌<◌, ◌^◌, [], IfNone, IfOk, IfSome, Some, false, slice_get, true};
ghost use Rattle.account_opening.specs.Again.{NothingStandsAgainst, again_at};
ghost use Rattle.account_opening.specs.Opening.{FitsButForObjects};
ghost use Rattle.account_rooms.specs.Rooms.{AreRooms};
ghost use Rattle.account_store.specs.Earlier.{live_ids};
ghost use Rattle.account_store.specs.Store.{entries};
ghost use Rattle.cal_model.specs.Fits.{IsEventFit};
ghost use Rattle.cal_model.specs.SoundObjects.{is_sound_object};
ghost use Rattle.spec_history.specs.Base.{Base};
ghost use Rattle.spec_history.specs.History.{changes_of, live_object};
ghost use Rattle.spec_history.specs.declared.entry.Kind.TheVariants.{Event as event_kind};
ghost use Rattle.spec_json.specs.TreeData.{data_of};
ghost use Rattle.spec_recurrence.specs.SeriesOf.{series_in};
ghost use Rattle.spec_snapshots.specs.Numbered.{are_numbered};

use account_rooms::Rooms;
use account_store::Store;
use cal_model::view::CalendarsView;
use object_outcomes::against::stands_against;
use object_outcomes::resources::resources_of;
use object_outcomes::sound::sound_event;
use spec_bookings::clash::Clash;
use spec_history::entry::Kind;
use spec_json::tree::Tree;
use spec_series::series::Series;
use std::alloc::{AllocError, Global};
use zone_table::Zones;

/// All live calendars of a store, and the first of its live events in order of creation, with the rooms of these.
///
/// Contracts see the changes that put them, in the place of the store's history: once all are there, both have the same rooms.
#[derive(Drop)]
pub(crate) struct Again<'a> {
    pub store: &'a Store,
    pub zones: &'a Zones,
    pub rooms: Rooms,
    /// How many events there are.
    pub events: usize,
    ghost booked: { AreRooms zones.now (again_at (changes_of (entries store.now)) events) rooms.rooms },
}

impl<'a> Again<'a> {
    /// The live calendars of a store, which have these rooms, and no event. Takes no memory.
    pub(crate) fn new(store: &'a Store, zones: &'a Zones, rooms: Rooms) -> Again<'a>
        requires { AreRooms zones.now (again_at (changes_of (entries store.now)) 0) rooms.rooms }
        ensures store { result.store.now ≡ store.now }
        ensures zones { result.zones.now ≡ zones.now }
        ensures events { result.events ≡ 0 }
    {
        Again {
            store,
            zones,
            rooms,
            events: 0,
        }
    }

    /// One event more, the next of the store's live ones, where it is sound, and nothing stands against its bookings.
    pub(crate) fn with_event(
        self,
        alloc: Global,
        id: u64,
        event: &Tree,
    ) -> Result<Option<Again<'a>>, AllocError>
        requires numbered { are_numbered [] (changes_of (entries self.store.now)) ≡ true }
        requires next { slice_get (live_ids (changes_of (entries self.store.now)) event_kind) self.events ≡ Some id }
        requires live { live_object (changes_of (entries self.store.now)) event_kind id ≡ Some event.now }
        requires few { self.events < 2 ^ 63 }
        ensures of { IfOk result (λ o. IfSome o (λ a. (a.store ≡ self.entry.store) × (a.zones ≡ self.entry.zones))) }
        ensures events { IfOk result (λ o. IfSome o (λ a. a.events ≡ self.entry.events + 1)) }
        ensures sound { IfOk result (λ o. IfSome o (λ _. is_sound_object self.entry.zones.now (changes_of (entries self.entry.store.now)) event_kind id (data_of event.now) ≡ true)) }
        ensures none { IfOk result (λ o. IfNone o (FitsButForObjects self.entry.zones.now (changes_of (entries self.entry.store.now))
            → is_sound_object self.entry.zones.now (changes_of (entries self.entry.store.now)) event_kind id (data_of event.now) ≡ false)) }
    {
        let Some(series) = self.series_fit(alloc, id, event)? else {
            return Ok(None);
        };
        let Again {
            store,
            zones,
            mut rooms,
            events,
        } = self;
        rooms.put_event(id, event, Some(&series))?;
        Ok(Some(Again {
            store,
            zones,
            rooms,
            events: events + 1,
        }))
    }

    /// The rooms of these objects, which can be gone back to. Takes no memory.
    pub(crate) fn into_rooms(self) -> Rooms
        ensures rooms { result.rooms ≡ self.entry.rooms.rooms }
        ensures kept { result.kept ≡ result.rooms }
    {
        let mut rooms = self.rooms;
        rooms.keep();
        rooms
    }

    // The series of an event, where it is sound, and nothing stands against its bookings.
    fn series_fit(&self, alloc: Global, id: u64, event: &Tree) -> Result<Option<Series>, AllocError>
        ensures series { IfOk result (λ s. IfSome s (λ series. series_in self.now.zones.now (data_of event.now) ≡ Some series)) }
        ensures sound { IfOk result (λ s. IfSome s (λ _. is_sound_object self.now.zones.now (again_at (changes_of (entries self.now.store.now)) self.now.events) event_kind id (data_of event.now) ≡ true)) }
        ensures fit { IfOk result (λ s. IfSome s (λ _. IsEventFit self.now.zones.now (again_at (changes_of (entries self.now.store.now)) self.now.events) id (data_of event.now))) }
        ensures none { IfOk result (λ s. IfNone s (is_sound_object self.now.zones.now (again_at (changes_of (entries self.now.store.now)) self.now.events) event_kind id (data_of event.now) ≡ true
            → NothingStandsAgainst self.now.zones.now (again_at (changes_of (entries self.now.store.now)) self.now.events) id (data_of event.now) → ⊥)) }
    {
        let resources = resources_of(alloc, self, event)?;
        let Some(series) = sound_event(alloc, self, self.zones, id, event, &resources)? else {
            return Ok(None);
        };
        let against = stands_against(self, id, event, &resources, &series);
        if against.is_full {
            return Ok(None);
        }
        match against.clash {
            Some(_) => Ok(None),
            None => Ok(Some(series)),
        }
    }
}

impl CalendarsView for Again<'_> {
    ghost base = { λ a. record { account_id = []; zones = a.zones.now; generation = 0 } };

    ghost changes = { λ a. again_at (changes_of (entries a.store.now)) a.events };

    fn calendar(&self, id: u64) -> Option<&Tree> {
        self.store.object(Kind::Calendar, id)
    }

    fn resources(&self, alloc: Global) -> Result<Vec<u64>, AllocError> {
        self.rooms.calendars(alloc)
    }

    fn bookings(&self, calendar: u64, event: u64) -> usize {
        self.rooms.bookings(calendar, event)
    }

    fn clash(&self, calendar: u64, event: u64, series: &Series) -> Option<Clash> {
        self.rooms.clash(calendar, event, series)
    }
}
