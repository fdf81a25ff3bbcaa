//! The history of an account with the changes that a call is about to make.
ghost use Rattle.std.specs.Coded.{codes};
ghost use Rattle.std.specs.Prelude.{◌≡◌, ◌<◌, ◌≤◌, ◌+◌, ◌^◌, ◌++◌, ◌∷◌, [], List, None, IfNone, IfSome, OnErr, OnOk, false, if◌then◌else◌, is_some, length, map, option_map, Some, true, vec_capacity, vec_len, ℕ};
ghost use Rattle.std.specs.Arc.{arc_value};
ghost use Rattle.std.specs.BTreeSet.{BTreeSet as NumberSet};
ghost use Rattle.account_core.specs.Tally.{Tallies};
ghost use Rattle.account_core.specs.Uses.{AreInUse};
ghost use Rattle.account_rooms.specs.RoomChanges.{MayChange, rooms_after};
ghost use Rattle.account_rooms.specs.Covered.{AreCoveredOnce};
ghost use Rattle.account_rooms.specs.Rooms.{AreFree, AreRooms};
ghost use Rattle.account_store.specs.Store.{entries, event_puts, spare};
ghost use Rattle.cal_model.specs.Answer.{entries_from};
ghost use Rattle.cal_model.specs.Quota.{size_of_object};
ghost use Rattle.account_core.specs.Staged.{MayBeKept};
ghost use Rattle.account_opening.specs.Opening.{IsOpenedFrom};
ghost use Rattle.cal_model.specs.GoesOn.{GoesOn};
ghost use Rattle.cal_model.specs.Sound.{first_unsound};
ghost use Rattle.event_store.specs.EventsBase.{base_of};
ghost use Rattle.event_store.specs.ReadSeries.{AreRead};
ghost use Rattle.spec_bookings.specs.SeriesPut.{series_put};
ghost use Rattle.spec_history.specs.History.{changes_of, count_of_kind, live_object};
ghost use Rattle.spec_bookings.specs.BookedResources.{bookings_of, other_bookings};
ghost use Rattle.spec_bookings.specs.Resources.{is_resource};
ghost use Rattle.spec_bookings.specs.Clashes.{IsClash, IsClear, first_clash, second_of};
ghost use Rattle.spec_series.specs.Lengths.{IsWeekLong};
ghost use Rattle.rule_expand.specs.Least.{IsLeastOf};

use crate::pushing::push_all;
use crate::reading::Reading;
use crate::tally::{Load, Tally};
use crate::uses::{calendars_in_use, has_event, still_in_use};
use account_opening::Opened;
use account_rooms::Rooms;
use account_store::Store;
use cal_model::limits::MAX_CHANGES;
use cal_model::view::{AccountView, CalendarsView};
use event_store::StoredEvents;
use json_edge::length::text_length;
use resource_book::Room;
use spec_bookings::clash::Clash;
use spec_history::entry::{Change, Kind};
use spec_history::stamp::Stamp;
use spec_history::state::State;
use spec_json::text::Text;
use spec_json::tree::Tree;
use spec_series::series::Series;
use std::alloc::{AllocError, Global};
use std::collections::BTreeSet;
use std::mem;
use std::sync::Arc;
use zone_table::Zones;

/// The history of an account, and the changes that a call makes before they become entries.
///
/// Contracts see the account's base, its entries, the staged changes, and how many of these can become entries without memory. What was read of
/// a change when it was staged stands beside it from then on. Each change is sound behind those before it.
#[derive(Drop)]
pub struct Ledger {
    pub alloc: Global,
    pub id: Text,
    pub zones: Arc<Zones>,
    /// Which copy of the data the account goes on from.
    pub generation: u64,
    pub store: Store,
    /// What the history holds.
    kept: Tally,
    pub(crate) staged: Vec<Change>,
    /// What was read of the staged changes, one for each.
    readings: Vec<Reading>,
    /// What the history and the staged changes hold.
    pub(crate) tally: Tally,
    /// The live resource calendars with their bookings, at the history and the staged changes; it goes back to those at the history.
    pub(crate) rooms: Rooms,
    /// The calendars that events of the history are in, where they were looked up since an event was changed.
    pub(crate) in_use: Option<BTreeSet<u64>>,
    ghost kept_told: { Tallies kept (changes_of (entries store)) },
    ghost told: { Tallies tally (changes_of (entries store) ++ staged.items) },
    ghost events_read: { AreRead (arc_value zones) (event_puts store) } by { Prim.hlevel codes },
    ghost series_read: { map (λ r. r.series) readings.items ≡ map (series_put (arc_value zones)) staged.items } by { Prim.hlevel codes },
    ghost sizes_read: { map (λ r. r.size) readings.items ≡ map (λ c. size_of_object c.object) staged.items },
    ghost kept_rooms: { AreRooms (arc_value zones) (changes_of (entries store)) rooms.kept },
    ghost rooms_now: { AreRooms (arc_value zones) (changes_of (entries store) ++ staged.items) rooms.rooms },
    ghost used: { (numbers : NumberSet ℕ) → in_use ≡ Some numbers → AreInUse (changes_of (entries store)) numbers },
    ghost kept_goes_on: { GoesOn (arc_value zones) (changes_of (entries store)) },
    ghost goes_on: { GoesOn (arc_value zones) (changes_of (entries store) ++ staged.items) },
    ghost sound: { first_unsound (arc_value zones) (changes_of (entries store)) staged.items ≡ None },
}

impl Ledger {
    ghost use Rattle.account_core.specs.Ledger.{base, changes, history, ledger_entries, staged};

    /// A ledger of an account of this id, with these zones and no entries, in this generation of the data. Takes no memory.
    pub fn new(alloc: Global, id: Text, zones: Arc<Zones>, generation: u64) -> Ledger
        ensures base { base result ≡ record { account_id = id; zones = arc_value zones; generation = generation } }
        ensures entries { ledger_entries result ≡ [] }
        ensures staged { staged result ≡ [] }
    {
        Ledger {
            alloc,
            id,
            zones,
            generation,
            store: Store::new(alloc),
            kept: Tally::new(),
            staged: Vec::new(alloc),
            readings: Vec::new(alloc),
            tally: Tally::new(),
            rooms: Rooms::new(alloc),
            in_use: None,
        }
    }

    /// A ledger of an account of this id, with these zones, in this generation of the data, that has what was opened. Takes no memory.
    pub(crate) fn at(
        alloc: Global,
        id: Text,
        zones: Arc<Zones>,
        generation: u64,
        opened: Opened,
    ) -> Ledger
        requires { IsOpenedFrom (arc_value zones) (entries opened.store) opened }
        ensures base { base result ≡ record { account_id = id; zones = arc_value zones; generation = generation } }
        ensures entries { ledger_entries result ≡ entries opened.store }
        ensures staged { staged result ≡ [] }
    {
        let kept = Tally::at(&opened);
        Ledger {
            alloc,
            id,
            zones,
            generation,
            store: opened.store,
            kept,
            staged: Vec::new(alloc),
            readings: Vec::new(alloc),
            tally: kept,
            rooms: opened.rooms,
            in_use: None,
        }
    }

    /// The events of the account, each with its series. Takes no memory.
    pub fn events(&self) -> StoredEvents<'_>
        ensures store { result.store.now ≡ self.now.store }
        ensures base { base_of result ≡ base self.now }
    {
        StoredEvents::new(&self.store, &self.id, &self.zones, self.generation)
    }

    /// Looks up which calendars events are in, unless that is known since an event was changed, so that `has_event` then tells it without
    /// going over them. Takes memory for the numbers of these calendars.
    pub(crate) fn look_up_calendars(&mut self) -> Result<(), AllocError>
        ensures entries { ledger_entries self.new ≡ ledger_entries self.old }
        ensures staged { staged self.new ≡ staged self.old }
        ensures base { base self.new ≡ base self.old }
    {
        if self.in_use.is_none() {
            self.in_use = Some(calendars_in_use(self.alloc, &self.store)?);
        }
        Ok(())
    }

    /// Takes memory for the entries that the staged changes become. After running out of memory nothing is staged.
    pub fn reserve(&mut self) -> Result<(), AllocError>
        ensures spare { OnOk result (length (staged self.new) ≤ spare self.new.store) }
        ensures ok { OnOk result (staged self.new ≡ staged self.old) }
        ensures err { OnErr result (staged self.new ≡ []) }
        ensures entries { ledger_entries self.new ≡ ledger_entries self.old }
        ensures base { base self.new ≡ base self.old }
    {
        match self.store.reserve(self.staged.len() as u64) {
            Ok(()) => Ok(()),
            Err(error) => {
                self.forget();
                Err(error)
            }
        }
    }

    /// Makes the staged changes entries of a call, with parts from `first` on. Takes no memory, since it was reserved.
    pub fn commit(&mut self, stamp: &Stamp, first: u32)
        requires spare { length (staged self.old) ≤ spare self.old.store }
        requires parts { first + length (staged self.old) ≤ 2 ^ 32 }
        ensures entries { ledger_entries self.new ≡ ledger_entries self.old ++ entries_from stamp.now first (staged self.old) }
        ensures staged { staged self.new ≡ [] }
        ensures base { base self.new ≡ base self.old }
    {
        let staged = mem::replace(&mut self.staged, Vec::new(self.alloc));
        let mut readings = mem::replace(&mut self.readings, Vec::new(self.alloc));
        let known = mem::replace(&mut self.in_use, None);
        self.in_use = still_in_use(known, &staged);
        push_all(&mut self.store, stamp, first, staged, &mut readings);
        self.store.compact();
        self.kept = self.tally;
        self.rooms.keep();
    }

    /// No second of a live resource calendar is covered by two different occurrences of its bookings. This call does nothing.
    pub fn is_never_booked_twice(&self)
        ensures free { AreFree (base self.now).zones (history self.now) }
        ensures occurrences { AreCoveredOnce (base self.now).zones (history self.now) }
    {}

    /// An account goes on from the history, and from what is staged behind it, each change of which is sound behind those before it. This call does nothing.
    pub fn goes_on(&self)
        ensures history { GoesOn (base self.now).zones (history self.now) }
        ensures staged { MayBeKept (base self.now).zones (ledger_entries self.now) (staged self.now) }
    {}

    /// The first clash of a series with itself or with the bookings of others in a live resource calendar. Takes no memory.
    pub fn first_clash(&self, calendar: u64, event: u64, series: &Series) -> Option<Clash>
        requires resource { is_resource (changes self.now) calendar ≡ true }
        requires week { IsWeekLong series.now }
        ensures exact { result ≡ first_clash (other_bookings (base self.now).zones (changes self.now) event calendar) series.now }
        ensures clear { IfNone result (IsClear (other_bookings (base self.now).zones (changes self.now) event calendar) series.now) }
        ensures least { IsLeastOf (IsClash (other_bookings (base self.now).zones (changes self.now) event calendar) series.now) (option_map second_of result) }
    {
        self.rooms.clash(calendar, event, series)
    }

    /// The room of a live resource calendar, or `None` where the number is of none. Takes no memory.
    pub fn room_of(&self, calendar: u64) -> Option<&Room>
        ensures none { IfNone result (is_resource (changes self.now) calendar ≡ false) }
        ensures some { IfSome result (λ room. (is_resource (changes self.now) calendar ≡ true) × (room.now.bookings ≡ bookings_of (base self.now).zones (changes self.now) calendar)) }
    {
        self.rooms.room_of(calendar)
    }

    // What the object of a kind and number takes, nothing where it isn't live.
    fn load_of(&self, kind: Kind, id: u64) -> Load
        ensures objects { result.objects ≡ (if is_some (live_object (changes self.now) kind id) then 1 else 0) }
        ensures bytes { result.bytes ≡ size_of_object (live_object (changes self.now) kind id) }
    {
        match self.live(kind, id) {
            Some(object) => Load {
                objects: 1,
                bytes: text_length(object) as usize,
            },
            None => Load {
                objects: 0,
                bytes: 0,
            },
        }
    }

    // How many changes are of a kind, in the history and staged.
    #[tactic(auto, using(crate::proofs::Committing::count_of_kind_append))]
    fn count_of_kind(&self, kind: Kind) -> u64
        ensures { result ≡ count_of_kind (changes self.now) kind }
    {
        let mut count = self.store.count(kind);
        for change in &self.staged {
            if kind.is(change.kind) {
                count += 1;
            }
        }
        count
    }
}

// Takes memory for one staged change more with what was read of it, which the rooms follow.
fn follow(
    staged: &mut Vec<Change>,
    readings: &mut Vec<Reading>,
    rooms: &mut Rooms,
    change: &Change,
    series: &Option<Series>,
) -> Result<(), AllocError>
    requires { MayChange rooms.old.rooms change.now.kind change.now.object series.now }
    ensures staged { staged.new.items ≡ staged.old.items }
    ensures len { vec_len staged.new ≡ vec_len staged.old }
    ensures place { OnOk result (vec_len staged.new < vec_capacity staged.new) }
    ensures readings { readings.new.items ≡ readings.old.items }
    ensures read_len { vec_len readings.new ≡ vec_len readings.old }
    ensures read_place { OnOk result (vec_len readings.new < vec_capacity readings.new) }
    ensures rooms { OnOk result (rooms.new.rooms ≡ rooms_after change.now series.now rooms.old.rooms) }
    ensures kept { rooms.new.kept ≡ rooms.old.kept }
{
    staged.reserve(1)?;
    readings.reserve(1)?;
    rooms.follow(change, series.as_ref())
}

// What a change puts, where its object has a text of so many bytes.
fn load_put(change: &Change, size: usize) -> Load
    ensures objects { result.objects ≡ (if is_some change.now.object then 1 else 0) }
    ensures bytes { result.bytes ≡ size }
{
    match &change.object {
        Some(_) => Load {
            objects: 1,
            bytes: size,
        },
        None => Load {
            objects: 0,
            bytes: size,
        },
    }
}

impl CalendarsView for Ledger {
    ghost use Rattle.account_core.specs.Ledger.{base, changes};

    ghost base = { base };

    ghost changes = { changes };

    fn calendar(&self, id: u64) -> Option<&Tree> {
        self.live(Kind::Calendar, id)
    }

    fn resources(&self, alloc: Global) -> Result<Vec<u64>, AllocError> {
        self.rooms.calendars(alloc)
    }

    fn bookings(&self, calendar: u64, event: u64) -> usize {
        self.rooms.bookings(calendar, event)
    }

    fn clash(&self, calendar: u64, event: u64, series: &Series) -> Option<Clash> {
        self.first_clash(calendar, event, series)
    }
}

impl AccountView for Ledger {
    ghost use Rattle.account_core.specs.Ledger.{ledger_entries};

    ghost entries = { ledger_entries };

    #[tactic(auto, using(crate::proofs::Committing::object_from_append))]
    fn live(&self, kind: Kind, id: u64) -> Option<&Tree> {
        let mut found = self.store.object(kind, id);
        for change in &self.staged {
            if kind.is(change.kind) && id == change.id {
                found = change.object.as_ref();
            }
        }
        found
    }

    fn has_event(&self, calendar: u64) -> bool {
        has_event(self, calendar)
    }

    fn has_sound_objects(&self) {}

    fn created_so_far(&self, kind: Kind) -> u64 {
        self.tally.created(kind)
    }

    fn generation(&self) -> u64 {
        self.generation
    }

    fn state(&self, kind: Kind) -> State {
        State {
            generation: self.generation,
            number: self.count_of_kind(kind),
        }
    }

    fn has_room(&self, change: &Change, size: usize) -> bool {
        match &change.object {
            Some(_) => {
                let gone = self.load_of(change.kind, change.id);
                let put = Load {
                    objects: 1,
                    bytes: size,
                };
                self.tally.has_room(gone, put)
            }
            None => self.tally.entries < MAX_CHANGES,
        }
    }

    fn stage(
        &mut self,
        change: Change,
        size: usize,
        series: Option<Series>,
    ) -> Result<(), AllocError> {
        let gone = self.load_of(change.kind, change.id);
        match follow(
            &mut self.staged,
            &mut self.readings,
            &mut self.rooms,
            &change,
            &series,
        ) {
            Ok(()) => {
                let put = load_put(&change, size);
                self.tally.count(change.kind, change.id, gone, put);
                let reading = Reading {
                    size: size as u64,
                    series,
                };
                self.readings.push_reserved(reading);
                self.staged.push_reserved(change);
                Ok(())
            }
            Err(error) => {
                self.staged.clear();
                self.readings.clear();
                self.tally = self.kept;
                self.rooms.undo();
                Err(error)
            }
        }
    }

    fn forget(&mut self) {
        self.staged.clear();
        self.readings.clear();
        self.tally = self.kept;
        self.rooms.undo();
    }
}
