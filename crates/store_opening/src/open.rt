//! How a store is opened.
ghost use Rattle.std.specs.Prelude.{◌≡◌, ◌⊎◌, ◌<◌, ◌≤◌, ◌+◌, ◌++◌, ◌∷◌, ◌^◌, [], IfErr, IfNone, IfOk, IfSome, OnOk, false, length, true};
ghost use Rattle.account_store.specs.Opening.{opening_entries, opening_floor, opening_puts};
ghost use Rattle.account_store.specs.Store.{entries, event_puts};
ghost use Rattle.event_store.specs.ReadSeries.{AreRead};
ghost use Rattle.spec_bookings.specs.SeriesPut.{series_put};
ghost use Rattle.spec_history.specs.History.{changes_of};
ghost use Rattle.spec_history.specs.declared.entry.Kind.{Kind as AnyKind};
ghost use Rattle.spec_history.specs.declared.entry.Kind.TheVariants.{Calendar, Event};
ghost use Rattle.spec_sizes.specs.Sizes.{is_answered_from, size_of_object};
ghost use Rattle.spec_snapshots.specs.Kept.{IsFloor, IsKeptFrom};
ghost use Rattle.spec_snapshots.specs.Numbered.{are_numbered, is_numbered};
ghost use Rattle.store_opening.specs.declared.open.StoreError.TheVariants.{NoMemory as no_memory};

use crate::logs::{calendar_log, event_log};
use account_store::{OpeningStore, Store};
use event_series::read::read_series;
use ghost_list::GhostList;
use journal_keeper::loaded::Loaded;
use json_edge::length::text_length;
use spec_history::entry::{Change, Entry, Kind};
use spec_json::tree::Tree;
use spec_series::series::Series;
use spec_snapshots::kept::{KeptHistory, KindFloor};
use std::alloc::{AllocError, Global};
use zone_table::Zones;

/// The most entries that an account ever has.
const MOST_ENTRIES: u64 = 1 << 40;

/// More bytes than the text of an object has that memory holds.
const MOST_BYTES: u64 = 1 << 40;

/// Why a store isn't opened.
#[derive(Debug, Drop)]
pub enum StoreError {
    /// A change may not stand where it does: it neither creates the next object of its kind nor is of one that is there, or there are more than an account ever makes.
    BadChange {
        /// The kind of the object that it names.
        kind: Kind,
        /// The number of that, or 0 where there are too many.
        id: u64,
    },
    /// Memory was wanted.
    NoMemory,
}

impl From<AllocError> for StoreError {
    ghost from_gives = { λ _ error. error ≡ no_memory };

    fn from(_: AllocError) -> StoreError {
        StoreError::NoMemory
    }
}

/// The store of an account, which goes on from what is kept of its history. Takes memory for what is live, and for what lies behind the floors.
pub fn open_store(alloc: Global, zones: &Zones, loaded: Loaded) -> Result<Store, StoreError>
    requires { IsKeptFrom loaded.told.items loaded.kept }
    ensures entries { IfOk result (λ s. entries s ≡ loaded.told.items) }
    ensures read { IfOk result (λ s. AreRead zones.now (event_puts s)) }
    ensures numbered { OnOk result (are_numbered [] (changes_of loaded.told.items) ≡ true) }
    ensures few { OnOk result (length loaded.told.items ≤ 2 ^ 40) }
    ensures refused { IfErr result (λ e. (kind : _) (id : _) → e ≡ StoreError.BadChange kind id → are_numbered [] (changes_of loaded.told.items) ≡ true → length loaded.told.items ≤ 2 ^ 40 → ⊥) }
{
    let Some(count) = count_in_front(&loaded.kept) else {
        return Err(StoreError::BadChange {
            kind: Kind::Event,
            id: 0,
        });
    };
    let past = GhostList::of(&loaded);
    let Loaded { kept, .. } = loaded;
    let KeptHistory {
        calendars,
        events,
        behind,
    } = kept;
    let opening = at_floors(alloc, zones, past, count, calendars, events)?;
    push_all(alloc, zones, opening, behind)
}

// How many entries lie in front of those that are kept, where there are no more of both than an account ever has.
fn count_in_front(kept: &KeptHistory) -> Option<u64>
    ensures some { IfSome result (λ n. (n ≡ kept.now.calendars.state + kept.now.events.state) × (n + length kept.now.behind.items ≤ 2 ^ 40)) }
    ensures none { IfNone result (2 ^ 40 < kept.now.calendars.state + kept.now.events.state + length kept.now.behind.items) }
{
    let front = kept.calendars.state.checked_add(kept.events.state)?;
    let all = front.checked_add(kept.behind.len() as u64)?;
    if all <= MOST_ENTRIES {
        Some(front)
    } else {
        None
    }
}

// A store of the entries that left these floors.
fn at_floors(
    alloc: Global,
    zones: &Zones,
    past: GhostList<Entry>,
    count: u64,
    calendars: KindFloor,
    events: KindFloor,
) -> Result<OpeningStore, AllocError>
    requires count { count ≡ length past.items }
    requires few { count ≤ 2 ^ 40 }
    requires calendars { IsFloor (changes_of past.items) Calendar calendars }
    requires events { IsFloor (changes_of past.items) Event events }
    ensures entries { IfOk result (λ s. opening_entries s ≡ past.items) }
    ensures read { IfOk result (λ s. AreRead zones.now (opening_puts s)) }
    ensures calendars_from { IfOk result (λ s. opening_floor s Calendar ≡ calendars.state) }
    ensures events_from { IfOk result (λ s. opening_floor s Event ≡ events.state) }
{
    let calendars = calendar_log(alloc, &past, calendars)?;
    let events = event_log(alloc, zones, &past, events)?;
    Ok(OpeningStore::new(past, count, calendars, events))
}

// The store, once the entries behind the floors have come to it.
fn push_all(
    alloc: Global,
    zones: &Zones,
    opening: OpeningStore,
    behind: Vec<Entry>,
) -> Result<Store, StoreError>
    requires few { length (opening_entries opening) + length behind.items ≤ 2 ^ 40 }
    requires read { AreRead zones.now (opening_puts opening) }
    requires numbered { are_numbered [] (changes_of (opening_entries opening)) ≡ true }
    requires forgotten { (kind : AnyKind) → (opening_floor opening kind ≡ 0) ⊎ (is_answered_from kind (changes_of (opening_entries opening ++ behind.items)) (opening_floor opening kind) ≡ false) }
    ensures entries { IfOk result (λ s. entries s ≡ opening_entries opening ++ behind.items) }
    ensures read { IfOk result (λ s. AreRead zones.now (event_puts s)) }
    ensures numbered { OnOk result (are_numbered [] (changes_of (opening_entries opening ++ behind.items)) ≡ true) }
    ensures refused { IfErr result (λ e. (kind : _) (id : _) → e ≡ StoreError.BadChange kind id → are_numbered [] (changes_of (opening_entries opening ++ behind.items)) ≡ false) }
{
    let mut opening = opening;
    for entry in behind {
        push(alloc, zones, &mut opening, entry)?;
    }
    Ok(opening.into_store())
}

// One entry more, where it may come next.
fn push(
    alloc: Global,
    zones: &Zones,
    opening: &mut OpeningStore,
    entry: Entry,
) -> Result<(), StoreError>
    requires few { length (opening_entries opening.old) < 2 ^ 40 }
    ensures entries { OnOk result (opening_entries opening.new ≡ opening_entries opening.old ++ entry ∷ []) }
    ensures read { OnOk result (AreRead zones.now (opening_puts opening.old) → AreRead zones.now (opening_puts opening.new)) }
    ensures floors { OnOk result ((kind : AnyKind) → opening_floor opening.new kind ≡ opening_floor opening.old kind) }
    ensures numbered { OnOk result (is_numbered (changes_of (opening_entries opening.old)) entry.change ≡ true) }
    ensures refused { IfErr result (λ e. (kind : _) (id : _) → e ≡ StoreError.BadChange kind id → is_numbered (changes_of (opening_entries opening.old)) entry.change ≡ false) }
{
    if !opening.may_follow(&entry.change) {
        return Err(StoreError::BadChange {
            kind: entry.change.kind,
            id: entry.change.id,
        });
    }
    let Some(size) = size_of(&entry.change.object) else {
        return Err(StoreError::NoMemory);
    };
    let series = series_put(alloc, zones, &entry.change)?;
    opening.reserve(1)?;
    opening.push_reserved(entry, series, size);
    Ok(())
}

// The series of the event that a change puts.
fn series_put(alloc: Global, zones: &Zones, change: &Change) -> Result<Option<Series>, AllocError>
    ensures { IfOk result (λ s. s ≡ series_put zones.now change.now) }
{
    match (change.kind, &change.object) {
        (Kind::Event, Some(event)) => read_series(alloc, event, zones),
        _ => Ok(None),
    }
}

// The bytes of an object's compact text; a removal has none. No memory holds an object of which that isn't told.
fn size_of(object: &Option<Tree>) -> Option<u64>
    ensures exact { IfSome result (λ n. n ≡ size_of_object object.now) }
    ensures most { IfSome result (λ n. n ≤ 2 ^ 40) }
{
    let size = match object {
        Some(tree) => text_length(tree),
        None => 0,
    };
    if size <= MOST_BYTES { Some(size) } else { None }
}
