//! How what an account keeps beside its entries is opened.
ghost use Rattle.std.specs.Prelude.{◌≡◌, ◌≤◌, ◌^◌, [], IfErr, IfOk, OnOk, length, true};
ghost use Rattle.account_opening.specs.Opening.{IsOpenedFrom, IsRefusal, NamesUnsound};
ghost use Rattle.account_opening.specs.declared.open.OpeningError.TheVariants.{NoMemory as no_memory};
ghost use Rattle.account_store.specs.Store.{entries, event_puts};
ghost use Rattle.event_store.specs.ReadSeries.{AreRead};
ghost use Rattle.spec_history.specs.History.{changes_of};
ghost use Rattle.spec_snapshots.specs.Kept.{IsKeptFrom};
ghost use Rattle.spec_snapshots.specs.Numbered.{are_numbered};

use crate::judge::{judge_calendars, judge_events};
use crate::weigh::weigh;
use account_rooms::Rooms;
use account_store::Store;
use journal_keeper::loaded::Loaded;
use spec_history::entry::Kind;
use std::alloc::{AllocError, Global};
use store_opening::{StoreError, open_store};
use zone_table::Zones;

/// What an account keeps beside its entries.
#[derive(Drop)]
pub struct Opened {
    /// The store.
    pub store: Store,
    /// How many objects are live, of both kinds.
    pub objects: usize,
    /// The bytes of their compact texts.
    pub size: usize,
    /// The live resource calendars with their bookings.
    pub rooms: Rooms,
}

/// Why an account doesn't go on from what is kept of its history.
#[derive(Debug, Drop)]
pub enum OpeningError {
    /// An object isn't as an account has it: it isn't sound, it is one more than an account may have, it clashes with another, or a change names it out of turn.
    BadObject {
        /// Its kind.
        kind: Kind,
        /// Its number.
        id: u64,
    },
    /// Memory was wanted.
    NoMemory,
}

impl From<AllocError> for OpeningError {
    ghost from_gives = { λ _ error. error ≡ no_memory };

    fn from(_: AllocError) -> OpeningError {
        OpeningError::NoMemory
    }
}

/// What an account keeps beside these entries, where it goes on from them. Each live object is judged as if it were stored anew, calendars before events, in order
/// of creation. Takes memory for what is live, and for what lies behind the floors.
pub fn open_parts(alloc: Global, zones: &Zones, loaded: Loaded) -> Result<Opened, OpeningError>
    requires { IsKeptFrom loaded.told.items loaded.kept }
    ensures opened { IfOk result (IsOpenedFrom zones.now loaded.told.items) }
    ensures refused { IfErr result (IsRefusal zones.now (changes_of loaded.told.items)) }
    ensures named { IfErr result (NamesUnsound zones.now (changes_of loaded.told.items)) }
{
    parts_of(alloc, zones, loaded)
}

// The same, but that it says no more of an error than that it names the first object that isn't sound.
fn parts_of(alloc: Global, zones: &Zones, loaded: Loaded) -> Result<Opened, OpeningError>
    requires { IsKeptFrom loaded.told.items loaded.kept }
    ensures opened { IfOk result (IsOpenedFrom zones.now loaded.told.items) }
    ensures named { IfErr result (NamesUnsound zones.now (changes_of loaded.told.items)) }
{
    let store = store_of(alloc, zones, loaded)?;
    let load = weigh(alloc, &store)?;
    let calendars = judge_calendars(alloc, zones, &store)?;
    let rooms = judge_events(alloc, zones, &store, calendars)?;
    Ok(Opened {
        store,
        objects: load.objects,
        size: load.bytes,
        rooms,
    })
}

// The store, where the changes gave the numbers of objects in order.
fn store_of(alloc: Global, zones: &Zones, loaded: Loaded) -> Result<Store, OpeningError>
    requires { IsKeptFrom loaded.told.items loaded.kept }
    ensures entries { IfOk result (λ s. entries s ≡ loaded.told.items) }
    ensures read { IfOk result (λ s. AreRead zones.now (event_puts s)) }
    ensures numbered { OnOk result (are_numbered [] (changes_of loaded.told.items) ≡ true) }
    ensures few { OnOk result (length loaded.told.items ≤ 2 ^ 40) }
    ensures named { IfErr result (NamesUnsound zones.now (changes_of loaded.told.items)) }
{
    match open_store(alloc, zones, loaded) {
        Ok(store) => Ok(store),
        Err(StoreError::BadChange { kind, id }) => Err(OpeningError::BadObject { kind, id }),
        Err(StoreError::NoMemory) => Err(OpeningError::NoMemory),
    }
}
