//! The events of an account's store.
ghost use Rattle.std.specs.Coded.{codes};
ghost use Rattle.std.specs.Prelude.{◌≡◌, ◌++◌, All, IfOk, IfSome, List, OnOk, map, option_copied, option_map, true};
ghost use Rattle.account_store.specs.Earlier.{changes_up_to};
ghost use Rattle.account_store.specs.Store.{entries, event_puts};
ghost use Rattle.event_store.specs.ReadSeries.{AreRead, series_beside, series_read};
ghost use Rattle.event_store.specs.StoredEvents.{HasItsSeries};
ghost use Rattle.spec_history.specs.History.{changes_of, live_at, live_object};
ghost use Rattle.spec_history.specs.declared.entry.Kind.TheVariants.{Event};
ghost use Rattle.spec_json.specs.Parts.{some_of};
ghost use Rattle.spec_site.specs.TimeZones.{ZoneText};
ghost use Rattle.spec_sizes.specs.Sizes.{is_answered_from};

use account_store::{KeptEvent, Store};
use spec_history::entry::Kind;
use spec_json::text::Text;
use spec_json::tree::Tree;
use spec_series::series::Series;
use std::alloc::{AllocError, Global};
use zone_table::Zones;

/// An event as it stands in an account.
#[derive(Clone, Copy)]
pub struct StoredEvent<'a> {
    /// The event.
    pub object: &'a Tree,
    /// Its series, or `None` where a property of it is bad.
    pub series: Option<&'a Series>,
}

/// The events of an account's store, each with its series as the account's zones have it, beside what the account was opened with.
#[derive(Clone, Copy)]
pub struct StoredEvents<'a> {
    /// The account's store.
    pub store: &'a Store,
    /// The account's id (RFC 8620 section 1.6.2).
    pub account: &'a Text,
    /// The time zones that there are.
    pub zones: &'a Zones,
    /// Which copy of the data the account goes on from.
    pub generation: u64,
    ghost read: { AreRead zones.now (event_puts store.now) } by { Prim.hlevel codes },
}

impl<'a> StoredEvents<'a> {
    ghost use Rattle.event_store.specs.EventsBase.{base_of};

    /// The events of a store that has the series of each beside it. Takes no memory.
    pub fn new(
        store: &'a Store,
        account: &'a Text,
        zones: &'a Zones,
        generation: u64,
    ) -> StoredEvents<'a>
        requires { AreRead zones.now (event_puts store.now) }
        ensures store { result.store.now ≡ store.now }
        ensures base { base_of result ≡ record { account_id = account.now; zones = zones.now; generation = generation } }
    {
        StoredEvents {
            store,
            account,
            zones,
            generation,
        }
    }

    /// The event of a number, where it is live. Takes no memory.
    pub fn event(&self, id: u64) -> Option<StoredEvent<'a>>
        ensures object { option_map (λ e. e.object.now) result ≡ live_object (changes_of (entries self.now.store.now)) Event id }
        ensures series { IfSome result (HasItsSeries self.now.zones.now) }
    {
        stored(self.store.event(id))
    }

    /// The event of a number at state `k` of events, where it was live then. Takes no memory.
    pub fn event_at(&self, id: u64, k: u64) -> Option<StoredEvent<'a>>
        requires { is_answered_from Event (changes_of (entries self.now.store.now)) k ≡ true }
        ensures object { option_map (λ e. e.object.now) result ≡ live_object (changes_up_to (entries self.now.store.now) Event k) Event id }
        ensures series { IfSome result (HasItsSeries self.now.zones.now) }
    {
        stored(self.store.event_at(id, k))
    }

    /// The live events, in order of creation. Takes memory for the list.
    ///
    /// Time grows with their number.
    pub fn live(&self, alloc: Global) -> Result<Vec<StoredEvent<'a>>, AllocError>
        ensures objects { IfOk result (λ v. map (λ e. e.object.now) v.items ≡ live_at (changes_of (entries self.now.store.now)) Event) }
        ensures series { IfOk result (λ v. All (HasItsSeries self.now.zones.now) v.items) }
    {
        let ids = self.store.live_ids(alloc, Kind::Event)?;
        let mut live = Vec::new(alloc);
        for id in &ids {
            push_some(&mut live, self.event(*id))?;
        }
        Ok(live)
    }
}

// An event that is kept, with what stands beside it.
fn stored<'a>(event: Option<&'a KeptEvent>) -> Option<StoredEvent<'a>>
    ensures object { option_map (λ e. e.object.now) result ≡ option_map (λ e. e.now.object) event.entry }
    ensures series { (zones : List ZoneText) → series_beside (option_copied event.entry) ≡ series_read zones (option_copied event.entry) → IfSome result (HasItsSeries zones) }
{
    let event = event?;
    Some(StoredEvent {
        object: &event.object,
        series: event.series.as_ref(),
    })
}

// Puts an event at the end, where there is one.
fn push_some<'a>(
    list: &mut Vec<StoredEvent<'a>>,
    event: Option<StoredEvent<'a>>,
) -> Result<(), AllocError>
    ensures { OnOk result (list.new.items ≡ list.old.items ++ some_of event.entry) }
{
    if let Some(event) = event {
        list.push(event)?;
    }
    Ok(())
}
