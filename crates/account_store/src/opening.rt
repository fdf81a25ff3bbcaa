//! How a store goes on from what is kept of a history.
ghost use Rattle.std.specs.Prelude.{◌≡◌, ◌⊎◌, ◌<◌, ◌≤◌, ◌+◌, ◌^◌, ◌++◌, ◌∷◌, ◌&&◌, [], ℕ, false, length, nat_le, true, OnOk};
ghost use Rattle.std.specs.Coded.{codes};
ghost use Rattle.spec_json.specs.DataCode.{data_code};
ghost use Rattle.spec_history.specs.History.{changes_of};
ghost use Rattle.spec_history.specs.declared.entry.Kind.{Kind as AnyKind};
ghost use Rattle.spec_history.specs.declared.entry.Kind.TheVariants.{Calendar, Event};
ghost use Rattle.spec_sizes.specs.Sizes.{is_answered_from, size_of_object};
ghost use Rattle.spec_snapshots.specs.Numbered.{is_numbered};
ghost use Rattle.object_log.specs.Histories.{Follows};
ghost use Rattle.object_log.specs.ObjectLog.{first, puts};
ghost use Rattle.object_log.specs.Puts.{is_known};
ghost use Rattle.account_store.specs.Kept.{event_put};
ghost use Rattle.account_store.specs.Store.{entries, event_puts};

use crate::kept::{KeptEvent, kept_event};
use crate::store::Store;
use ghost_list::GhostList;
use object_log::{ObjectLog, Put};
use spec_history::entry::{Change, Entry, Kind};
use spec_json::tree::Tree;
use spec_series::series::Series;
use std::alloc::AllocError;

/// A store that goes on from a state of each kind, its floor, while the entries behind these come to it.
///
/// Contracts see all entries that ever were, as of a store. Of the states before a floor it says nothing yet.
#[derive(Drop)]
pub struct OpeningStore {
    calendars: ObjectLog<Tree>,
    events: ObjectLog<KeptEvent>,
    count: u64,
    told: GhostList<Entry>,
    calendars_from: u64,
    events_from: u64,
    ghost calendars_follow: { Follows (λ t. t) (puts calendars) Calendar (changes_of told.items) } by { Prim.hlevel (codes, data_code) },
    ghost events_follow: { Follows (λ e. e.object) (puts events) Event (changes_of told.items) } by { Prim.hlevel (codes, data_code) },
    ghost calendars_low: { calendars_from ≤ first calendars },
    ghost events_low: { events_from ≤ first events },
    ghost calendars_known: { (k : ℕ) → calendars_from ≤ k → (nat_le (first calendars) k && nat_le k (length (puts calendars))) ≡ is_known (puts calendars) k },
    ghost events_known: { (k : ℕ) → events_from ≤ k → (nat_le (first events) k && nat_le k (length (puts events))) ≡ is_known (puts events) k },
    ghost counted: { count ≡ length told.items },
}

impl OpeningStore {
    ghost use Rattle.account_store.specs.Opening.{opening_entries, opening_floor, opening_puts, opening_spare};

    /// A store of these entries, whose logs have all their changes, and answer from the states alone to which these led. Takes no memory.
    pub fn new(
        told: GhostList<Entry>,
        count: u64,
        calendars: ObjectLog<Tree>,
        events: ObjectLog<KeptEvent>,
    ) -> OpeningStore
        requires counted { count ≡ length told.items }
        requires calendars { Follows (λ t. t) (puts calendars) Calendar (changes_of told.items) }
        requires events { Follows (λ e. e.object) (puts events) Event (changes_of told.items) }
        requires calendars_at { first calendars ≡ length (puts calendars) }
        requires events_at { first events ≡ length (puts events) }
        ensures entries { opening_entries result ≡ told.items }
        ensures events { opening_puts result ≡ puts events }
        ensures calendars_from { opening_floor result Calendar ≡ length (puts calendars) }
        ensures events_from { opening_floor result Event ≡ length (puts events) }
    {
        let calendars_from = calendars.count();
        let events_from = events.count();
        OpeningStore {
            calendars,
            events,
            count,
            told,
            calendars_from,
            events_from,
        }
    }

    /// Whether a change may come next: it creates the next object of its kind, or is of one that is there. Takes no memory.
    pub fn may_follow(&self, change: &Change) -> bool
        ensures { result ≡ is_numbered (changes_of (opening_entries self.now)) change.now }
    {
        match change.kind {
            Kind::Calendar => self.calendars.may_come(change.id),
            Kind::Event => self.events.may_come(change.id),
        }
    }

    /// Takes memory for `more` further entries, of whatever kinds and objects.
    pub fn reserve(&mut self, more: u64) -> Result<(), AllocError>
        ensures spare { OnOk result (more ≤ opening_spare self.new) }
        ensures entries { opening_entries self.new ≡ opening_entries self.old }
        ensures events { opening_puts self.new ≡ opening_puts self.old }
        ensures floors { (kind : AnyKind) → opening_floor self.new kind ≡ opening_floor self.old kind }
    {
        self.calendars.reserve(more)?;
        self.events.reserve(more)
    }

    /// Puts an entry behind the others, with the series that was read of its event and the bytes of its object. Takes no memory, since it was reserved.
    pub fn push_reserved(&mut self, entry: Entry, series: Option<Series>, size: u64)
        requires spare { 0 < opening_spare self.old }
        requires numbered { is_numbered (changes_of (opening_entries self.old)) entry.change ≡ true }
        requires few { length (opening_entries self.old) < 2 ^ 40 }
        requires size { size ≡ size_of_object entry.change.object }
        requires small { size ≤ 2 ^ 40 }
        ensures entries { opening_entries self.new ≡ opening_entries self.old ++ entry ∷ [] }
        ensures events { opening_puts self.new ≡ opening_puts self.old ++ event_put entry.change series }
        ensures spare { opening_spare self.old ≤ opening_spare self.new + 1 }
        ensures floors { (kind : AnyKind) → opening_floor self.new kind ≡ opening_floor self.old kind }
    {
        self.told = self.told.and(&entry);
        self.count += 1;
        let Change { kind, id, object } = entry.change;
        match kind {
            Kind::Calendar => self.calendars.put(Put { id, object, size }),
            Kind::Event => {
                let object = kept_event(object, series);
                self.events.put(Put { id, object, size });
            }
        }
    }

    /// The store, once no state up to a floor is answered from any more (RFC 8620 section 5.2), or there was none before it. Takes no memory.
    pub fn into_store(self) -> Store
        requires { (kind : AnyKind) → (opening_floor self kind ≡ 0) ⊎ (is_answered_from kind (changes_of (opening_entries self)) (opening_floor self kind) ≡ false) }
        ensures entries { entries result ≡ opening_entries self }
        ensures events { event_puts result ≡ opening_puts self }
    {
        Store::of(self.calendars, self.events, self.count, self.told)
    }
}
