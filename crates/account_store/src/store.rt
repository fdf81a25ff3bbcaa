//! The store of an account.
ghost use Rattle.std.specs.Prelude.{◌≡◌, ◌<◌, ◌≤◌, ◌+◌, ◌^◌, ◌++◌, ◌∷◌, ◌&&◌, ◌↔◌, [], ℕ, false, length, map, nat_le, option_copied, option_map, true, IfOk, IsErrOf, OnOk};
ghost use Rattle.std.specs.Coded.{codes};
ghost use Rattle.spec_json.specs.DataCode.{data_code};
ghost use Rattle.spec_history.specs.History.{changes_of, ids_at, live_at, live_object, count_of_kind};
ghost use Rattle.spec_history.specs.Pages.{mentions};
ghost use Rattle.spec_sizes.specs.Sizes.{is_answered_from, size_of_object};
ghost use Rattle.spec_snapshots.specs.Numbered.{is_numbered};
ghost use Rattle.spec_history.specs.declared.entry.Kind.TheVariants.{Calendar, Event};
ghost use Rattle.object_log.specs.Histories.{Follows};
ghost use Rattle.object_log.specs.IsPage.{IsPage};
ghost use Rattle.object_log.specs.ObjectLog.{first, puts};
ghost use Rattle.object_log.specs.Puts.{is_known, latest, latest_at};
ghost use Rattle.object_log.specs.declared.changes.ChangesError;
ghost use Rattle.account_store.specs.Earlier.{changes_up_to, live_ids, touched_ids};
ghost use Rattle.account_store.specs.Kept.{event_put};

use crate::kept::{KeptEvent, kept_event};
use ghost_list::GhostList;
use object_log::{ChangesError, ObjectLog, Page, Put};
use spec_history::entry::{Change, Entry, Kind};
use spec_json::tree::Tree;
use spec_series::series::Series;
use std::alloc::{AllocError, Global};

/// What an account holds by its history.
///
/// Contracts see all entries that ever were, and how many more are taken without memory. The entries are part of what a store means and of no memory: that has
/// the live objects, and what the changes behind the oldest states that are answered from took the place of. A state of a kind is the number of its changes
/// (RFC 8620 section 5.1).
#[derive(Drop)]
pub struct Store {
    calendars: ObjectLog<Tree>,
    events: ObjectLog<KeptEvent>,
    count: u64,
    told: GhostList<Entry>,
    ghost calendars_follow: { Follows (λ t. t) (puts calendars) Calendar (changes_of told.items) } by { Prim.hlevel (codes, data_code) },
    ghost events_follow: { Follows (λ e. e.object) (puts events) Event (changes_of told.items) } by { Prim.hlevel (codes, data_code) },
    ghost calendars_known: { (k : ℕ) → (nat_le (first calendars) k && nat_le k (length (puts calendars))) ≡ is_known (puts calendars) k },
    ghost events_known: { (k : ℕ) → (nat_le (first events) k && nat_le k (length (puts events))) ≡ is_known (puts events) k },
    ghost counted: { count ≡ length told.items },
}

impl Store {
    ghost use Rattle.account_store.specs.Store.{entries, event_puts, spare};

    /// A store without entries. Takes no memory.
    pub fn new(alloc: Global) -> Store
        ensures entries { entries result ≡ [] }
        ensures events { event_puts result ≡ [] }
    {
        Store {
            calendars: ObjectLog::new(alloc),
            events: ObjectLog::new(alloc),
            count: 0,
            told: GhostList::new(),
        }
    }

    // A store of these entries, whose logs have all their changes, and answer from just the states that are answered from.
    pub(crate) fn of(
        calendars: ObjectLog<Tree>,
        events: ObjectLog<KeptEvent>,
        count: u64,
        told: GhostList<Entry>,
    ) -> Store
        requires calendars { Follows (λ t. t) (puts calendars) Calendar (changes_of told.items) }
        requires events { Follows (λ e. e.object) (puts events) Event (changes_of told.items) }
        requires calendars_known { (k : ℕ) → (nat_le (first calendars) k && nat_le k (length (puts calendars))) ≡ is_known (puts calendars) k }
        requires events_known { (k : ℕ) → (nat_le (first events) k && nat_le k (length (puts events))) ≡ is_known (puts events) k }
        requires counted { count ≡ length told.items }
        ensures entries { entries result ≡ told.items }
        ensures events { event_puts result ≡ puts events }
    {
        Store {
            calendars,
            events,
            count,
            told,
        }
    }

    /// How many entries there ever were. Takes no memory.
    pub fn len(&self) -> u64
        ensures { result ≡ length (entries self.now) }
    {
        self.count
    }

    /// Takes memory for `more` further entries, of whatever kinds and objects.
    pub fn reserve(&mut self, more: u64) -> Result<(), AllocError>
        ensures spare { OnOk result (more ≤ spare self.new) }
        ensures entries { entries self.new ≡ entries self.old }
        ensures events { event_puts self.new ≡ event_puts self.old }
    {
        self.calendars.reserve(more)?;
        self.events.reserve(more)
    }

    /// Puts an entry behind the others, with the series that was read of its event and the bytes of its object. Takes no memory, since it was reserved.
    pub fn push_reserved(&mut self, entry: Entry, series: Option<Series>, size: u64)
        requires spare { 0 < spare self.old }
        requires numbered { is_numbered (changes_of (entries self.old)) entry.change ≡ true }
        requires few { length (entries self.old) < 2 ^ 40 }
        requires size { size ≡ size_of_object entry.change.object }
        requires small { size ≤ 2 ^ 40 }
        ensures entries { entries self.new ≡ entries self.old ++ entry ∷ [] }
        ensures events { event_puts self.new ≡ event_puts self.old ++ event_put entry.change series }
        ensures spare { spare self.old ≤ spare self.new + 1 }
    {
        self.told = self.told.and(&entry);
        self.count += 1;
        let Change { kind, id, object } = entry.change;
        match kind {
            Kind::Calendar => self.calendars.put(Put { id, object, size }),
            Kind::Event => {
                let object = kept_event(object, series);
                self.events.put(Put { id, object, size });
            }
        }
    }

    /// The object of a kind and number, where it is live. Takes no memory.
    pub fn object(&self, kind: Kind, id: u64) -> Option<&Tree>
        ensures { option_copied result ≡ live_object (changes_of (entries self.now)) kind id }
    {
        match kind {
            Kind::Calendar => self.calendars.get(id),
            Kind::Event => match self.events.get(id) {
                Some(event) => Some(&event.object),
                None => None,
            },
        }
    }

    /// The event of a number, where it is live. Takes no memory.
    pub fn event(&self, id: u64) -> Option<&KeptEvent>
        ensures kept { option_copied result ≡ latest (event_puts self.now) id }
        ensures object { option_map (λ e. e.now.object) result ≡ live_object (changes_of (entries self.now)) Event id }
    {
        self.events.get(id)
    }

    /// The event of a number at state `k` of events, where it was live then. Takes no memory.
    pub fn event_at(&self, id: u64, k: u64) -> Option<&KeptEvent>
        requires { is_answered_from Event (changes_of (entries self.now)) k ≡ true }
        ensures kept { option_copied result ≡ latest_at (event_puts self.now) k id }
        ensures object { option_map (λ e. e.now.object) result ≡ live_object (changes_up_to (entries self.now) Event k) Event id }
    {
        self.events.get_at(id, k)
    }

    /// The live objects of a kind, in order of creation. Takes memory for the list.
    pub fn live(&self, alloc: Global, kind: Kind) -> Result<Vec<&Tree>, AllocError>
        ensures { IfOk result (λ v. map (λ t. t.now) v.items ≡ live_at (changes_of (entries self.now)) kind) }
    {
        let ids = self.live_ids(alloc, kind)?;
        let mut live = Vec::new(alloc);
        for id in &ids {
            if let Some(object) = self.object(kind, *id) {
                live.push(object)?;
            }
        }
        Ok(live)
    }

    /// The numbers of the live objects of a kind, in order of creation. Takes memory for them.
    pub fn live_ids(&self, alloc: Global, kind: Kind) -> Result<Vec<u64>, AllocError>
        ensures { IfOk result (λ ids. ids.items ≡ live_ids (changes_of (entries self.now)) kind) }
    {
        match kind {
            Kind::Calendar => self.calendars.live_ids(alloc),
            Kind::Event => self.events.live_ids(alloc),
        }
    }

    /// The numbers of the events that changes behind state `since` of events name, in order of creation. Takes memory for them.
    ///
    /// Time grows with the changes of events behind that state alone.
    pub fn touched_since(&self, alloc: Global, since: u64) -> Result<Vec<u64>, AllocError>
        requires { is_answered_from Event (changes_of (entries self.now)) since ≡ true }
        ensures { IfOk result (λ ids. ids.items ≡ touched_ids (changes_of (entries self.now)) Event since) }
    {
        let until = self.events.count();
        self.events
            .touched_between(alloc, since as usize, until as usize)
    }

    /// How many objects of a kind were ever created, so that the next gets the number after it. Takes no memory.
    pub fn created(&self, kind: Kind) -> u64
        ensures { result ≡ length (ids_at (changes_of (entries self.now)) kind) }
    {
        match kind {
            Kind::Calendar => self.calendars.created(),
            Kind::Event => self.events.created(),
        }
    }

    /// The state of a kind: how many entries are of it (RFC 8620 section 5.1). Changes are told from it. Takes no memory.
    pub fn count(&self, kind: Kind) -> u64
        ensures exact { result ≡ count_of_kind (changes_of (entries self.now)) kind }
        ensures answered { is_answered_from kind (changes_of (entries self.now)) result ≡ true }
    {
        match kind {
            Kind::Calendar => self.calendars.count(),
            Kind::Event => self.events.count(),
        }
    }

    /// Whether changes of a kind are told from its state `k` (RFC 8620 section 5.2). Takes no memory.
    pub fn retained(&self, kind: Kind, k: u64) -> bool
        ensures { result ≡ is_answered_from kind (changes_of (entries self.now)) k }
    {
        match kind {
            Kind::Calendar => self.calendars.retained(k),
            Kind::Event => self.events.retained(k),
        }
    }

    /// What was created, updated and destroyed after the state `since` of a kind (RFC 8620 section 5.2).
    ///
    /// The page ends at the greatest state at which its lists together have at most `max` ids, and at the state of the kind
    /// where there is no maximum. Time and memory grow with the changes of the kind after `since` and the ids that they name.
    pub fn changes(&self, kind: Kind, since: u64, max: Option<u64>) -> Result<Page, ChangesError>
        ensures ok { IfOk result (IsPage (mentions kind (changes_of (entries self.now))) since max) }
        ensures not_retained { IsErrOf result ChangesError.NotRetained ↔ (is_answered_from kind (changes_of (entries self.now)) since ≡ false) }
    {
        match kind {
            Kind::Calendar => self.calendars.changes(since, max),
            Kind::Event => self.events.changes(since, max),
        }
    }

    /// Gives up memory of objects that were removed. Takes no memory.
    pub fn compact(&mut self)
        ensures entries { entries self.new ≡ entries self.old }
        ensures events { event_puts self.new ≡ event_puts self.old }
        ensures spare { spare self.old ≤ spare self.new }
    {
        self.calendars.compact();
        self.events.compact();
    }
}
