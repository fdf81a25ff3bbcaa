//! An account.
ghost use Rattle.std.specs.Prelude.{◌≡◌, [], IfOk, None, OnErr, OnOk};
ghost use Rattle.account_core.specs.Ledger.{base, ledger_entries, staged};
ghost use Rattle.cal_model.specs.Answer.{added, answer};
ghost use Rattle.spec_books.specs.Acting.{Came};

use crate::changes::changes;
use crate::get::get;
use crate::keeping::EntryKeeper;
use crate::ledger::Ledger;
use crate::opening::open_at;
use crate::queries::{availability, query, query_changes};
use crate::set::set;
use crate::slots::{find_slot, slot};
use crate::trail::Trail;
use account_opening::OpeningError;
use journal_keeper::loaded::Loaded;
use resource_book::Room;
use slot_request::SlotRequest;
use spec_bookings::clash::Clash;
use spec_books::book::Book;
use spec_calls::call::{Asks, Call, Reply};
use spec_history::entry::Entry;
use spec_history::stamp::Stamp;
use spec_json::text::Text;
use spec_series::series::Series;
use spec_slots::slot::FoundSlot;
use spec_time::moment::Moment;
use std::alloc::{AllocError, Global};
use std::marker::Model;
use std::sync::Arc;
use zone_table::Zones;

/// An account. Contracts see its base and its entries.
#[derive(Drop)]
pub struct Account {
    ledger: Ledger,
    /// Copies of what came since the last mark, where there is one.
    trail: Trail,
}

impl Model for Account {
    ghost use Rattle.std.specs.Prelude.{◌≡◌, List, []};
    ghost use Rattle.std.specs.Coded.{codes};
    ghost use Rattle.account_core.specs.Ledger.{base, ledger_entries, staged};
    ghost use Rattle.account_core.specs.Trails.{HasCopies};
    ghost use Rattle.spec_history.specs.Base.{Base};
    ghost use Rattle.spec_json.specs.DataCode.{data_code};
    ghost use Rattle.spec_history.specs.declared.entry.Entry.{Entry};

    ghost Value = { Base × List Entry };

    ghost coded = { Prim.hlevel (codes, data_code) };

    ghost view = { λ a. (base a.ledger, ledger_entries a.ledger) };

    ghost invariant = { λ a. (staged a.ledger ≡ []) × HasCopies (base a.ledger).zones a.trail (ledger_entries a.ledger) };
}

impl Account {
    ghost use Rattle.std.specs.Arc.{arc_value};
    ghost use Rattle.std.specs.Prelude.{◌≤◌, IfErr, IfNone, IfSome, drop, false, length, option_map, true};
    ghost use Rattle.account_core.specs.Trails.{AreSoundFrom};
    ghost use Rattle.account_opening.specs.Opening.{IsRefusal, NamesUnsound};
    ghost use Rattle.account_rooms.specs.Covered.{AreCoveredOnce};
    ghost use Rattle.account_rooms.specs.Rooms.{AreFree};
    ghost use Rattle.cal_model.specs.GoesOn.{GoesOn};
    ghost use Rattle.slot_request.specs.Shown.{request_shown};
    ghost use Rattle.slot_request.specs.Told.{AreTold};
    ghost use Rattle.spec_history.specs.History.{changes_of};
    ghost use Rattle.spec_snapshots.specs.Kept.{IsKeptFrom};
    ghost use Rattle.spec_bookings.specs.BookedResources.{bookings_of, other_bookings};
    ghost use Rattle.spec_bookings.specs.Resources.{is_resource};
    ghost use Rattle.spec_bookings.specs.Clashes.{IsClash, IsClear, first_clash, second_of};
    ghost use Rattle.spec_series.specs.Lengths.{IsWeekLong};
    ghost use Rattle.spec_slots.specs.AccountSlots.{slot_in_account};
    ghost use Rattle.rule_expand.specs.Least.{IsLeastOf};

    /// An account of this id, with these zones and no entries, in this generation of the data. Takes no memory.
    pub fn open(
        alloc: Global,
        id: Text,
        zones: Arc<Zones>,
        generation: u64,
    ) -> Result<Account, AllocError>
        ensures { IfOk result (λ a. a ≡ (record { account_id = id; zones = arc_value zones; generation = generation }, [])) }
    {
        Ok(Account {
            ledger: Ledger::new(alloc, id, zones, generation),
            trail: Trail::none(alloc),
        })
    }

    /// An account of this id, with these zones, in this generation of the data, that goes on from what is kept of its history. Its resources have the
    /// bookings of these entries.
    ///
    /// `BadObject` tells an object for which no account goes on from them, and the first that isn't sound, where nothing else stands against it. The entries may be of any
    /// authors, turns and moments. Takes memory for what an account keeps of its entries.
    pub fn open_at(
        alloc: Global,
        id: Text,
        zones: Arc<Zones>,
        generation: u64,
        loaded: Loaded,
    ) -> Result<Account, OpeningError>
        requires { IsKeptFrom loaded.told.items loaded.kept }
        ensures opened { IfOk result (λ a. a ≡ (record { account_id = id; zones = arc_value zones; generation = generation }, loaded.told.items)) }
        ensures goes_on { OnOk result (GoesOn (arc_value zones) (changes_of loaded.told.items)) }
        ensures refused { IfErr result (IsRefusal (arc_value zones) (changes_of loaded.told.items)) }
        ensures named { IfErr result (NamesUnsound (arc_value zones) (changes_of loaded.told.items)) }
    {
        Ok(Account {
            ledger: open_at(alloc, id, zones, generation, loaded)?,
            trail: Trail::none(alloc),
        })
    }

    /// An account goes on from its entries. It is so of each account, whatever sets it took, and this call does nothing.
    pub fn goes_on(&self)
        ensures { GoesOn self.now.0.zones (changes_of self.now.1) }
    {
        self.ledger.goes_on();
    }

    /// Answers a call, keeps the entries that it adds, and adds them once they are kept. Where they could not be kept the reply tells so, and nothing is added.
    ///
    /// After running out of memory the entries are as before. No copies are kept from here on, whatever `mark` began.
    pub fn act_kept<K: EntryKeeper>(
        &mut self,
        keeper: &mut K,
        stamp: &Stamp,
        call: &Call,
    ) -> Result<Reply, AllocError>
        ensures base { self.new.0 ≡ self.old.0 }
        ensures came { IfOk result (λ r. Came answer added K.unkept self.old.0 self.old.1 call.now stamp.now r self.new.1) }
        ensures kept { K.has keeper.old self.old.0 self.old.1 → K.has keeper.new self.old.0 self.new.1 }
        ensures unchanged { OnErr result (self.new.1 ≡ self.old.1) }
    {
        self.trail = Trail::none(self.ledger.alloc);
        answer(&mut self.ledger, keeper, stamp, call)
    }

    /// Begins to keep copies of the entries that calls add from here on, for `added_since`. Takes no memory.
    pub fn mark(&mut self)
        ensures { self.new ≡ self.old }
    {
        let first = self.ledger.store.len();
        self.trail = Trail::behind(self.ledger.alloc, first);
    }

    /// The entries from a place on, where all of them came since the last mark. Takes no memory.
    pub fn added_since(&self, place: u64) -> Option<&[Entry]>
        requires { place ≤ length self.now.1 }
        ensures entries { IfSome result (λ es. es.now ≡ drop place self.now.1) }
        ensures sound { IfSome result (λ es. AreSoundFrom self.now.0.zones place self.now.1) }
    {
        match self.trail.first {
            Some(first) if first <= place => Some(self.trail.since(first, place)),
            _ => None,
        }
    }

    /// No second of a live resource calendar is covered by two different occurrences of its bookings, over all days without end.
    /// It is so of each account, whatever sets it took, and this call does nothing.
    pub fn is_never_booked_twice(&self)
        ensures free { AreFree self.now.0.zones (changes_of self.now.1) }
        ensures occurrences { AreCoveredOnce self.now.0.zones (changes_of self.now.1) }
    {
        self.ledger.is_never_booked_twice();
    }

    /// The first second, over all days without end, that an occurrence of a series covers and that a different occurrence covers too,
    /// of the series or of a booking of a live resource calendar beside that of an event; or `None` where there is no such second.
    /// No occurrence of the series lasts longer than 7 days. Takes no memory.
    pub fn first_clash(&self, calendar: u64, event: u64, series: &Series) -> Option<Clash>
        requires resource { is_resource (changes_of self.now.1) calendar ≡ true }
        requires week { IsWeekLong series.now }
        ensures exact { result ≡ first_clash (other_bookings self.now.0.zones (changes_of self.now.1) event calendar) series.now }
        ensures clear { IfNone result (IsClear (other_bookings self.now.0.zones (changes_of self.now.1) event calendar) series.now) }
        ensures least { IsLeastOf (IsClash (other_bookings self.now.0.zones (changes_of self.now.1) event calendar) series.now) (option_map second_of result) }
    {
        self.ledger.first_clash(calendar, event, series)
    }

    /// The room of a live resource calendar with its bookings, or `None` where the number is of none. Takes no memory.
    pub fn room_of(&self, calendar: u64) -> Option<&Room>
        ensures none { IfNone result (is_resource (changes_of self.now.1) calendar ≡ false) }
        ensures some { IfSome result (λ room. (is_resource (changes_of self.now.1) calendar ≡ true) × (room.now.bookings ≡ bookings_of self.now.0.zones (changes_of self.now.1) calendar)) }
    {
        self.ledger.room_of(calendar)
    }

    /// The first slot of a resource for what is asked, with each earlier start and what stands against it, over all days without end; or
    /// `None` where the account has no live resource calendar of the id. Takes memory for it.
    pub fn find_slot(&self, asked: &SlotRequest) -> Result<Option<FoundSlot>, AllocError>
        ensures found { IfOk result (λ found. found ≡ slot_in_account self.now.0.zones (changes_of self.now.1) (request_shown asked.now)) }
        ensures told { IfOk result (λ found. IfSome found AreTold) }
    {
        find_slot(&self.ledger, asked)
    }
}

impl Book for Account {
    ghost use Rattle.cal_model.specs.Answer.{answer, added};
    ghost use Rattle.cal_model.specs.AddedEntries.{added_signed};

    type Call = Call;

    type Reply = Reply;

    ghost base = { λ a. a.0 };

    ghost entries = { λ a. a.1 };

    ghost answer = { answer };

    ghost added = { added };

    ghost unkept = { None };

    fn act(
        &mut self,
        author: u32,
        turn: u64,
        call: &Call,
        moment: Moment,
    ) -> Result<Reply, AllocError> {
        let stamp = Stamp {
            author,
            turn,
            moment,
        };
        answer(&mut self.ledger, &mut self.trail, &stamp, call)
    }

    fn count(&self) -> u64 {
        self.ledger.store.len()
    }

    ghost signed = { added_signed };
}

// Answers a call, keeps its entries and adds them.
fn answer<K: EntryKeeper>(
    ledger: &mut Ledger,
    keeper: &mut K,
    stamp: &Stamp,
    call: &Call,
) -> Result<Reply, AllocError>
    requires { staged ledger.old ≡ [] }
    ensures came { IfOk result (λ r. Came answer added K.unkept (base ledger.old) (ledger_entries ledger.old) call.now stamp.now r (ledger_entries ledger.new)) }
    ensures kept { K.has keeper.old (base ledger.old) (ledger_entries ledger.old) → K.has keeper.new (base ledger.old) (ledger_entries ledger.new) }
    ensures unchanged { OnErr result (ledger_entries ledger.new ≡ ledger_entries ledger.old) }
    ensures staged { staged ledger.new ≡ [] }
    ensures base { base ledger.new ≡ base ledger.old }
{
    match &call.asks {
        Asks::Get(arguments) => get(ledger, arguments, &call.created),
        Asks::Changes(arguments) => changes(ledger, arguments),
        Asks::Set(arguments) => set(ledger, keeper, stamp, arguments, &call.created),
        Asks::Query(arguments) => query(ledger, arguments),
        Asks::QueryChanges(arguments) => query_changes(ledger, arguments),
        Asks::Availability(arguments) => availability(ledger, arguments),
        Asks::Slot(arguments) => slot(ledger, arguments),
    }
}
