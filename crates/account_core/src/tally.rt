//! How much an account holds.
ghost use Rattle.std.specs.Prelude.{◌≡◌, ◌+◌, ◌-◌, ◌≤◌, ◌<◌, ◌&&◌, if◌then◌else◌, max, nat_le, nat_lt};
ghost use Rattle.cal_model.specs.declared.limits.TheConstants.{MAX_CHANGES, MAX_OBJECT_BYTES, MAX_OBJECTS};
ghost use Rattle.spec_history.specs.History.{is_kind};
ghost use Rattle.spec_history.specs.declared.entry.Kind.{Kind as AnyKind};

use account_opening::Opened;
use cal_model::limits::{MAX_CHANGES, MAX_OBJECT_BYTES, MAX_OBJECTS};
use spec_history::entry::Kind;

/// How much objects take.
#[derive(Clone, Copy, Drop)]
pub struct Load {
    /// How many there are.
    pub objects: usize,
    /// The bytes of their compact texts.
    pub bytes: usize,
}

/// How much an account holds, and how many objects of each kind it has had. It tells whether a change is within the quota,
/// and the number of the next object, without going over the history.
#[derive(Clone, Copy, Drop)]
pub struct Tally {
    /// The number of entries that there ever were.
    pub entries: u64,
    /// How many objects are live, of both kinds.
    pub objects: usize,
    /// The bytes of the compact texts of the live objects.
    pub size: usize,
    /// How many calendars were created, with the numbers from 1 on, in order.
    pub calendars: u64,
    /// How many events were created, with the numbers from 1 on, in order.
    pub events: u64,
    ghost few: { entries ≤ MAX_CHANGES },
    ghost within: { objects ≤ MAX_OBJECTS },
    ghost small: { size ≤ MAX_OBJECT_BYTES },
    ghost calendars_numbered: { calendars ≤ entries },
    ghost events_numbered: { events ≤ entries },
}

impl Tally {
    ghost use Rattle.account_core.specs.Tally.{Tallies, count_created};
    ghost use Rattle.account_opening.specs.Opening.{IsOpenedFrom};
    ghost use Rattle.account_store.specs.Store.{entries};
    ghost use Rattle.spec_history.specs.History.{changes_of};
    ghost use Rattle.spec_site.specs.TimeZones.{ZoneText};
    ghost use Rattle.std.specs.Prelude.{List, []};

    /// The tally of no entries. Takes no memory.
    pub fn new() -> Tally
        ensures { Tallies result [] }
    {
        Tally {
            entries: 0,
            objects: 0,
            size: 0,
            calendars: 0,
            events: 0,
        }
    }

    /// The tally of what was opened. Takes no memory.
    pub fn at(opened: &Opened) -> Tally
        requires { (zones : List ZoneText) × IsOpenedFrom zones (entries opened.now.store) opened.now }
        ensures { Tallies result (changes_of (entries opened.now.store)) }
    {
        Tally {
            entries: opened.store.len(),
            objects: opened.objects,
            size: opened.size,
            calendars: opened.store.created(Kind::Calendar),
            events: opened.store.created(Kind::Event),
        }
    }

    /// How many objects of a kind were created. Takes no memory.
    pub fn created(&self, kind: Kind) -> u64
        ensures exact { result ≡ count_created self.now kind }
        ensures most { result ≤ self.now.entries }
    {
        match kind {
            Kind::Calendar => self.calendars,
            Kind::Event => self.events,
        }
    }

    /// Whether there is room for one change more, and for what it puts in place of what goes. Takes no memory.
    #[tactic(auto, using(crate::proofs::Numbers::fits_beside))]
    pub fn has_room(&self, gone: Load, put: Load) -> bool
        requires had { gone.objects ≤ self.now.objects }
        requires had_bytes { gone.bytes ≤ self.now.size }
        ensures { result ≡ (nat_lt self.now.entries MAX_CHANGES
            && (nat_le (self.now.objects - gone.objects + put.objects) MAX_OBJECTS && nat_le (self.now.size - gone.bytes + put.bytes) MAX_OBJECT_BYTES)) }
    {
        self.entries < MAX_CHANGES
            && put.objects <= MAX_OBJECTS - (self.objects - gone.objects)
            && put.bytes <= MAX_OBJECT_BYTES - (self.size - gone.bytes)
    }

    /// Counts one more entry: a change of the object `id` of a kind, which gives up what that took and puts what it takes then. Takes no memory.
    pub fn count(&mut self, kind: Kind, id: u64, gone: Load, put: Load)
        requires few { self.old.entries < MAX_CHANGES }
        requires had { gone.objects ≤ self.old.objects }
        requires had_bytes { gone.bytes ≤ self.old.size }
        requires within { self.old.objects - gone.objects + put.objects ≤ MAX_OBJECTS }
        requires small { self.old.size - gone.bytes + put.bytes ≤ MAX_OBJECT_BYTES }
        requires next { id ≤ count_created self.old kind + 1 }
        ensures entries { self.new.entries ≡ self.old.entries + 1 }
        ensures objects { self.new.objects + gone.objects ≡ self.old.objects + put.objects }
        ensures size { self.new.size + gone.bytes ≡ self.old.size + put.bytes }
        ensures created { (k : AnyKind) → count_created self.new k ≡ if is_kind k kind then max (count_created self.old k) id else count_created self.old k }
    {
        self.entries += 1;
        self.objects = self.objects - gone.objects + put.objects;
        self.size = self.size - gone.bytes + put.bytes;
        match kind {
            Kind::Calendar => self.calendars = self.calendars.max(id),
            Kind::Event => self.events = self.events.max(id),
        }
    }
}
