//! What a set sees of an account while it is planned.
ghost use Rattle.std.specs.Prelude.{◌≡◌, ◌≤◌, ◌+◌, ◌++◌, ◌∷◌, [], None, IfNone, IfOk, List, OnErr, OnOk, length, not, option_map, true};
ghost use Rattle.cal_model.specs.EventObject.{has_event};
ghost use Rattle.cal_model.specs.Fits.{IsFit};
ghost use Rattle.cal_model.specs.Quota.{exceeds_quota, size_of_object};
ghost use Rattle.cal_model.specs.SoundObjects.{unsound_object};
ghost use Rattle.cal_model.specs.declared.limits.TheConstants.{MAX_CHANGES};
ghost use Rattle.spec_history.specs.Base.{Base};
ghost use Rattle.spec_history.specs.History.{changes_of, ids_at, live_object};
ghost use Rattle.spec_history.specs.States.{state_of};
ghost use Rattle.spec_history.specs.declared.entry.Change.{Change as AnyChange};
ghost use Rattle.spec_history.specs.declared.entry.Entry.{Entry};
ghost use Rattle.spec_history.specs.declared.entry.Kind.TheVariants.{Calendar};
ghost use Rattle.spec_bookings.specs.BookedResources.{other_bookings};
ghost use Rattle.spec_bookings.specs.Resources.{is_resource, resources_at};
ghost use Rattle.spec_bookings.specs.Clashes.{IsClear, first_clash};
ghost use Rattle.spec_bookings.specs.SeriesPut.{series_put};
ghost use Rattle.spec_series.specs.Lengths.{IsWeekLong};

use spec_bookings::clash::Clash;
use spec_history::entry::{Change, Kind};
use spec_history::state::State;
use spec_json::tree::Tree;
use spec_series::series::Series;
use std::alloc::{AllocError, Global};

/// What an event meets in an account: its live calendars, and the bookings of those of resources.
///
/// Contracts see the account's base, and the changes at which each call answers.
pub trait CalendarsView {
    ghost base: { Self → Base };

    ghost changes: { Self → List AnyChange };

    /// The calendar of a number, where it is live. Takes no memory.
    fn calendar(&self, id: u64) -> Option<&Tree>
        ensures { option_map (λ t. t.now) result ≡ live_object (changes self.now) Calendar id };

    /// The numbers of the live resource calendars, in order of creation. Takes memory for the list.
    fn resources(&self, alloc: Global) -> Result<Vec<u64>, AllocError>
        ensures { IfOk result (λ v. v.items ≡ resources_at (changes self.now)) };

    /// How many bookings a live resource calendar has beside that of an event. Takes no memory.
    fn bookings(&self, calendar: u64, event: u64) -> usize
        requires { is_resource (changes self.now) calendar ≡ true }
        ensures { result ≡ length (other_bookings (base self.now).zones (changes self.now) event calendar) };

    /// The first second, over all days without end, that an occurrence of a series covers and that a different occurrence covers too,
    /// of the series or of a booking of a live resource calendar beside that of an event; or `None` where there is no such second.
    /// No occurrence of the series lasts longer than 7 days. Takes no memory.
    fn clash(&self, calendar: u64, event: u64, series: &Series) -> Option<Clash>
        requires resource { is_resource (changes self.now) calendar ≡ true }
        requires week { IsWeekLong series.now }
        ensures exact { result ≡ first_clash (other_bookings (base self.now).zones (changes self.now) event calendar) series.now }
        ensures clear { IfNone result (IsClear (other_bookings (base self.now).zones (changes self.now) event calendar) series.now) };
}

/// What a set sees of an account: its history, with the changes of this call that were accepted so far.
///
/// Contracts see beside the account's base its entries, which no call changes. Each call answers at the changes of these entries, followed by those that are staged.
pub trait AccountView: CalendarsView {
    ghost entries: { Self → List Entry };

    /// The object of a kind and number, where it is live. Takes no memory.
    fn live(&self, kind: Kind, id: u64) -> Option<&Tree>
        ensures { option_map (λ t. t.now) result ≡ live_object (Self.changes self.now) kind id };

    /// Whether a live event is in a calendar of this number. Takes no memory, and time with the number of events.
    fn has_event(&self, calendar: u64) -> bool
        ensures { result ≡ has_event (Self.changes self.now) calendar };

    /// Each live object is sound: the account would store it as it stands. A law; it does nothing.
    fn has_sound_objects(&self)
        ensures { unsound_object (Self.base self.now).zones (Self.changes self.now) ≡ None };

    /// How many objects of a kind were created. None has the next number. Takes no memory.
    fn created_so_far(&self, kind: Kind) -> u64
        ensures exact { result ≡ length (ids_at (Self.changes self.now) kind) }
        ensures new { live_object (Self.changes self.now) kind (result + 1) ≡ None }
        ensures most { result ≤ MAX_CHANGES };

    /// Which copy of the data the account goes on from. Takes no memory.
    fn generation(&self) -> u64
        ensures { result ≡ (Self.base self.now).generation };

    /// The state of a kind: the generation, and how many changes are of the kind (RFC 8620 section 5.1). Takes no memory.
    fn state(&self, kind: Kind) -> State
        ensures { result ≡ state_of (Self.base self.now).generation kind (Self.changes self.now) };

    /// Whether the account has room for one change more, whose object has a compact text of `size` bytes, 0 for a removal. Takes no memory.
    fn has_room(&self, change: &Change, size: usize) -> bool
        requires { size ≡ size_of_object change.now.object }
        ensures { result ≡ not (exceeds_quota (Self.changes self.now) change.now) };

    /// Stages a change behind those that are staged. `size` is the bytes of its object's compact text, 0 for a removal; `series` is that
    /// of the event that it puts (RFC 8984 section 4.3).
    ///
    /// After running out of memory nothing is staged.
    fn stage(
        &mut self,
        change: Change,
        size: usize,
        series: Option<Series>,
    ) -> Result<(), AllocError>
        requires fit { IsFit (Self.base self.old).zones (Self.changes self.old) change }
        requires size { size ≡ size_of_object change.object }
        requires series { series ≡ series_put (Self.base self.old).zones change }
        ensures ok { OnOk result (Self.changes self.new ≡ Self.changes self.old ++ change ∷ []) }
        ensures err { OnErr result (Self.changes self.new ≡ changes_of (entries self.old)) }
        ensures entries { entries self.new ≡ entries self.old }
        ensures base { Self.base self.new ≡ Self.base self.old };

    /// Stages nothing any more. Takes no memory.
    fn forget(&mut self)
        ensures changes { Self.changes self.new ≡ changes_of (entries self.old) }
        ensures entries { entries self.new ≡ entries self.old }
        ensures base { Self.base self.new ≡ Self.base self.old };
}
