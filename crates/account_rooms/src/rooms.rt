//! The rooms of an account.
ghost use Rattle.std.specs.Prelude.{◌≡◌, ◌≤◌, [], None, Some, IfNone, IfOk, IfSome, OnOk, false, length, map, option_map, take, true};
ghost use Rattle.account_rooms.specs.RoomChanges.{MayChange, booked_again, rooms_after, rooms_by, with_room, without_room};
ghost use Rattle.account_rooms.specs.Rooms.{bookings_in, has_room};
ghost use Rattle.account_rooms.specs.Slots.{rooms_kept, rooms_now};
ghost use Rattle.spec_history.specs.declared.entry.Kind.TheVariants.{Calendar as calendar_kind, Event as event_kind};
ghost use Rattle.spec_bookings.specs.Bookings.{without_booking};
ghost use Rattle.spec_bookings.specs.Clashes.{IsClash, IsClear, first_clash, second_of};
ghost use Rattle.spec_series.specs.Lengths.{IsWeekLong};
ghost use Rattle.rule_expand.specs.Least.{IsLeastOf};

use crate::slot::{
    Slot, book_in_all, calendars_of, close, drop_closed, is_in_any, keep_all, retire_in_all,
    slot_of, undo_all,
};
use resource_book::Room;
use spec_bookings::clash::Clash;
use spec_history::entry::{Change, Kind};
use spec_json::tree::Tree;
use spec_series::series::Series;
use std::alloc::{AllocError, Global};
use std::marker::Model;

/// The resource calendars of an account with their bookings, as they are and as they were when they were last kept.
///
/// They follow the changes of the account. All that was done since they were kept is taken back without memory.
#[derive(Drop)]
pub struct Rooms {
    alloc: Global,
    // in order of creation
    slots: Vec<Slot>,
    // how many slots there were when the rooms were kept
    kept: usize,
}

impl Model for Rooms {
    ghost use Rattle.std.specs.Prelude.{◌≤◌, take, vec_len};
    ghost use Rattle.account_rooms.specs.RoomsView.{RoomsView};
    ghost use Rattle.account_rooms.specs.Slots.{rooms_kept, rooms_now};

    ghost Value = { RoomsView };

    ghost view = { λ r. record { rooms = rooms_now r.slots.items; kept = rooms_kept (take r.kept r.slots.items) } };

    ghost invariant = { λ r. r.kept ≤ vec_len r.slots };
}

impl Rooms {
    /// No rooms. Takes no memory.
    pub fn new(alloc: Global) -> Rooms
        ensures { result ≡ record { rooms = []; kept = [] } }
    {
        Rooms {
            alloc,
            slots: Vec::new(alloc),
            kept: 0,
        }
    }

    /// The numbers of the resource calendars, in order of creation. Takes memory for the list.
    pub fn calendars(&self, alloc: Global) -> Result<Vec<u64>, AllocError>
        ensures { IfOk result (λ v. v.items ≡ map (λ r. r.calendar) self.now.rooms) }
    {
        calendars_of(alloc, &self.slots)
    }

    /// How many bookings a resource calendar has beside that of an event. Takes no memory.
    pub fn bookings(&self, calendar: u64, event: u64) -> usize
        requires { has_room calendar self.now.rooms ≡ true }
        ensures { result ≡ length (without_booking event (bookings_in calendar self.now.rooms)) }
    {
        match slot_of(&self.slots, calendar) {
            Some(slot) => slot.room.count(Some(event)),
            None => unreachable!(),
        }
    }

    /// The first second, over all days without end, that an occurrence of the series covers and that a different occurrence covers
    /// too, of the series or of a booking of a resource calendar beside that of an event; or `None` where there is no such second.
    /// No occurrence of the series lasts longer than 7 days. Takes no memory.
    pub fn clash(&self, calendar: u64, event: u64, series: &Series) -> Option<Clash>
        requires room { has_room calendar self.now.rooms ≡ true }
        requires week { IsWeekLong series.now }
        ensures exact { result ≡ first_clash (without_booking event (bookings_in calendar self.now.rooms)) series.now }
        ensures clear { IfNone result (IsClear (without_booking event (bookings_in calendar self.now.rooms)) series.now) }
        ensures least { IsLeastOf (IsClash (without_booking event (bookings_in calendar self.now.rooms)) series.now) (option_map second_of result) }
    {
        match slot_of(&self.slots, calendar) {
            Some(slot) => slot.room.check(Some(event), series),
            None => unreachable!(),
        }
    }

    /// The room of a resource calendar, or `None` where the number is of none. Takes no memory.
    pub fn room_of(&self, calendar: u64) -> Option<&Room>
        ensures none { IfNone result (has_room calendar self.now.rooms ≡ false) }
        ensures some { IfSome result (λ room. (has_room calendar self.now.rooms ≡ true) × (room.now.bookings ≡ bookings_in calendar self.now.rooms)) }
    {
        match slot_of(&self.slots, calendar) {
            Some(slot) => Some(&slot.room),
            None => None,
        }
    }

    /// Lets the rooms follow a change, which puts an event of this series if of any. After running out of memory some of its bookings may be
    /// there and others not; those that are gone back to stay.
    pub fn follow(&mut self, change: &Change, series: Option<&Series>) -> Result<(), AllocError>
        requires { MayChange self.old.rooms change.now.kind change.now.object (option_map (λ s. s.now) series) }
        ensures ok { OnOk result (self.new.rooms ≡ rooms_after change.now (option_map (λ s. s.now) series.entry) self.old.rooms) }
        ensures kept { self.new.kept ≡ self.old.kept }
    {
        match (change.kind, &change.object) {
            (Kind::Event, None) => {
                self.retire(change.id);
                Ok(())
            }
            (Kind::Event, Some(event)) => self.put_event(change.id, event, series),
            (Kind::Calendar, None) => {
                self.close(change.id);
                Ok(())
            }
            (Kind::Calendar, Some(calendar)) => self.put_calendar(change.id, calendar),
        }
    }

    /// Lets the rooms follow a calendar that is put, of a resource or not. Takes memory for a room.
    pub fn put_calendar(&mut self, number: u64, calendar: &Tree) -> Result<(), AllocError>
        ensures ok { OnOk result (self.new.rooms ≡ rooms_by calendar_kind number (Some calendar.now) None self.old.rooms) }
        ensures kept { self.new.kept ≡ self.old.kept }
    {
        if calendar.text_at("resourceZone").is_some() {
            self.open(number)
        } else {
            Ok(())
        }
    }

    /// Lets the rooms be those that are gone back to. Takes no memory.
    pub fn keep(&mut self)
        ensures { self.new ≡ record { rooms = self.old.rooms; kept = self.old.rooms } }
    {
        drop_closed(&mut self.slots);
        keep_all(&mut self.slots);
        self.kept = self.slots.len();
    }

    /// Goes back to the rooms that were kept. Takes no memory.
    pub fn undo(&mut self)
        ensures { self.new ≡ record { rooms = self.old.kept; kept = self.old.kept } }
    {
        self.slots.truncate(self.kept);
        undo_all(&mut self.slots);
    }

    // Gives a calendar a room, where it has none.
    fn open(&mut self, calendar: u64) -> Result<(), AllocError>
        ensures ok { OnOk result (self.new.rooms ≡ with_room calendar self.old.rooms) }
        ensures kept { self.new.kept ≡ self.old.kept }
    {
        if slot_of(&self.slots, calendar).is_some() {
            return Ok(());
        }
        let room = Room::new(self.alloc);
        self.slots.push(Slot {
            calendar,
            room,
            live: true,
        })?;
        Ok(())
    }

    // Takes the room of a calendar away.
    fn close(&mut self, calendar: u64)
        ensures rooms { self.new.rooms ≡ without_room calendar self.old.rooms }
        ensures kept { self.new.kept ≡ self.old.kept }
    {
        close(&mut self.slots, calendar);
    }

    // Takes out the bookings of an event.
    fn retire(&mut self, event: u64)
        ensures rooms { self.new.rooms ≡ map (λ r. record { calendar = r.calendar; bookings = without_booking event r.bookings }) self.old.rooms }
        ensures kept { self.new.kept ≡ self.old.kept }
    {
        retire_in_all(&mut self.slots, event);
    }

    /// Lets the rooms follow an event of this series that is put: it is booked anew, in the rooms of its calendars. After running out of memory some of its bookings may be
    /// there and others not; those that are gone back to stay.
    pub fn put_event(
        &mut self,
        number: u64,
        event: &Tree,
        series: Option<&Series>,
    ) -> Result<(), AllocError>
        requires { MayChange self.old.rooms event_kind (Some event.now) (option_map (λ s. s.now) series) }
        ensures ok { OnOk result (self.new.rooms ≡ map (booked_again number (Some event.now) (option_map (λ s. s.now) series.entry)) self.old.rooms) }
        ensures kept { self.new.kept ≡ self.old.kept }
    {
        retire_in_all(&mut self.slots, number);
        if !is_in_any(&self.slots, event) {
            return Ok(());
        }
        match series {
            Some(series) => book_in_all(&mut self.slots, number, event, series),
            None => unreachable!(),
        }
    }
}
