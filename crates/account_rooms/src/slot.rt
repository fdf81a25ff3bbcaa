//! A resource calendar with its room, in a list of such.
ghost use Rattle.std.specs.Prelude.{◌≡◌, IfNone, IfOk, IfSome, OnOk, false, filter, map, true, vec_len};
ghost use Rattle.std.specs.List.{list_any};
ghost use Rattle.account_rooms.specs.Rooms.{bookings_in, has_room};
ghost use Rattle.account_rooms.specs.Slots.{booked, closed, kept_slot, retired, room_kept, rooms_kept, rooms_now, is_booked_by, undone};
ghost use Rattle.spec_json.specs.TreeData.{data_of};
ghost use Rattle.spec_series.specs.Lengths.{IsWeekLong};

use resource_book::Room;
use single_event::calendars::names_calendar;
use spec_json::tree::Tree;
use spec_series::series::Series;
use std::alloc::{AllocError, Global};

/// A resource calendar with its room.
#[derive(Drop)]
pub struct Slot {
    /// The number of the calendar.
    pub calendar: u64,
    /// Its bookings.
    pub room: Room,
    /// Whether the calendar is live, so that it wasn't removed since the rooms were kept.
    pub live: bool,
}

impl Slot {
    fn retire(&mut self, event: u64)
        ensures { self.new ≡ retired event self.old }
    {
        let _was_booked = self.room.retire(event);
    }

    fn close(&mut self, calendar: u64)
        ensures { self.new ≡ closed calendar self.old }
    {
        if self.calendar == calendar {
            self.live = false;
        }
    }

    fn keep(&mut self)
        ensures { self.new ≡ kept_slot self.old }
    {
        self.room.keep();
    }

    fn undo(&mut self)
        ensures { self.new ≡ undone self.old }
    {
        self.room.undo();
        self.live = true;
    }

    // After running out of memory the event isn't booked.
    fn book(&mut self, number: u64, event: &Tree, series: &Series) -> Result<(), AllocError>
        requires { IsWeekLong series.now }
        ensures ok { OnOk result (self.new ≡ booked number (data_of event.now) series.now self.old) }
        ensures kept { room_kept self.new ≡ room_kept self.old }
    {
        if self.live && names_calendar(event, self.calendar) {
            self.room.reserve(series)?;
            self.room.book(number);
        }
        Ok(())
    }
}

/// Takes out the bookings of an event. Takes no memory.
pub fn retire_in_all(slots: &mut Vec<Slot>, event: u64)
    ensures { slots.new.items ≡ map (retired event) slots.old.items }
{
    for slot in slots.iter_mut() {
        slot.retire(event);
    }
}

/// Takes the room of a calendar away, until it is taken back. Takes no memory.
pub fn close(slots: &mut Vec<Slot>, calendar: u64)
    ensures { slots.new.items ≡ map (closed calendar) slots.old.items }
{
    for slot in slots.iter_mut() {
        slot.close(calendar);
    }
}

/// Lets the rooms be those that are gone back to. Takes no memory.
pub fn keep_all(slots: &mut Vec<Slot>)
    ensures { slots.new.items ≡ map kept_slot slots.old.items }
{
    for slot in slots.iter_mut() {
        slot.keep();
    }
}

/// Goes back to the rooms that were kept. Takes no memory.
pub fn undo_all(slots: &mut Vec<Slot>)
    ensures { slots.new.items ≡ map undone slots.old.items }
{
    for slot in slots.iter_mut() {
        slot.undo();
    }
}

/// Books the series of an event in the rooms of its calendars. After running out of memory some of them may have it.
pub fn book_in_all(
    slots: &mut Vec<Slot>,
    number: u64,
    event: &Tree,
    series: &Series,
) -> Result<(), AllocError>
    requires { IsWeekLong series.now }
    ensures ok { OnOk result (slots.new.items ≡ map (booked number (data_of event.now) series.now) slots.old.items) }
    ensures kept { rooms_kept slots.new.items ≡ rooms_kept slots.old.items }
    ensures len { vec_len slots.new ≡ vec_len slots.old }
{
    let mut i = 0;
    while i < slots.len() {
        slots[i].book(number, event, series)?;
        i += 1;
    }
    Ok(())
}

/// Whether an event is in a calendar that has a room. Takes no memory.
pub fn is_in_any(slots: &[Slot], event: &Tree) -> bool
    ensures { result ≡ list_any (is_booked_by (data_of event.now)) slots.now }
{
    slots
        .iter()
        .any(|slot| slot.live && names_calendar(event, slot.calendar))
}

/// The slot of a calendar that is live. Takes no memory.
pub fn slot_of(slots: &[Slot], calendar: u64) -> Option<&Slot>
    ensures none { IfNone result (has_room calendar (rooms_now slots.now) ≡ false) }
    ensures some { IfSome result (λ s. (has_room calendar (rooms_now slots.now) ≡ true) × (bookings_in calendar (rooms_now slots.now) ≡ s.now.room.bookings)) }
{
    for slot in slots {
        if slot.live && slot.calendar == calendar {
            return Some(slot);
        }
    }
    None
}

/// The numbers of the calendars that are live. Takes memory for the list.
pub fn calendars_of(alloc: Global, slots: &[Slot]) -> Result<Vec<u64>, AllocError>
    ensures { IfOk result (λ v. v.items ≡ map (λ r. r.calendar) (rooms_now slots.now)) }
{
    let mut calendars = Vec::new(alloc);
    for slot in slots {
        if slot.live {
            calendars.push(slot.calendar)?;
        }
    }
    Ok(calendars)
}

/// Leaves out the rooms of calendars that were removed. Takes no memory.
pub fn drop_closed(slots: &mut Vec<Slot>)
    ensures { slots.new.items ≡ filter (λ s. s.live) slots.old.items }
{
    slots.retain(|slot| slot.live);
}
