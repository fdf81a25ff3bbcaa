//! Steps that change bookings, and their ways back, for which memory is taken beforehand.
ghost use Rattle.std.specs.Prelude.{◌≡◌, ◌+◌, ◌<◌, ◌≤◌, [], insert, remove, vec_len, vec_capacity};
ghost use Rattle.resource_book.specs.Rounds.{before_step, before_steps, IsWayBack, AreWaysBack};

use crate::prepared_booking::PreparedBooking;

/// The way back from a step.
#[derive(Drop)]
pub enum Undo {
    /// The booking that stood at this place was taken out.
    Retired {
        index: usize,
        booking: PreparedBooking,
    },
    /// The booking at this place was put in.
    Booked {
        index: usize,
    },
}

// Takes back one step.
fn take_back(bookings: &mut Vec<PreparedBooking>, step: Undo)
    requires fits { IsWayBack step bookings.old.items }
    requires place { vec_len bookings.old < vec_capacity bookings.old }
    ensures items { bookings.new.items ≡ before_step step bookings.old.items }
    ensures len { vec_len bookings.new ≤ vec_len bookings.old + 1 }
    ensures capacity { vec_capacity bookings.old ≤ vec_capacity bookings.new }
{
    match step {
        Undo::Retired { index, booking } => match bookings.insert(index, booking) {
            Ok(()) => {}
            Err(_) => unreachable!(),
        },
        Undo::Booked { index } => {
            let _booking = bookings.remove(index);
        }
    }
}

/// Takes back all steps, the last first. Takes no memory.
pub fn take_all_back(bookings: &mut Vec<PreparedBooking>, steps: &mut Vec<Undo>)
    requires fits { AreWaysBack steps.old.items bookings.old.items }
    requires places { vec_len bookings.old + vec_len steps.old ≤ vec_capacity bookings.old }
    ensures items { bookings.new.items ≡ before_steps steps.old.items bookings.old.items }
    ensures steps { steps.new.items ≡ [] }
    ensures len { vec_len bookings.new ≤ vec_len bookings.old + vec_len steps.old }
    ensures capacity { vec_capacity bookings.old ≤ vec_capacity bookings.new }
    ensures steps_capacity { vec_capacity steps.new ≡ vec_capacity steps.old }
{
    while let Some(step) = steps.pop() {
        take_back(bookings, step);
    }
}

/// Takes out the booking at a place, and notes the way back. Takes no memory.
pub fn retire_at(bookings: &mut Vec<PreparedBooking>, steps: &mut Vec<Undo>, index: usize)
    requires index { index < vec_len bookings.old }
    requires fits { AreWaysBack steps.old.items bookings.old.items }
    requires place { vec_len steps.old < vec_capacity steps.old }
    ensures items { bookings.new.items ≡ remove bookings.old.items index }
    ensures fits { AreWaysBack steps.new.items bookings.new.items }
    ensures before { before_steps steps.new.items bookings.new.items ≡ before_steps steps.old.items bookings.old.items }
    ensures len { vec_len bookings.new + 1 ≡ vec_len bookings.old }
    ensures steps_len { vec_len steps.new ≡ vec_len steps.old + 1 }
    ensures capacity { vec_capacity bookings.new ≡ vec_capacity bookings.old }
    ensures steps_capacity { vec_capacity steps.old ≤ vec_capacity steps.new }
{
    let booking = bookings.remove(index);
    match steps.push(Undo::Retired { index, booking }) {
        Ok(()) => {}
        Err(_) => unreachable!(),
    }
}

/// Puts a booking in at a place, and notes the way back. Takes no memory.
pub fn book_at(
    bookings: &mut Vec<PreparedBooking>,
    steps: &mut Vec<Undo>,
    index: usize,
    booking: PreparedBooking,
)
    requires index { index ≤ vec_len bookings.old }
    requires fits { AreWaysBack steps.old.items bookings.old.items }
    requires place { vec_len bookings.old < vec_capacity bookings.old }
    requires steps_place { vec_len steps.old < vec_capacity steps.old }
    ensures items { bookings.new.items ≡ insert bookings.old.items index booking }
    ensures fits { AreWaysBack steps.new.items bookings.new.items }
    ensures before { before_steps steps.new.items bookings.new.items ≡ before_steps steps.old.items bookings.old.items }
    ensures len { vec_len bookings.new ≡ vec_len bookings.old + 1 }
    ensures steps_len { vec_len steps.new ≡ vec_len steps.old + 1 }
    ensures capacity { vec_capacity bookings.old ≤ vec_capacity bookings.new }
    ensures steps_capacity { vec_capacity steps.old ≤ vec_capacity steps.new }
{
    match bookings.insert(index, booking) {
        Ok(()) => {}
        Err(_) => unreachable!(),
    }
    match steps.push(Undo::Booked { index }) {
        Ok(()) => {}
        Err(_) => unreachable!(),
    }
}
