//! A resource and its bookings.
ghost use Rattle.std.specs.Prelude.{◌≡◌, [], length, Some, None, IsSome, OnOk, OnErr, MatchOption, IfNone, option_map};
ghost use Rattle.spec_series.specs.Lengths.{IsWeekLong};
ghost use Rattle.rule_expand.specs.Least.{IsLeastOf};
ghost use Rattle.spec_bookings.specs.Bookings.{is_booked, without_booking, with_booking, but};
ghost use Rattle.spec_bookings.specs.Clashes.{IsClash, IsClear, first_clash, second_of};

use crate::check::{check, check_with};
use crate::places::{count_but, place_for, place_of};
use crate::prepared_booking::PreparedBooking;
use crate::round::{Undo, book_at, retire_at, take_all_back};
use residue_clash::{Prepared, Timetable};
use spec_bookings::clash::Clash;
use spec_series::series::Series;
use std::alloc::{AllocError, Global};
use std::marker::Model;

/// The bookings of a resource, in order of the numbers of their events, as they are and as they were at the last `keep`.
///
/// A series that `reserve` made ready is booked without memory, and so is all that was done since the last `keep` taken back.
#[derive(Drop)]
pub struct Room {
    alloc: Global,
    booked: Vec<PreparedBooking>,
    steps: Vec<Undo>,
    waiting: Option<Prepared>,
}

impl Model for Room {
    ghost use Rattle.std.specs.Prelude.{◌+◌, ◌≤◌, vec_len, vec_capacity};
    ghost use Rattle.resource_book.specs.RoomView.{RoomView};
    ghost use Rattle.resource_book.specs.Rounds.{before_steps, AreWaysBack, places_for};

    ghost Value = { RoomView };

    ghost view = { λ r. record { bookings = r.booked.items; kept = before_steps r.steps.items r.booked.items; ready = r.waiting } };

    ghost invariant = { λ r. record {
      ways_back : AreWaysBack r.steps.items r.booked.items;
      places : vec_len r.booked + vec_len r.steps + places_for r.waiting ≤ vec_capacity r.booked;
      steps_places : vec_len r.booked + vec_len r.steps + places_for r.waiting ≤ vec_capacity r.steps;
    } };
}

impl Room {
    /// A resource without bookings. Takes no memory.
    pub fn new(alloc: Global) -> Room
        ensures { result ≡ record { bookings = []; kept = []; ready = None } }
    {
        Room {
            alloc,
            booked: Vec::new(alloc),
            steps: Vec::new(alloc),
            waiting: None,
        }
    }

    /// How many bookings there are but the excepted one. Takes no memory.
    pub fn count(&self, except: Option<u64>) -> usize
        ensures { result ≡ length (but except self.now.bookings) }
    {
        count_but(&self.booked, except)
    }

    /// The first wall second that an occurrence of the series covers and that a different occurrence covers too, of the series or
    /// of a booking but the excepted one, over all days without end; or `None` where there is no such second. Takes no memory.
    /// No occurrence of the series lasts longer than 7 days.
    pub fn check(&self, except: Option<u64>, series: &Series) -> Option<Clash>
        requires week { IsWeekLong series.now }
        ensures exact { result ≡ first_clash (but except self.now.bookings) series.now }
        ensures clear { IfNone result (IsClear (but except self.now.bookings) series.now) }
        ensures least { IsLeastOf (IsClash (but except self.now.bookings) series.now) (option_map second_of result) }
    {
        check(&self.booked, except, series)
    }

    /// What `check` gives of a series with a timetable, which serves where more than this room is checked or maps are at hand. Takes no memory.
    pub fn check_by(&self, except: Option<u64>, series: &Timetable<'_>) -> Option<Clash>
        ensures exact { result ≡ first_clash (but except self.now.bookings) series.now }
        ensures clear { IfNone result (IsClear (but except self.now.bookings) series.now) }
        ensures least { IsLeastOf (IsClash (but except self.now.bookings) series.now) (option_map second_of result) }
    {
        check_with(&self.booked, except, series)
    }

    /// Makes a series ready, so that its booking takes no memory, and works out what checks want of it. After running out of memory none is
    /// ready.
    /// No occurrence of the series lasts longer than 7 days.
    pub fn reserve(&mut self, series: &Series) -> Result<(), AllocError>
        requires week { IsWeekLong series.now }
        ensures bookings { self.new.bookings ≡ self.old.bookings }
        ensures kept { self.new.kept ≡ self.old.kept }
        ensures ok { OnOk result (self.new.ready ≡ Some series.now) }
        ensures err { OnErr result (self.new.ready ≡ None) }
    {
        self.waiting = None;
        let prepared = Prepared::of(self.alloc, series)?;
        let places = self.steps.len() + 2;
        self.booked.reserve(places)?;
        let places = self.booked.len() + 2;
        self.steps.reserve(places)?;
        self.waiting = Some(prepared);
        Ok(())
    }

    /// Books the series that is ready for the event of a number. Takes no memory.
    pub fn book(&mut self, number: u64)
        requires { IsSome self.old.ready }
        ensures { MatchOption self.old.ready ⊥ (λ s. self.new ≡ record { bookings = with_booking number s self.old.bookings; kept = self.old.kept; ready = None }) }
    {
        match self.waiting.take() {
            Some(series) => {
                let index = place_for(&self.booked, number);
                book_at(
                    &mut self.booked,
                    &mut self.steps,
                    index,
                    PreparedBooking::new(number, series),
                );
            }
            None => unreachable!(),
        }
    }

    /// Takes out the booking of an event, and tells whether there was one. Takes no memory.
    pub fn retire(&mut self, number: u64) -> bool
        ensures found { result ≡ is_booked number self.old.bookings }
        ensures gone { self.new ≡ record { bookings = without_booking number self.old.bookings; kept = self.old.kept; ready = None } }
    {
        self.waiting = None;
        match place_of(&self.booked, number) {
            Some(index) => {
                retire_at(&mut self.booked, &mut self.steps, index);
                true
            }
            None => false,
        }
    }

    /// Lets the bookings be those that `undo` goes back to. Takes no memory.
    pub fn keep(&mut self)
        ensures { self.new ≡ record { bookings = self.old.bookings; kept = self.old.bookings; ready = None } }
    {
        self.waiting = None;
        self.steps.clear();
    }

    /// Takes back all that was done since the last `keep`, or since the beginning. Takes no memory.
    pub fn undo(&mut self)
        ensures { self.new ≡ record { bookings = self.old.kept; kept = self.old.kept; ready = None } }
    {
        self.waiting = None;
        take_all_back(&mut self.booked, &mut self.steps);
    }
}
