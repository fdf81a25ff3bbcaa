//! An event.
ghost use Rattle.std.specs.Prelude.{◌≡◌, option_map, true};
ghost use Rattle.spec_events.specs.Values.{is_short_length, is_showing};

use participants::people::People;
use spec_json::text::Text;
use spec_time::length::Length;
use spec_time::wall::Wall;
use std::marker::Model;

/// What an event says of when and whose it is. Contracts see its properties.
#[derive(Drop)]
pub struct Event {
    pub(crate) start: Wall,
    pub(crate) length: Length,
    pub(crate) time_zone: Option<Text>,
    pub(crate) is_occupying: bool,
    pub(crate) calendars: Vec<u64>,
    pub(crate) people: People,
}

impl Model for Event {
    ghost use Rattle.spec_events.specs.Events.{EventProperties};

    ghost Value = { EventProperties };

    ghost use Rattle.std.specs.Prelude.{◌≡◌, true};
    ghost use Rattle.spec_events.specs.Values.{is_short_length, is_showing};

    ghost view = { λ a. record { start = a.start; length = a.length; time_zone = a.time_zone; is_occupying = a.is_occupying; calendars = a.calendars.items; people = a.people } };

    ghost invariant = { λ a. (is_showing a.start ≡ true) × (is_short_length a.length ≡ true) };
}

impl Event {
    /// The wall second at which the event starts, in the years 1 to 9998. Takes no memory.
    pub fn start(&self) -> Wall
        ensures value { result ≡ self.now.start }
        ensures showing { is_showing result ≡ true }
    {
        self.start
    }

    /// How long it lasts, 366 days at most. Takes no memory.
    pub fn length(&self) -> Length
        ensures value { result ≡ self.now.length }
        ensures short { is_short_length result ≡ true }
    {
        self.length
    }

    /// The name of its zone, none where it is floating. Takes no memory.
    pub fn time_zone(&self) -> Option<&Text>
        ensures { option_map (λ zone. zone.now) result ≡ self.now.time_zone }
    {
        self.time_zone.as_ref()
    }

    /// Whether it takes up the time: it isn't cancelled, and isn't marked as free. Takes no memory.
    pub fn is_occupying(&self) -> bool
        ensures { result ≡ self.now.is_occupying }
    {
        self.is_occupying
    }

    /// The numbers of its calendars, in byte order of their ids. Takes no memory.
    pub fn calendars(&self) -> &[u64]
        ensures { result.now ≡ self.now.calendars }
    {
        &self.calendars
    }

    /// Its participants. Takes no memory.
    pub fn people(&self) -> &People
        ensures { result.now ≡ self.now.people }
    {
        &self.people
    }
}
