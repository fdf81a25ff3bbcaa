//! Reads events.
ghost use Rattle.std.specs.Prelude.{◌≡◌, [], IfErr, IfOk, OnOk, true};
ghost use Rattle.single_event.specs.Reports.{Reports};
ghost use Rattle.single_event.specs.declared.read.EventError.TheVariants.{NoMemory};
ghost use Rattle.spec_events.specs.Events.{bad_event_properties, event_in, length_in, participants_of, start_in};
ghost use Rattle.spec_events.specs.Values.{is_short_length, is_showing};
ghost use Rattle.spec_json.specs.TreeData.{data_of};

use crate::calendars::calendars_of;
use crate::event::Event;
use crate::parts::{given_length, is_occupying, start_of};
use crate::table::EventTable;
use participants::people::People;
use participants::read::people_in;
use property_table::table::failing_names;
use spec_events::values::copy_at;
use spec_json::lists::Texts;
use spec_json::text::Text;
use spec_json::tree::Tree;
use spec_time::length::Length;
use spec_time::wall::Wall;
use std::alloc::{AllocError, Global};
use zone_table::Zones;

/// Why there is no event.
#[derive(Drop)]
pub enum EventError {
    /// The object has properties that an event may not have, or not with these values, or lacks some.
    BadEvent {
        /// Their names, in byte order.
        properties: Texts,
    },
    /// There was no memory.
    NoMemory,
}

impl From<AllocError> for EventError {
    ghost from_gives = { λ _ error. error ≡ NoMemory };

    fn from(_: AllocError) -> Self {
        EventError::NoMemory
    }
}

/// The names of all properties that an event may not have so, in byte order. A member that is null counts as left out.
///
/// Takes memory for the names.
pub fn bad_event_names(alloc: Global, tree: &Tree, zones: &Zones) -> Result<Vec<Text>, AllocError>
    ensures { IfOk result (λ v. v.items ≡ bad_event_properties zones.now (data_of tree.now)) }
{
    failing_names(alloc, &EventTable { alloc, zones }, tree)
}

/// Reads an event, in which a member that is null counts as left out.
///
/// `BadEvent` names all properties that are bad. Takes memory for a copy of some texts, or for the names.
pub fn read_event(alloc: Global, tree: &Tree, zones: &Zones) -> Result<Event, EventError>
    ensures value { IfOk result (λ e. e ≡ event_in (data_of tree.now)) }
    ensures valid { OnOk result (bad_event_properties zones.now (data_of tree.now) ≡ []) }
    ensures err { IfErr result (λ error. Reports error (bad_event_properties zones.now (data_of tree.now))) }
{
    let names = bad_event_names(alloc, tree, zones)?;
    if !names.is_empty() {
        return Err(EventError::BadEvent {
            properties: Texts::new(names),
        });
    }
    Ok(event(alloc, tree, zones)?)
}

// What an object means that has no bad properties.
fn event(alloc: Global, tree: &Tree, zones: &Zones) -> Result<Event, AllocError>
    requires { bad_event_properties zones.now (data_of tree.now) ≡ [] }
    ensures { IfOk result (λ e. e ≡ event_in (data_of tree.now)) }
{
    Ok(Event {
        start: start(tree, zones),
        length: length(tree, zones),
        time_zone: copy_at(tree, "timeZone")?,
        is_occupying: is_occupying(tree),
        calendars: calendars_of(alloc, tree)?,
        people: people(alloc, tree)?,
    })
}

#[tactic(auto, using(crate::proofs::TimeLemmas::start_shows))]
fn start(tree: &Tree, zones: &Zones) -> Wall
    requires { bad_event_properties zones.now (data_of tree.now) ≡ [] }
    ensures value { result ≡ start_in (data_of tree.now) }
    ensures showing { is_showing result ≡ true }
{
    let _ordered = tree.members_in();
    start_of(tree)
}

#[tactic(auto, using(crate::proofs::TimeLemmas::length_is_short))]
fn length(tree: &Tree, zones: &Zones) -> Length
    requires { bad_event_properties zones.now (data_of tree.now) ≡ [] }
    ensures value { result ≡ length_in (data_of tree.now) }
    ensures short { is_short_length result ≡ true }
{
    let _ordered = tree.members_in();
    match given_length(tree) {
        Some(length) => length,
        None => Length {
            days: 0,
            seconds: 0,
        },
    }
}

fn people(alloc: Global, tree: &Tree) -> Result<People, AllocError>
    ensures { IfOk result (λ people. people ≡ participants_of (data_of tree.now)) }
{
    match tree.get("participants") {
        Some(participants) => people_in(alloc, participants),
        None => people_in(alloc, &Tree::Null),
    }
}
