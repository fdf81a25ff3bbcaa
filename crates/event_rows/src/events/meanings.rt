//! Rows of events: what they mean, or the names of all that is bad in them.
use row_table::answers::{list_of, local_time, texts_of, whole};
use row_table::plain_event::over_plain;
use single_event::event::Event;
use single_event::read::{EventError, read_event};
use spec_json::tree::Tree;
use std::alloc::{AllocError, Global};
use zone_table::Zones;

/// What an event means, or the names of all bad properties in a list.
pub fn read(alloc: Global, zones: &Zones, event: &Tree) -> Result<Tree, AllocError> {
    match read_event(alloc, event, zones) {
        Ok(event) => meaning(alloc, &event),
        Err(EventError::BadEvent { properties }) => texts_of(alloc, properties.items()),
        Err(EventError::NoMemory) => Err(AllocError),
    }
}

/// The same of the plain event with these members laid over it, none where they are no object.
pub fn read_over(alloc: Global, zones: &Zones, members: Tree) -> Result<Option<Tree>, AllocError> {
    match over_plain(alloc, members)? {
        Some(event) => Ok(Some(read(alloc, zones, &event)?)),
        None => Ok(None),
    }
}

fn meaning(alloc: Global, event: &Event) -> Result<Tree, AllocError> {
    let length = event.length();
    let members = vec![in alloc;
        ("calendars", list_of(alloc, event.calendars())?),
        ("days", whole(length.days)),
        ("occupying", Tree::Truth(event.is_occupying())),
        ("seconds", whole(length.seconds)),
        ("start", local_time(alloc, event.start())?),
        ("timeZone", zone_text(event)?),
    ]?;
    Tree::object(alloc, members)
}

fn zone_text(event: &Event) -> Result<Tree, AllocError> {
    match event.time_zone() {
        Some(zone) => Ok(Tree::Text(zone.copy()?)),
        None => Ok(Tree::Null),
    }
}
