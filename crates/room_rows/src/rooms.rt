//! Rows of rooms with a proposed series, and how it clashes.
use crate::series::series_in;
use resource_book::Room;
use spec_bookings::clash::Clash;
use spec_json::tree::Tree;
use std::alloc::{AllocError, Global};
use std::fmt::Write;

/// A room with the series at `bookings`, which are numbered from 1, or none where one may not be booked.
pub fn room_in(alloc: Global, asked: &Tree) -> Result<Option<Room>, AllocError> {
    let mut room = Room::new(alloc);
    if let Some(Tree::List(list)) = asked.get("bookings") {
        let mut number = 0u64;
        for item in list.items() {
            let Some(series) = series_in(alloc, item)? else {
                return Ok(None);
            };
            room.reserve(&series)?;
            number = number.saturating_add(1);
            room.book(number);
        }
    }
    Ok(Some(room))
}

/// The clash of the series at `proposed` with the room, in which the booking at `except` is excepted.
pub fn told(alloc: Global, asked: &Tree, times: u32) -> Result<String, AllocError> {
    let Some(room) = room_in(alloc, asked)? else {
        return String::from_str(alloc, "a booking may not be booked");
    };
    let Some(proposed) = asked.get("proposed") else {
        return String::from_str(alloc, "the row proposes nothing");
    };
    let Some(series) = series_in(alloc, proposed)? else {
        return String::from_str(alloc, "what is proposed may not be booked");
    };
    let except = match asked.get("except") {
        Some(Tree::Whole(number)) => u64::try_from(number.get()).ok(),
        _ => None,
    };
    let mut found = room.check(except, &series);
    for _ in 1..times {
        found = room.check(except, &series);
    }
    text_of(alloc, found)
}

/// The day, the second and the event of a clash.
fn text_of(alloc: Global, found: Option<Clash>) -> Result<String, AllocError> {
    let mut text = String::new(alloc);
    match found {
        Some(clash) => {
            write!(&mut text, "day {} second {} with ", clash.day, clash.second)?;
            match clash.with {
                Some(number) => write!(&mut text, "E{number}")?,
                None => text.push_str("itself")?,
            }
        }
        None => text.push_str("none")?,
    }
    Ok(text)
}
