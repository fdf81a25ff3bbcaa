//! Rows of rooms with a wish, and the first start at which it could be booked.
ghost use Rattle.std.specs.Prelude.{◌≡◌, ◌≤ℤ◌, true};
ghost use Rattle.spec_time.specs.Walls.{is_in_years};

use crate::limits::is_week;
use crate::rooms::room_in;
use crate::series::length_in;
use resource_book::Room;
use row_table::members::wall_at;
use rule_read::RulesError;
use slot_find::find;
use spec_json::tree::Tree;
use spec_slots::slot::{FoundSlot, Tried};
use spec_slots::wish::Wish;
use spec_time::wall::Wall;
use std::alloc::{AllocError, Global};
use std::fmt::Write;
use time_text::{is_in_years, local_text};

/// The slot for the wish at `seconds`, `days` and `rules` in the room, from `from` on up to but without `to`.
pub fn told(alloc: Global, asked: &Tree, times: u32) -> Result<String, AllocError> {
    let Some(room) = room_in(alloc, asked)? else {
        return String::from_str(alloc, "a booking may not be booked");
    };
    let (Some(from), Some(to)) = (wall_at(asked, "from"), wall_at(asked, "to")) else {
        return String::from_str(alloc, "the row has no ends");
    };
    let Some(wish) = wish_in(asked)? else {
        return String::from_str(alloc, "the row wishes nothing that may be booked");
    };
    if from.seconds() <= to.seconds() && is_in_years(from) && is_in_years(to) {
        found_text(alloc, &room, &wish, from, to, times)
    } else {
        String::from_str(alloc, "the ends are in no order")
    }
}

/// The wish of a row.
fn wish_in(asked: &Tree) -> Result<Option<Wish>, AllocError> {
    let length = length_in(asked);
    match asked.get("rules") {
        Some(rules) if is_week(length) => Ok(Some(Wish {
            length,
            rules: rules.copy()?,
        })),
        _ => Ok(None),
    }
}

/// What is found, so many times.
fn found_text(
    alloc: Global,
    room: &Room,
    wish: &Wish,
    from: Wall,
    to: Wall,
    times: u32,
) -> Result<String, AllocError>
    requires from { is_in_years from ≡ true }
    requires to { is_in_years to ≡ true }
    requires order { from ≤ℤ to }
{
    for _ in 1..times {
        let _found = find(alloc, room, wish, from, to);
    }
    match find(alloc, room, wish, from, to) {
        Ok(found) => text_of(alloc, &found),
        Err(RulesError::BadRules) => String::from_str(alloc, "bad rules"),
        Err(RulesError::NoMemory) => Err(AllocError),
    }
}

/// The slot, how many starts were tried before it, and the last of these with what stands against it.
fn text_of(alloc: Global, found: &FoundSlot) -> Result<String, AllocError> {
    let mut text = String::from_str(alloc, "slot ")?;
    match found.start {
        Some(start) => push_wall(alloc, &mut text, start)?,
        None => text.push_str("none")?,
    }
    let tried = found.tried.items();
    write!(&mut text, ", {} tried", tried.len())?;
    if let Some(last) = tried.last() {
        text.push_str(", the last ")?;
        push_tried(alloc, &mut text, *last)?;
    }
    Ok(text)
}

fn push_tried(alloc: Global, text: &mut String, tried: Tried) -> Result<(), AllocError> {
    push_wall(alloc, text, tried.start)?;
    let clash = tried.clash;
    write!(text, " day {} second {} with ", clash.day, clash.second)?;
    match clash.with {
        Some(number) => write!(text, "E{number}")?,
        None => text.push_str("itself")?,
    }
    Ok(())
}

fn push_wall(alloc: Global, text: &mut String, wall: Wall) -> Result<(), AllocError> {
    if is_in_years(wall) {
        text.push_str(local_text(alloc, wall)?.as_str())?;
    }
    Ok(())
}
