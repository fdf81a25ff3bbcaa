//! The calendars of an event.
ghost use Rattle.std.specs.Prelude.{◌≡◌, ◌==◌, [], IfOk, map};
ghost use Rattle.std.specs.List.{list_any};
ghost use Rattle.spec_events.specs.Events.{calendars_among, calendars_of, names_calendar};
ghost use Rattle.spec_json.specs.TreeData.{data_of, pair_of};

use spec_history::entry::Kind;
use spec_json::tree::{Member, Tree};
use std::alloc::{AllocError, Global};
use time_text::read_object_id;

/// The numbers of the calendars whose ids are keys of `calendarIds`, in byte order of the ids. Takes memory for them.
pub fn calendars_of(alloc: Global, tree: &Tree) -> Result<Vec<u64>, AllocError>
    ensures { IfOk result (λ v. v.items ≡ calendars_of (data_of tree.now)) }
{
    match tree.object_at("calendarIds") {
        Some(object) => calendars_among(alloc, object.members()),
        None => Ok(Vec::new(alloc)),
    }
}

fn calendars_among(alloc: Global, members: &[Member]) -> Result<Vec<u64>, AllocError>
    ensures { IfOk result (λ v. v.items ≡ calendars_among (map pair_of members.now)) }
{
    let mut calendars = Vec::new(alloc);
    for member in members {
        if let Some(number) = read_object_id(Kind::Calendar, member.key.as_str().as_bytes()) {
            calendars.push(number)?;
        }
    }
    Ok(calendars)
}

/// Whether the id of the calendar of this number is a key of `calendarIds`. Takes no memory.
pub fn names_calendar(tree: &Tree, number: u64) -> bool
    ensures { result ≡ names_calendar number (data_of tree.now) }
{
    match tree.object_at("calendarIds") {
        Some(object) => has_calendar(object.members(), number),
        None => false,
    }
}

fn has_calendar(members: &[Member], number: u64) -> bool
    ensures { result ≡ list_any (λ n. n == number) (calendars_among (map pair_of members.now)) }
{
    for member in members {
        if let Some(calendar) = read_object_id(Kind::Calendar, member.key.as_str().as_bytes()) {
            if calendar == number {
                return true;
            }
        }
    }
    false
}
