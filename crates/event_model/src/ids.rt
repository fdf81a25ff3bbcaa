//! Synthetic ids (draft JMAP for Calendars).
ghost use Rattle.std.specs.Prelude.{◌≡◌, ◌++◌, ◌&&◌, ◌-◌, ◌==◌, ◌≤◌, IfOk, IfSome, OnOk, filter, length, nat_le, slice_index, string_bytes, true};
ghost use Rattle.std.specs.Str.{IsAscii};
ghost use Rattle.spec_history.specs.ObjectId.{object_number};
ghost use Rattle.spec_history.specs.declared.entry.Kind.TheVariants.{Event};
ghost use Rattle.spec_recurrence.specs.OccurrenceIds.{both_of, compact_in, event_part, time_part, is_no_separator, occurrence_id_in, occurrence_id_text, separated};
ghost use Rattle.spec_time.specs.LocalTimes.{local_in};
ghost use Rattle.spec_time.specs.Walls.{is_in_years};

use spec_history::entry::Kind;
use spec_json::text::Text;
use spec_time::wall::Wall;
use std::alloc::{AllocError, Global};
use time_text::{local_text, read_local, read_object_id};

/// The number of the event and the recurrence id that a synthetic id names: an event's id, `_`, and the recurrence id as
/// `YYYYMMDDThhmmss`.
///
/// None where the text is anything else. The recurrence id lies in the years 0 to 9999. Takes no memory.
pub fn read_occurrence_id(id: &[u8]) -> Option<(u64, Wall)>
    ensures value { result ≡ occurrence_id_in id.now }
    ensures years { IfSome result (λ q. is_in_years q.1 ≡ true) }
{
    if has_mark(id) { named_by(id) } else { None }
}

// Whether a `_` stands before the last 15 bytes.
fn has_mark(id: &[u8]) -> bool
    ensures { result ≡ (nat_le 16 (length id.now) && (slice_index id.now (length id.now - 16) == 95)) }
{
    id.len() >= 16 && id[id.len() - 16] == b'_'
}

fn named_by(id: &[u8]) -> Option<(u64, Wall)>
    requires { 16 ≤ length id.now }
    ensures value { result ≡ both_of (object_number Event (event_part id.now)) (compact_in (time_part id.now)) }
    ensures years { IfSome result (λ q. is_in_years q.1 ≡ true) }
{
    both_of(event_number(id), recurrence_id(id))
}

fn event_number(id: &[u8]) -> Option<u64>
    requires { 16 ≤ length id.now }
    ensures { result ≡ object_number Event (event_part id.now) }
{
    read_object_id(Kind::Event, &id[..id.len() - 16])
}

fn recurrence_id(id: &[u8]) -> Option<Wall>
    requires { 16 ≤ length id.now }
    ensures value { result ≡ compact_in (time_part id.now) }
    ensures years { IfSome result (λ w. is_in_years w ≡ true) }
{
    compact_in(&id[id.len() - 15..])
}

fn both_of(number: Option<u64>, wall: Option<Wall>) -> Option<(u64, Wall)>
    requires { IfSome wall (λ w. is_in_years w ≡ true) }
    ensures value { result ≡ both_of number wall }
    ensures years { IfSome result (λ q. is_in_years q.1 ≡ true) }
{
    match (number, wall) {
        (Some(number), Some(wall)) => Some((number, wall)),
        _ => None,
    }
}

fn compact_in(time: &[u8]) -> Option<Wall>
    ensures value { result ≡ compact_in time.now }
    ensures years { IfSome result (λ w. is_in_years w ≡ true) }
{
    if time.len() == 15 {
        read_separated(time)
    } else {
        None
    }
}

// Reads `YYYYMMDDThhmmss` as it is with its separators.
fn read_separated(t: &[u8]) -> Option<Wall>
    requires { length t.now ≡ 15 }
    ensures value { result ≡ local_in (separated t.now) }
    ensures years { IfSome result (λ w. is_in_years w ≡ true) }
{
    let local = [
        t[0], t[1], t[2], t[3], b'-', t[4], t[5], b'-', t[6], t[7], t[8], t[9], t[10], b':', t[11],
        t[12], b':', t[13], t[14],
    ];
    read_local(&local)
}

/// The synthetic id of the occurrence of an event with a recurrence id in the years 0 to 9999.
pub fn occurrence_id_text(alloc: Global, number: u64, wall: Wall) -> Result<Text, AllocError>
    requires { is_in_years wall ≡ true }
    ensures { IfOk result (λ t. t ≡ occurrence_id_text number wall) }
{
    let mut id = format!(in alloc; "E{number}_")?;
    let local = local_text(alloc, wall)?;
    push_compact(&mut id, local.as_str().as_bytes())?;
    Text::from_string(id)
}

fn push_compact(id: &mut String, local: &[u8]) -> Result<(), AllocError>
    requires { IsAscii local.now }
    ensures { OnOk result (string_bytes id.new ≡ string_bytes id.old ++ filter is_no_separator local.now) }
{
    for byte in local {
        if is_no_separator(*byte) {
            id.push(char::from(*byte))?;
        }
    }
    Ok(())
}

fn is_no_separator(byte: u8) -> bool
    ensures { result ≡ is_no_separator byte }
{
    byte != b'-' && byte != b':'
}
