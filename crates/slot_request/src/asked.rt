//! What is asked for.
ghost use Rattle.std.specs.Prelude.{◌≡◌, IfOk, IfSome, Some, is_some, option_map, true};
ghost use Rattle.slot_request.specs.Shown.{frame_shown, request_shown};
ghost use Rattle.spec_events.specs.Values.{is_showing};
ghost use Rattle.spec_json.specs.TreeData.{data_of};
ghost use Rattle.spec_series.specs.RuleObjects.{rules_in};
ghost use Rattle.spec_slots.specs.Requests.{duration_asked, frame_in, id_asked, is_in_order, is_week, may_be_asked, slot_request, wall_asked};
ghost use Rattle.spec_time.specs.Walls.{is_in_years};

use crate::request::{Frame, SlotRequest};
use rule_read::{RulesError, read_rules};
use spec_calls::call::SlotArguments;
use spec_events::limits::{FIRST_START, LAST_START};
use spec_json::text::Text;
use spec_json::tree::Tree;
use spec_slots::limits::MAX_SPAN_SECONDS;
use spec_slots::wish::Wish;
use spec_time::length::Length;
use spec_time::wall::Wall;
use std::alloc::{AllocError, Global};
use time_text::{read_duration, read_id, read_local};

/// The wall seconds of 7 days, the longest that an occurrence of a booking lasts.
const WEEK: u64 = 604_800;

/// What a call asks for by its arguments, or `None` where they aren't ones that it may have.
///
/// Takes memory for the id of the calendar and for the rules.
#[tactic(auto, using(crate::proofs::AskedLemmas::asked_order, crate::proofs::AskedLemmas::asked_read))]
pub fn read_request(
    alloc: Global,
    arguments: &SlotArguments,
) -> Result<Option<SlotRequest>, AllocError>
    ensures { IfOk result (λ asked. option_map request_shown asked ≡ slot_request arguments.now) }
{
    let Some(frame) = read_frame(arguments) else {
        return Ok(None);
    };
    if !may_be_asked(alloc, &frame, &arguments.rules)? {
        return Ok(None);
    }
    Ok(Some(SlotRequest {
        calendar: frame.calendar.copy()?,
        wish: Wish {
            length: frame.length,
            rules: arguments.rules.copy()?,
        },
        from: frame.from,
        to: frame.to,
    }))
}

// Whether the ends are in order and the rules can be read. Takes memory for these until it returns.
fn may_be_asked(alloc: Global, frame: &Frame<'_>, rules: &Tree) -> Result<bool, AllocError>
    ensures { IfOk result (λ may. may ≡ may_be_asked (record { frame = frame_shown frame.now; rules = data_of rules.now })) }
{
    if is_in_order(frame.from, frame.to) {
        can_be_read(alloc, rules, frame.from)
    } else {
        Ok(false)
    }
}

// Where and when.
fn read_frame(arguments: &SlotArguments) -> Option<Frame<'_>>
    ensures { option_map frame_shown result ≡ frame_in arguments.now }
{
    Some(Frame {
        calendar: read_calendar(&arguments.calendar)?,
        length: read_length(&arguments.duration)?,
        from: read_wall(&arguments.after)?,
        to: read_wall(&arguments.before)?,
    })
}

// The text, where it is an Id.
fn read_calendar(id: &Text) -> Option<&Text>
    ensures { option_map (λ t. t.now) result ≡ id_asked id.now }
{
    if read_id(id.as_str().as_bytes()) {
        Some(id)
    } else {
        None
    }
}

fn read_length(text: &Text) -> Option<Length>
    ensures value { result ≡ duration_asked text.now }
    ensures week { IfSome result (λ length. is_week length ≡ true) }
{
    let length = read_duration(text.as_str().as_bytes())?;
    if is_week(length) { Some(length) } else { None }
}

// Whether a length is at most 7 days.
fn is_week(length: Length) -> bool
    ensures { result ≡ is_week length }
{
    length.days <= 7 && length.seconds <= WEEK && 86_400 * length.days + length.seconds <= WEEK
}

fn read_wall(text: &Text) -> Option<Wall>
    ensures value { result ≡ wall_asked text.now }
    ensures years { IfSome result (λ wall. is_in_years wall ≡ true) }
{
    let wall = read_local(text.as_str().as_bytes())?;
    if is_showing(wall) { Some(wall) } else { None }
}

fn is_showing(wall: Wall) -> bool
    ensures { result ≡ is_showing wall }
{
    FIRST_START <= wall.seconds() && wall.seconds() <= LAST_START
}

// Whether a look may go from the one to the other.
fn is_in_order(from: Wall, to: Wall) -> bool
    requires { is_in_years from ≡ true }
    ensures { result ≡ is_in_order from to }
{
    from.seconds() <= to.seconds() && to.seconds() <= from.seconds() + MAX_SPAN_SECONDS as i64
}

// Whether the rules can be read. Takes memory for them until it returns.
fn can_be_read(alloc: Global, rules: &Tree, start: Wall) -> Result<bool, AllocError>
    requires { is_in_years start ≡ true }
    ensures { IfOk result (λ yes. yes ≡ is_some (rules_in start (data_of rules.now))) }
{
    match read_rules(alloc, rules, start) {
        Ok(_) => Ok(true),
        Err(RulesError::BadRules) => Ok(false),
        Err(RulesError::NoMemory) => Err(AllocError),
    }
}
