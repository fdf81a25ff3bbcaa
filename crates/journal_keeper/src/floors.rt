//! Tests of what may be kept of a history.
ghost use Rattle.std.specs.Prelude.{◌≡◌, ◌==◌, ◌||◌, false, nat_lt};
ghost use Rattle.spec_history.specs.Pages.{window};
ghost use Rattle.spec_history.specs.History.{changes_of, count_of_kind};
ghost use Rattle.spec_snapshots.specs.Kept.{floor_of, is_floor, is_old, may_be_kept, rise_within};
ghost use Rattle.spec_sizes.specs.Sizes.{of_kind, size_of, size_of_object, window_bytes};
ghost use Rattle.json_edge.specs.Lengths.{saturated};

use json_edge::length::text_length;
use spec_history::entry::{Entry, Kind};
use spec_json::tree::Tree;
use spec_snapshots::kept::{KeptHistory, KindFloor, LiveObject};

/// How many changes back of a kind a state is still answered from.
const WINDOW: u64 = 4096;

/// How many bytes the objects that changes of a kind put behind a state may have together, where it is still answered from.
const WINDOW_BYTES: u64 = 16_777_216;

/// Whether this may be kept of some history. Takes no memory.
pub(crate) fn may_be_kept(kept: &KeptHistory) -> bool
    ensures { result ≡ may_be_kept kept.now }
{
    let are_floors = is_floor(&kept.calendars) && is_floor(&kept.events);
    let are_old = is_old(Kind::Calendar, kept.calendars.state, &kept.behind)
        && is_old(Kind::Event, kept.events.state, &kept.behind);
    are_floors && are_old
}

// Whether some changes leave a floor.
fn is_floor(floor: &KindFloor) -> bool
    ensures { result ≡ is_floor floor.now }
{
    let created = u128::from(floor.created);
    let gone = u128::from(floor.created.saturating_sub(floor.live.len() as u64));
    let is_enough = created + gone <= u128::from(floor.state);
    let is_begun = floor.created != 0 || floor.state == 0;
    rise_to(floor.created, &floor.live) && is_enough && is_begun
}

// Whether the numbers of objects rise, from 1 on and up to the last one.
fn rise_to(most: u64, live: &[LiveObject]) -> bool
    ensures { result ≡ rise_within 1 most live.now }
{
    let mut last = 0;
    for object in live {
        if object.id <= last || object.id > most {
            return false;
        }
        last = object.id;
    }
    true
}

// Whether more changes of a kind lie behind a floor of this state than are told from, or more bytes, unless there was nothing up to it.
fn is_old(kind: Kind, state: u64, behind: &[Entry]) -> bool
    ensures { result ≡ ((state == 0) || (nat_lt window (count_of_kind (changes_of behind.now) kind) || nat_lt window_bytes (size_of (of_kind kind (changes_of behind.now))))) }
{
    let mut count: u64 = 0;
    let mut bytes: u64 = 0;
    for entry in behind {
        if kind.is(entry.change.kind) {
            count += 1;
            bytes = bytes.saturating_add(size_of(&entry.change.object));
        }
    }
    state == 0 || count > WINDOW || bytes > WINDOW_BYTES
}

// The bytes of an object's compact text; a removal has none.
fn size_of(object: &Option<Tree>) -> u64
    ensures { result ≡ saturated (size_of_object object.now) }
{
    match object {
        Some(tree) => text_length(tree),
        None => 0,
    }
}
