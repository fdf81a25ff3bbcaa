//! The logs of objects, as floors leave them.
ghost use Rattle.std.specs.Prelude.{◌≡◌, ◌≤◌, ◌^◌, IfOk, map};
ghost use Rattle.object_log.specs.ObjectLog.{first, puts};
ghost use Rattle.spec_history.specs.History.{changes_of};
ghost use Rattle.spec_history.specs.declared.entry.Kind.TheVariants.{Calendar, Event};
ghost use Rattle.spec_snapshots.specs.Kept.{IsFloor};
ghost use Rattle.store_opening.specs.Puts.{puts_by, slot_by, with_series};

use account_store::KeptEvent;
use event_series::read::read_series;
use ghost_list::GhostList;
use object_log::{IdSlot, ObjectLog};
use spec_history::entry::Entry;
use spec_json::tree::Tree;
use spec_snapshots::kept::{KindFloor, LiveObject};
use std::alloc::{AllocError, Global};
use zone_table::Zones;

/// The log of calendars, at the floor which these entries left. Takes memory for what is live.
pub(crate) fn calendar_log(
    alloc: Global,
    past: &GhostList<Entry>,
    floor: KindFloor,
) -> Result<ObjectLog<Tree>, AllocError>
    requires floor { IsFloor (changes_of past.now.items) Calendar floor }
    requires few { floor.state ≤ 2 ^ 40 }
    ensures puts { IfOk result (λ log. puts log ≡ puts_by (λ t. t) Calendar (changes_of past.now.items)) }
    ensures first { IfOk result (λ log. first log ≡ floor.state) }
{
    let KindFloor {
        state,
        created,
        live,
    } = floor;
    let slots = calendar_slots(alloc, live)?;
    let told = GhostList::of(past);
    Ok(ObjectLog::open(alloc, told, state, created, slots))
}

fn calendar_slots(alloc: Global, live: Vec<LiveObject>) -> Result<Vec<IdSlot<Tree>>, AllocError>
    ensures { IfOk result (λ slots. slots.items ≡ map (slot_by (λ t. t)) live.items) }
{
    let mut slots = Vec::with_capacity(alloc, live.len())?;
    for calendar in live {
        slots.push(IdSlot {
            id: calendar.id,
            object: Some(calendar.object),
        })?;
    }
    Ok(slots)
}

/// The entries that left a floor of events, and the zones by which their series are read.
#[derive(Drop)]
struct ReadPast<'a> {
    past: &'a GhostList<Entry>,
    zones: &'a Zones,
}

/// The log of events, each with its series, at the floor which these entries left. Takes memory for what is live.
pub(crate) fn event_log(
    alloc: Global,
    zones: &Zones,
    past: &GhostList<Entry>,
    floor: KindFloor,
) -> Result<ObjectLog<KeptEvent>, AllocError>
    requires floor { IsFloor (changes_of past.now.items) Event floor }
    requires few { floor.state ≤ 2 ^ 40 }
    ensures puts { IfOk result (λ log. puts log ≡ puts_by (with_series zones.now) Event (changes_of past.now.items)) }
    ensures first { IfOk result (λ log. first log ≡ floor.state) }
{
    let KindFloor {
        state,
        created,
        live,
    } = floor;
    let slots = event_slots(alloc, zones, live)?;
    let read = ReadPast { past, zones };
    let told = GhostList::of(&read);
    Ok(ObjectLog::open(alloc, told, state, created, slots))
}

fn event_slots(
    alloc: Global,
    zones: &Zones,
    live: Vec<LiveObject>,
) -> Result<Vec<IdSlot<KeptEvent>>, AllocError>
    ensures { IfOk result (λ slots. slots.items ≡ map (slot_by (with_series zones.now)) live.items) }
{
    let mut slots = Vec::with_capacity(alloc, live.len())?;
    for event in live {
        let object = kept_event(alloc, zones, event.object)?;
        slots.push(IdSlot {
            id: event.id,
            object: Some(object),
        })?;
    }
    Ok(slots)
}

fn kept_event(alloc: Global, zones: &Zones, object: Tree) -> Result<KeptEvent, AllocError>
    ensures { IfOk result (λ e. e ≡ with_series zones.now object) }
{
    let series = read_series(alloc, &object, zones)?;
    Ok(KeptEvent { object, series })
}
