//! What comes of storing a calendar.
ghost use Rattle.std.specs.Prelude.{◌≡◌, ◌++◌, ◌==◌, [], None, IfOk, codes, false, filter, length, not, option_map, true};
ghost use Rattle.cal_model.specs.Calendar.{bad_properties, calendar_in, stored, text_or_null};
ghost use Rattle.cal_model.specs.Operations.{calendar_outcome, exceeds_resources, has_other_zone, put, stored_calendar_outcome, with_name_if, within_quota};
ghost use Rattle.cal_model.specs.Sound.{has_own_id};
ghost use Rattle.spec_history.specs.declared.entry.Kind.TheVariants.{Calendar as calendar_kind};
ghost use Rattle.spec_json.specs.Data.{members_of, object};
ghost use Rattle.spec_json.specs.SameData.{same_data};
ghost use Rattle.spec_json.specs.TreeData.{data_of};
ghost use Rattle.object_outcomes.specs.Judging.{IsAllowed, IsBefore, ground_in};

use crate::against::Against;
use crate::given::{note_if, refused_for, with_own_id};
use crate::quota::within_quota;
use crate::setting::{Judged, Setting};
use crate::texts::copies;
use cal_model::set_error::SetError;
use cal_model::view::AccountView;
use calendar_model::calendar::Calendar;
use calendar_model::read::{CalendarError, read_calendar};
use spec_bookings::limits::MAX_RESOURCES;
use spec_history::entry::{Change, Kind};
use spec_json::lists::Texts;
use spec_json::text::Text;
use spec_json::tree::{Tree, TreeObject};
use std::alloc::{AllocError, Global};
use zone_table::Zones;

/// What comes of storing a calendar of this number in place of what it was before. `names_id` says whether the client gives an id that
/// it may not give.
pub(crate) fn calendar_outcome<V: AccountView>(
    alloc: Global,
    view: &V,
    setting: &Setting<'_>,
    number: u64,
    before: Option<&Tree>,
    names_id: bool,
    object: TreeObject,
) -> Result<Judged, AllocError>
    requires before { IsBefore (V.changes view.now) calendar_kind number (option_map (λ t. t.now) before) }
    requires zones { (V.base view.now).zones ≡ setting.now.zones.now }
    ensures exact { IfOk result (λ j. j.outcome ≡ calendar_outcome (ground_in setting.now) (V.changes view.now) number
        (option_map (λ t. t.now) before.entry) names_id object) }
    ensures allowed { IfOk result (IsAllowed (V.base view.now).zones (V.changes view.now)) }
{
    let tree = with_own_id(alloc, Kind::Calendar, number, object)?;
    stored_outcome(alloc, view, setting.zones, number, before, names_id, &tree)
}

/// What comes of storing a calendar that has its id.
pub(crate) fn stored_outcome<V: AccountView>(
    alloc: Global,
    view: &V,
    zones: &Zones,
    number: u64,
    before: Option<&Tree>,
    names_id: bool,
    tree: &Tree,
) -> Result<Judged, AllocError>
    requires before { IsBefore (V.changes view.now) calendar_kind number (option_map (λ t. t.now) before) }
    requires id { has_own_id calendar_kind number (data_of tree.now) ≡ true }
    requires zones { (V.base view.now).zones ≡ zones.now }
    ensures exact { IfOk result (λ j. j.outcome ≡ stored_calendar_outcome zones.now (V.changes view.now) number
        (option_map (λ t. t.now) before.entry) names_id (data_of tree.now)) }
    ensures allowed { IfOk result (IsAllowed (V.base view.now).zones (V.changes view.now)) }
{
    match read_calendar(alloc, tree, zones) {
        Ok(calendar) => {
            let names = with_own_names(alloc, before, names_id, tree, Vec::new(alloc))?;
            if names.is_empty() {
                return store(alloc, view, number, before, tree, &calendar);
            }
            Ok(refused_for(names))
        }
        Err(CalendarError::BadCalendar { properties }) => {
            let names = copies(alloc, properties.items())?;
            let names = with_own_names(alloc, before, names_id, tree, names)?;
            Ok(refused_for(names))
        }
        Err(CalendarError::NoMemory) => Err(AllocError),
    }
}

// These names, with those of the properties that are bad for what the calendar was before, and `id` where the client may not give it.
fn with_own_names(
    alloc: Global,
    before: Option<&Tree>,
    names_id: bool,
    calendar: &Tree,
    names: Vec<Text>,
) -> Result<Vec<Text>, AllocError>
    ensures { IfOk result (λ v. v.items ≡ with_name_if names_id (codes "id")
        (with_name_if (has_other_zone (option_map (λ t. t.now) before.entry) (data_of calendar.now)) (codes "resourceZone") names.items)) }
{
    let mut names = names;
    note_if(
        alloc,
        has_other_zone(before, calendar),
        "resourceZone",
        &mut names,
    )?;
    note_if(alloc, names_id, "id", &mut names)?;
    Ok(names)
}

fn has_other_zone(before: Option<&Tree>, calendar: &Tree) -> bool
    ensures { result ≡ has_other_zone (option_map (λ t. t.now) before.entry) (data_of calendar.now) }
{
    match before {
        Some(before) => !is_same_zone(
            calendar.text_at("resourceZone"),
            before.text_at("resourceZone"),
        ),
        None => false,
    }
}

fn is_same_zone(zone: Option<&Text>, before: Option<&Text>) -> bool
    ensures { result ≡ same_data (text_or_null (option_map (λ t. t.now) zone.entry)) (text_or_null (option_map (λ t. t.now) before.entry)) }
{
    match (zone, before) {
        (Some(zone), Some(before)) => zone.as_str() == before.as_str(),
        (None, None) => true,
        _ => false,
    }
}

// What comes of storing a calendar that is valid.
fn store<V: AccountView>(
    alloc: Global,
    view: &V,
    number: u64,
    before: Option<&Tree>,
    tree: &Tree,
    calendar: &Calendar,
) -> Result<Judged, AllocError>
    requires before { IsBefore (V.changes view.now) calendar_kind number (option_map (λ t. t.now) before) }
    requires same { has_other_zone (option_map (λ t. t.now) before) (data_of tree.now) ≡ false }
    requires id { has_own_id calendar_kind number (data_of tree.now) ≡ true }
    requires valid { bad_properties (V.base view.now).zones (object (members_of (stored calendar.now))) ≡ [] }
    requires calendar { calendar.now ≡ calendar_in (data_of tree.now) }
    ensures exact { IfOk result (λ j. j.outcome ≡ within_quota (V.changes view.now)
        (exceeds_resources (V.changes view.now) number (data_of tree.now)) None (put calendar_kind number (stored (calendar_in (data_of tree.now))))) }
    ensures allowed { IfOk result (IsAllowed (V.base view.now).zones (V.changes view.now)) }
{
    let object = calendar.tree(alloc)?;
    let change = Change {
        kind: Kind::Calendar,
        id: number,
        object: Some(object),
    };
    let against = Against {
        is_full: exceeds_resources(alloc, view, number, tree)?,
        clash: None,
    };
    within_quota(alloc, view, change, against, None)
}

// Whether the calendar would be one resource more than an account may have.
fn exceeds_resources<V: AccountView>(
    alloc: Global,
    view: &V,
    number: u64,
    calendar: &Tree,
) -> Result<bool, AllocError>
    ensures { IfOk result (λ b. b ≡ exceeds_resources (V.changes view.now) number (data_of calendar.now)) }
{
    if calendar.text_at("resourceZone").is_none() {
        return Ok(false);
    }
    let resources = view.resources(alloc)?;
    Ok(count_others(&resources, number) >= MAX_RESOURCES)
}

// How many of these numbers are others.
fn count_others(numbers: &[u64], number: u64) -> usize
    ensures { result ≡ length (filter (λ m. not (m == number)) numbers.now) }
{
    numbers.iter().filter(|other| **other != number).count()
}
