//! What comes of storing an event.
ghost use Rattle.std.specs.Prelude.{◌≡◌, [], Some, IfOk, OnOk, false, is_some, map, option_map, true, unwrap_or};
ghost use Rattle.std.specs.List.{list_all};
ghost use Rattle.cal_model.specs.EventObject.{has_other_uid, names_missing_calendar, moment_created, value_or_null, with_default, with_server_values};
ghost use Rattle.cal_model.specs.Operations.{bad_of_event, event_outcome, stored_event_outcome, within_quota};
ghost use Rattle.cal_model.specs.Sound.{has_server_values};
ghost use Rattle.spec_events.specs.Events.{calendars_among};
ghost use Rattle.spec_history.specs.History.{live_object};
ghost use Rattle.spec_history.specs.declared.entry.Kind.TheVariants.{Calendar as calendar_kind, Event as event_kind};
ghost use Rattle.spec_json.specs.Data.{members_of, null, object, text};
ghost use Rattle.spec_json.specs.Edit.{with_pair};
ghost use Rattle.spec_json.specs.SameData.{same_data};
ghost use Rattle.spec_json.specs.TreeData.{data_of, pair_of};
ghost use Rattle.spec_json.specs.declared.tree.Tree.TheVariants.{Object};
ghost use Rattle.spec_bookings.specs.BookedResources.{clash_of_event, has_full_resource};
ghost use Rattle.spec_bookings.specs.Resources.{resources_of};
ghost use Rattle.spec_time.specs.LocalTimes.{utc_text};
ghost use Rattle.property_table.specs.Table.{given};
ghost use Rattle.object_outcomes.specs.Judging.{HasNumber, IsAllowed, IsBefore, IsStorable, ground_in, names_with_booking, names_with_own};

use crate::against::stands_against;
use crate::booking_rules::{
    has_long_exception, has_long_override, is_in_other_zone, is_long_booking,
};
use crate::given::{note_if, refused_for};
use crate::quota::within_quota;
use crate::resources::resources_of;
use crate::setting::{Judged, Setting};
use crate::texts::copies;
use crate::uid::supplied_uid;
use cal_model::view::{AccountView, CalendarsView};
use event_series::read::read_event;
use single_event::read::EventError;
use spec_history::entry::{Change, Kind};
use spec_json::text::Text;
use spec_json::tree::{Member, Tree, TreeObject};
use spec_series::series::Series;
use spec_time::moment::Moment;
use std::alloc::{AllocError, Global};
use time_text::{object_id_text, read_object_id, utc_text};
use zone_table::Zones;

/// What comes of storing an event of this number in place of what it was before. `names_id` says whether the client gives an id
/// that it may not give.
pub(crate) fn event_outcome<V: AccountView>(
    alloc: Global,
    view: &V,
    setting: &Setting<'_>,
    number: u64,
    before: Option<&Tree>,
    names_id: bool,
    object: TreeObject,
) -> Result<Judged, AllocError>
    requires before { IsBefore (V.changes view.now) event_kind number (option_map (λ t. t.now) before) }
    requires zones { (V.base view.now).zones ≡ setting.now.zones.now }
    ensures exact { IfOk result (λ j. j.outcome ≡ event_outcome (ground_in setting.now) (V.changes view.now) number
        (option_map (λ t. t.now) before.entry) names_id object) }
    ensures allowed { IfOk result (IsAllowed (V.base view.now).zones (V.changes view.now)) }
{
    view.has_sound_objects();
    let _range = setting.moment.seconds();
    let given = given(alloc, object)?;
    let members = with_server_values(alloc, setting, number, before, given)?;
    stored_outcome(
        alloc,
        view,
        setting.zones,
        number,
        before,
        names_id,
        members,
    )
}

/// What comes of storing an event of these members, which has what the server sets.
pub(crate) fn stored_outcome<V: AccountView>(
    alloc: Global,
    view: &V,
    zones: &Zones,
    number: u64,
    before: Option<&Tree>,
    names_id: bool,
    members: TreeObject,
) -> Result<Judged, AllocError>
    requires before { IsBefore (V.changes view.now) event_kind number (option_map (λ t. t.now) before) }
    requires form { has_server_values event_kind number (object (members_of members)) ≡ true }
    requires zones { (V.base view.now).zones ≡ zones.now }
    ensures exact { IfOk result (λ j. j.outcome ≡ stored_event_outcome zones.now (V.changes view.now) number
        (option_map (λ t. t.now) before.entry) names_id members) }
    ensures allowed { IfOk result (IsAllowed (V.base view.now).zones (V.changes view.now)) }
{
    let event = Tree::Object(members);
    let resources = resources_of(alloc, view, &event)?;
    match read_event(alloc, &event, zones) {
        Ok(series) => {
            let is_long = has_long_exception(&series, &resources);
            let none = Vec::new(alloc);
            let names = with_own_names(
                alloc, view, before, names_id, is_long, &event, &resources, none,
            )?;
            if names.is_empty() {
                return store(alloc, view, number, event, &resources, series);
            }
            Ok(refused_for(names))
        }
        Err(EventError::BadEvent { properties }) => {
            let is_long = has_long_override(alloc, view, zones, &event, &resources)?;
            let names = copies(alloc, properties.items())?;
            let names = with_own_names(
                alloc, view, before, names_id, is_long, &event, &resources, names,
            )?;
            Ok(refused_for(names))
        }
        Err(EventError::NoMemory) => Err(AllocError),
    }
}

// What comes of storing an event of this series that is valid.
fn store<V: AccountView>(
    alloc: Global,
    view: &V,
    number: u64,
    event: Tree,
    resources: &[u64],
    series: Series,
) -> Result<Judged, AllocError>
    requires number { HasNumber (V.changes view.now) event_kind number }
    requires resources { resources.now ≡ resources_of (V.changes view.now) (data_of event) }
    requires event { IsStorable (V.base view.now).zones (V.changes view.now) (data_of event) series }
    requires valid { bad_of_event (V.base view.now).zones (V.changes view.now) (live_object (V.changes view.now) event_kind number) false (data_of event) ≡ [] }
    requires form { has_server_values event_kind number (data_of event) ≡ true }
    ensures exact { IfOk result (λ j. j.outcome ≡ within_quota (V.changes view.now) (has_full_resource (V.base view.now).zones (V.changes view.now) number (data_of event))
        (clash_of_event (V.base view.now).zones (V.changes view.now) number (data_of event)) (record { kind = event_kind; id = number; object = Some event })) }
    ensures allowed { IfOk result (IsAllowed (V.base view.now).zones (V.changes view.now)) }
{
    let against = stands_against(view, number, &event, resources, &series);
    let change = Change {
        kind: Kind::Event,
        id: number,
        object: Some(event),
    };
    within_quota(alloc, view, change, against, Some(series))
}

// These names, with those of the properties that are bad for the account and for what the event was before, and `id` where the client
// may not give it. `is_long` says whether an override lets an occurrence last longer than that of a booking may.
pub(crate) fn with_own_names<V: CalendarsView>(
    alloc: Global,
    view: &V,
    before: Option<&Tree>,
    names_id: bool,
    is_long: bool,
    event: &Tree,
    resources: &[u64],
    names: Vec<Text>,
) -> Result<Vec<Text>, AllocError>
    requires { resources.now ≡ resources_of (V.changes view.now) (data_of event.now) }
    ensures { IfOk result (λ v. v.items ≡ names_with_own (V.changes view.now) (option_map (λ t. t.now) before.entry) names_id is_long (data_of event.now) names.items) }
{
    let mut names = names;
    note_booking(alloc, view, is_long, event, resources, &mut names)?;
    note_if(
        alloc,
        names_missing_calendar(view, event),
        "calendarIds",
        &mut names,
    )?;
    note_if(alloc, has_other_uid(before, event), "uid", &mut names)?;
    note_if(alloc, names_id, "id", &mut names)?;
    Ok(names)
}

// Puts what the resources that an event is in make bad among these names.
fn note_booking<V: CalendarsView>(
    alloc: Global,
    view: &V,
    is_long: bool,
    event: &Tree,
    resources: &[u64],
    names: &mut Vec<Text>,
) -> Result<(), AllocError>
    requires { resources.now ≡ resources_of (V.changes view.now) (data_of event.now) }
    ensures { OnOk result (names.new.items ≡ names_with_booking (V.changes view.now) is_long (data_of event.now) names.old.items) }
{
    note_if(
        alloc,
        is_in_other_zone(view, event, resources),
        "timeZone",
        names,
    )?;
    note_if(
        alloc,
        is_long_booking(view, event, resources),
        "duration",
        names,
    )?;
    note_if(alloc, is_long, "recurrenceOverrides", names)
}

// Whether a key of `calendarIds` is the id of a calendar that isn't live.
fn names_missing_calendar<V: CalendarsView>(view: &V, event: &Tree) -> bool
    ensures { result ≡ names_missing_calendar (V.changes view.now) (data_of event.now) }
{
    match event.object_at("calendarIds") {
        Some(ids) => !are_live(view, ids.members()),
        None => false,
    }
}

fn are_live<V: CalendarsView>(view: &V, ids: &[Member]) -> bool
    ensures { result ≡ list_all (λ n. is_some (live_object (V.changes view.now) calendar_kind n)) (calendars_among (map pair_of ids.now)) }
{
    for member in ids {
        if let Some(number) = read_object_id(Kind::Calendar, member.key.as_str().as_bytes()) {
            if view.calendar(number).is_none() {
                return false;
            }
        }
    }
    true
}

fn has_other_uid(before: Option<&Tree>, event: &Tree) -> bool
    ensures { result ≡ has_other_uid (option_map (λ t. t.now) before.entry) (data_of event.now) }
{
    match before {
        Some(before) => !are_same(event.get("uid"), before.get("uid")),
        None => false,
    }
}

// Whether two values are the same, where none counts as null.
fn are_same(value: Option<&Tree>, other: Option<&Tree>) -> bool
    ensures { result ≡ same_data (unwrap_or (option_map (λ t. data_of t.now) value.entry) null) (unwrap_or (option_map (λ t. data_of t.now) other.entry) null) }
{
    let null = Tree::Null;
    value.unwrap_or(&null).same(other.unwrap_or(&null))
}

// The members that aren't null.
#[tactic(auto, using(property_table::proofs::TableLemmas::rises_filter))]
fn given(alloc: Global, object: TreeObject) -> Result<TreeObject, AllocError>
    ensures { IfOk result (λ o. o ≡ given object) }
{
    let members = object.into_members();
    Ok(TreeObject::new(given_members(alloc, members)?))
}

fn given_members(alloc: Global, members: Vec<Member>) -> Result<Vec<Member>, AllocError>
    ensures { IfOk result (λ v. map pair_of v.items ≡ given (map pair_of members.items)) }
{
    let mut given = Vec::with_capacity(alloc, members.len())?;
    for member in members {
        if !member.value.is_null() {
            given.push(member)?;
        }
    }
    Ok(given)
}

// The members that a client gives, with what the server sets or supplies.
fn with_server_values(
    alloc: Global,
    setting: &Setting<'_>,
    number: u64,
    before: Option<&Tree>,
    given: TreeObject,
) -> Result<TreeObject, AllocError>
    ensures { IfOk result (λ o. o ≡ with_server_values setting.now.account.now setting.now.moment number (option_map (λ t. t.now) before.entry) given) }
{
    let mut members = given;
    put(
        alloc,
        "id",
        Tree::Text(object_id_text(alloc, Kind::Event, number)?),
        &mut members,
    )?;
    put(
        alloc,
        "created",
        moment_created(alloc, setting.moment, before)?,
        &mut members,
    )?;
    put(
        alloc,
        "updated",
        moment_tree(alloc, setting.moment)?,
        &mut members,
    )?;
    supply(
        alloc,
        "@type",
        Tree::Text(Text::from_str(alloc, "Event")?),
        &mut members,
    )?;
    supply(
        alloc,
        "uid",
        Tree::Text(supplied_uid(alloc, setting.account, number)?),
        &mut members,
    )?;
    Ok(members)
}

fn put(alloc: Global, key: &str, value: Tree, members: &mut TreeObject) -> Result<(), AllocError>
    ensures { OnOk result (members.new ≡ with_pair key.now (data_of value) members.old) }
{
    members.put(Text::from_str(alloc, key)?, value)
}

// Puts a value at a key where there is none.
fn supply(alloc: Global, key: &str, value: Tree, members: &mut TreeObject) -> Result<(), AllocError>
    ensures { OnOk result (members.new ≡ with_default key.now (data_of value) members.old) }
{
    if members.get(key).is_some() {
        return Ok(());
    }
    put(alloc, key, value, members)
}

fn moment_created(alloc: Global, moment: Moment, before: Option<&Tree>) -> Result<Tree, AllocError>
    ensures { IfOk result (λ t. data_of t ≡ moment_created moment (option_map (λ t. t.now) before.entry)) }
{
    match before {
        Some(before) => copy_at(before, "created"),
        None => moment_tree(alloc, moment),
    }
}

// A copy of the value at a key, null where there is none.
fn copy_at(event: &Tree, key: &str) -> Result<Tree, AllocError>
    ensures { IfOk result (λ t. data_of t ≡ value_or_null key.now (data_of event.now)) }
{
    match event.get(key) {
        Some(value) => value.copy(),
        None => Ok(Tree::Null),
    }
}

// The UTCDate of a moment.
fn moment_tree(alloc: Global, moment: Moment) -> Result<Tree, AllocError>
    ensures { IfOk result (λ t. data_of t ≡ text (utc_text moment)) }
{
    Ok(Tree::Text(utc_text(alloc, moment.seconds())?))
}
