//! Reads calendars.
ghost use Rattle.std.specs.Prelude.{◌≡◌, [], IfErr, IfOk, OnOk, pos, true, unwrap_or};
ghost use Rattle.cal_model.specs.Calendar.{bad_properties, calendar_in, stored};
ghost use Rattle.calendar_model.specs.Reports.{Reports};
ghost use Rattle.calendar_model.specs.declared.read.CalendarError.TheVariants.{NoMemory};
ghost use Rattle.spec_json.specs.Data.{members_of, object};
ghost use Rattle.spec_json.specs.Parts.{number_at, text_at, truth_at};
ghost use Rattle.spec_json.specs.TreeData.{data_of};

use crate::calendar::Calendar;
use crate::table::CalendarTable;
use property_table::table::failing_names;
use spec_events::values::copy_at;
use spec_json::lists::Texts;
use spec_json::num::Num;
use spec_json::text::Text;
use spec_json::tree::Tree;
use std::alloc::{AllocError, Global};
use zone_table::Zones;

/// Why there is no calendar.
#[derive(Drop)]
pub enum CalendarError {
    /// The object has properties that a calendar may not have, or not with these values, or lacks some.
    BadCalendar {
        /// Their names, in byte order.
        properties: Texts,
    },
    /// There was no memory.
    NoMemory,
}

impl From<AllocError> for CalendarError {
    ghost from_gives = { λ _ error. error ≡ NoMemory };

    fn from(_: AllocError) -> Self {
        CalendarError::NoMemory
    }
}

/// Reads a calendar, in which a member that is null counts as left out.
///
/// `BadCalendar` names all properties that are bad. What is stored of a calendar has none. Takes memory for a copy of the texts, or for the names.
pub fn read_calendar(alloc: Global, tree: &Tree, zones: &Zones) -> Result<Calendar, CalendarError>
    ensures value { IfOk result (λ c. c ≡ calendar_in (data_of tree.now)) }
    ensures valid { OnOk result (bad_properties zones.now (data_of tree.now) ≡ []) }
    ensures stored { IfOk result (λ c. bad_properties zones.now (object (members_of (stored c))) ≡ []) }
    ensures err { IfErr result (λ error. Reports error (bad_properties zones.now (data_of tree.now))) }
{
    let names = failing_names(alloc, &CalendarTable { zones }, tree)?;
    if !names.is_empty() {
        return Err(CalendarError::BadCalendar {
            properties: Texts::new(names),
        });
    }
    let _ordered = tree.members_in();
    Ok(calendar(alloc, tree)?)
}

fn calendar(alloc: Global, tree: &Tree) -> Result<Calendar, AllocError>
    ensures { IfOk result (λ c. c ≡ calendar_in (data_of tree.now)) }
{
    Ok(Calendar {
        id: text_or_empty(alloc, tree, "id")?,
        name: text_or_empty(alloc, tree, "name")?,
        description: copy_at(tree, "description")?,
        color: copy_at(tree, "color")?,
        sort_order: number_or_zero(tree, "sortOrder"),
        is_subscribed: truth_or_true(tree, "isSubscribed"),
        is_visible: truth_or_true(tree, "isVisible"),
        time_zone: copy_at(tree, "timeZone")?,
        resource_zone: copy_at(tree, "resourceZone")?,
    })
}

fn text_or_empty(alloc: Global, tree: &Tree, key: &str) -> Result<Text, AllocError>
    ensures { IfOk result (λ t. t ≡ unwrap_or (text_at key.now (data_of tree.now)) []) }
{
    match tree.text_at(key) {
        Some(text) => text.copy(),
        None => Text::from_str(alloc, ""),
    }
}

fn truth_or_true(tree: &Tree, key: &str) -> bool
    ensures { result ≡ unwrap_or (truth_at key.now (data_of tree.now)) true }
{
    tree.truth_at(key).unwrap_or(true)
}

fn number_or_zero(tree: &Tree, key: &str) -> Num
    ensures { result ≡ unwrap_or (number_at key.now (data_of tree.now)) (pos 0) }
{
    match tree.number_at(key) {
        Some(number) => number,
        None => Num::new(0),
    }
}
