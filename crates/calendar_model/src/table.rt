//! The table of a calendar's properties.
ghost use Rattle.std.specs.Prelude.{◌≡◌, Some};
ghost use Rattle.cal_model.specs.Calendar.{calendar_table, is_calendar_id};
ghost use Rattle.spec_json.specs.TreeData.{data_of};
ghost use Rattle.spec_site.specs.TimeZones.{has_zone};
ghost use Rattle.property_table.specs.Table.{test_at};
ghost use Rattle.property_table.specs.Values.{is_text_that};

use property_table::table::PropertyTable;
use property_table::values::{is_name, is_text, is_truth, is_unsigned_int};
use spec_history::entry::Kind;
use spec_json::tree::Tree;
use std::alloc::AllocError;
use time_text::read_object_id;
use zone_table::Zones;

/// The properties of a calendar where these time zones are known.
#[derive(Clone, Copy)]
pub(crate) struct CalendarTable<'a> {
    pub zones: &'a Zones,
}

impl PropertyTable for CalendarTable<'_> {
    ghost use Rattle.cal_model.specs.Calendar.{calendar_table};

    ghost table = { λ t. calendar_table t.zones.now };

    fn passes(&self, name: &str, value: &Tree) -> Result<bool, AllocError> {
        Ok(passes(self.zones, name, value))
    }

    #[tactic(auto, unfolding(cal_model::specs::Calendar::calendar_table))]
    fn required_names(&self) -> &'static [&'static str] {
        &["id", "name"]
    }
}

#[tactic(auto, unfolding(cal_model::specs::Calendar::calendar_table))]
fn passes(zones: &Zones, name: &str, value: &Tree) -> bool
    ensures { result ≡ test_at (calendar_table zones.now) name.now (Some (data_of value.now)) }
{
    match name {
        "id" => is_calendar_id(value),
        "name" => is_name(value),
        "description" | "color" => is_text(value),
        "sortOrder" => is_unsigned_int(value),
        "isSubscribed" | "isVisible" => is_truth(value),
        "timeZone" | "resourceZone" => is_zone(zones, value),
        _ => false,
    }
}

fn is_calendar_id(value: &Tree) -> bool
    ensures { result ≡ is_text_that is_calendar_id (data_of value.now) }
{
    match value {
        Tree::Text(text) => read_object_id(Kind::Calendar, text.as_str().as_bytes()).is_some(),
        _ => false,
    }
}

fn is_zone(zones: &Zones, value: &Tree) -> bool
    ensures { result ≡ is_text_that (has_zone zones.now) (data_of value.now) }
{
    match value {
        Tree::Text(text) => zones.has(text),
        _ => false,
    }
}
