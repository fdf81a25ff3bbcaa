//! What an override may not change.
ghost use Rattle.std.specs.Prelude.{◌≡◌};
ghost use Rattle.std.specs.List.{list_any};
ghost use Rattle.property_table.specs.Names.{has_name};
ghost use Rattle.spec_recurrence.specs.Overrides.{fixed_properties};

use property_table::names::has_name;
use spec_json::text::Text;

/// Whether one of these first parts of pointers is fixed. Takes no memory.
pub(crate) fn has_fixed(firsts: &[Text]) -> bool
    ensures { result ≡ list_any (has_name fixed_properties) firsts.now }
{
    for first in firsts {
        if is_fixed(first.as_str()) {
            return true;
        }
    }
    false
}

fn is_fixed(name: &str) -> bool
    ensures { result ≡ has_name fixed_properties name.now }
{
    has_name(
        &[
            "@type",
            "excludedRecurrenceRules",
            "method",
            "prodId",
            "recurrenceId",
            "recurrenceOverrides",
            "recurrenceRules",
            "timeZones",
            "uid",
            "baseEventId",
            "calendarIds",
            "created",
            "id",
            "timeZone",
            "updated",
        ],
        name,
    )
}
