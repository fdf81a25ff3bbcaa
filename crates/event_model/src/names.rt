//! The properties that an event may not have.
ghost use Rattle.std.specs.Prelude.{◌≡◌, IfOk};
ghost use Rattle.spec_json.specs.TreeData.{data_of};
ghost use Rattle.spec_recurrence.specs.Recurrence.{bad_properties_of_event};

use crate::table::RecurringEventTable;
use property_table::table::failing_names;
use spec_json::text::Text;
use spec_json::tree::Tree;
use std::alloc::{AllocError, Global};
use zone_table::Zones;

/// The names of all properties that an event may not have so, its rules and overrides among them, in byte order.
///
/// A member that is null counts as left out. Takes memory for the names, for the rules, and for the parts of the event that
/// overrides look at.
pub fn bad_event_names(alloc: Global, tree: &Tree, zones: &Zones) -> Result<Vec<Text>, AllocError>
    ensures { IfOk result (λ v. v.items ≡ bad_properties_of_event zones.now (data_of tree.now)) }
{
    let table = RecurringEventTable {
        alloc,
        zones,
        event: tree,
    };
    failing_names(alloc, &table, tree)
}
