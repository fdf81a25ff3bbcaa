//! The ids of results.
ghost use Rattle.std.specs.Prelude.{◌≡◌, IfOk, true};
ghost use Rattle.spec_json.specs.TreeData.{data_of};
ghost use Rattle.spec_queries.specs.Expanded.{result_id};
ghost use Rattle.spec_time.specs.Walls.{is_in_years};

use event_model::ids::occurrence_id_text;
use single_event::recurrence::has_recurrence;
use spec_history::entry::Kind;
use spec_json::text::Text;
use spec_json::tree::Tree;
use spec_time::wall::Wall;
use std::alloc::{AllocError, Global};
use time_text::object_id_text;

/// The id of the occurrence of an event with a recurrence id: synthetic, or that of the event where it has neither rules nor overrides.
pub(crate) fn result_id(
    alloc: Global,
    number: u64,
    event: &Tree,
    rid: Wall,
) -> Result<Text, AllocError>
    requires { is_in_years rid ≡ true }
    ensures { IfOk result (λ id. id ≡ result_id number (data_of event.now) rid) }
{
    if has_recurrence(event) {
        occurrence_id_text(alloc, number, rid)
    } else {
        object_id_text(alloc, Kind::Event, number)
    }
}
