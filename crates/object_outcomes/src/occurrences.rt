//! Occurrences of events, which clients name by synthetic ids.
ghost use Rattle.std.specs.Prelude.{◌≡◌, ◌++◌, IfOk, is_some, true};
ghost use Rattle.cal_model.specs.Occurrences.{occurrence_numbered, occurrence_named};
ghost use Rattle.spec_history.specs.declared.entry.Kind.TheVariants.{Event as event_kind};
ghost use Rattle.spec_time.specs.Walls.{is_in_years};

use cal_model::view::AccountView;
use event_model::ids::read_occurrence_id;
use event_model::occurrence::occurrence;
use spec_history::entry::Kind;
use spec_json::text::Text;
use spec_time::wall::Wall;
use std::alloc::{AllocError, Global};

/// Whether an id names an occurrence of a live event. Takes memory for the occurrence.
pub(crate) fn is_occurrence<V: AccountView>(
    alloc: Global,
    view: &V,
    kind: Kind,
    id: &Text,
) -> Result<bool, AllocError>
    ensures { IfOk result (λ b. b ≡ is_some (occurrence_named (V.changes view.now) kind id.now)) }
{
    match kind {
        Kind::Calendar => Ok(false),
        Kind::Event => is_event_occurrence(alloc, view, id),
    }
}

fn is_event_occurrence<V: AccountView>(
    alloc: Global,
    view: &V,
    id: &Text,
) -> Result<bool, AllocError>
    ensures { IfOk result (λ b. b ≡ is_some (occurrence_named (V.changes view.now) event_kind id.now)) }
{
    match read_occurrence_id(id.as_str().as_bytes()) {
        Some((number, rid)) => has_occurrence(alloc, view, number, rid),
        None => Ok(false),
    }
}

// Whether a live event has this number and an occurrence with this recurrence id.
fn has_occurrence<V: AccountView>(
    alloc: Global,
    view: &V,
    number: u64,
    rid: Wall,
) -> Result<bool, AllocError>
    requires { is_in_years rid ≡ true }
    ensures { IfOk result (λ b. b ≡ is_some (occurrence_numbered (V.changes view.now) (number, rid))) }
{
    match view.live(Kind::Event, number) {
        Some(event) => Ok(occurrence(alloc, number, event, rid)?.is_some()),
        None => Ok(false),
    }
}
