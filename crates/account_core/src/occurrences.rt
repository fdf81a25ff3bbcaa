//! Occurrences of events, which clients name by synthetic ids.
ghost use Rattle.std.specs.Prelude.{◌≡◌, IfOk, true};
ghost use Rattle.account_store.specs.Store.{entries};
ghost use Rattle.cal_model.specs.Occurrences.{occurrence_numbered, occurrence_named};
ghost use Rattle.spec_history.specs.History.{changes_of};
ghost use Rattle.spec_history.specs.declared.entry.Kind.TheVariants.{Event as event_kind};
ghost use Rattle.spec_time.specs.Walls.{is_in_years};

use account_store::Store;
use event_model::ids::read_occurrence_id;
use event_model::occurrence::occurrence;
use spec_history::entry::Kind;
use spec_json::text::Text;
use spec_json::tree::Tree;
use spec_time::wall::Wall;
use std::alloc::{AllocError, Global};

/// The occurrence of a live event that an id names.
pub(crate) fn occurrence_of_id(
    alloc: Global,
    store: &Store,
    kind: Kind,
    id: &Text,
) -> Result<Option<Tree>, AllocError>
    ensures { IfOk result (λ o. o ≡ occurrence_named (changes_of (entries store.now)) kind id.now) }
{
    match kind {
        Kind::Calendar => Ok(None),
        Kind::Event => event_occurrence(alloc, store, id),
    }
}

fn event_occurrence(alloc: Global, store: &Store, id: &Text) -> Result<Option<Tree>, AllocError>
    ensures { IfOk result (λ o. o ≡ occurrence_named (changes_of (entries store.now)) event_kind id.now) }
{
    match read_occurrence_id(id.as_str().as_bytes()) {
        Some(named) => occurrence_numbered(alloc, store, named),
        None => Ok(None),
    }
}

// The occurrence of the live event of a number with a recurrence id.
fn occurrence_numbered(
    alloc: Global,
    store: &Store,
    named: (u64, Wall),
) -> Result<Option<Tree>, AllocError>
    requires { is_in_years named.1 ≡ true }
    ensures { IfOk result (λ o. o ≡ occurrence_numbered (changes_of (entries store.now)) named) }
{
    let Some(event) = store.object(Kind::Event, named.0) else {
        return Ok(None);
    };
    match occurrence(alloc, named.0, event, named.1)? {
        Some(members) => Ok(Some(Tree::Object(members))),
        None => Ok(None),
    }
}
