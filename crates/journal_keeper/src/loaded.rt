//! What a keeper has of the history of an account.
ghost use Rattle.std.specs.Prelude.{◌≡◌, [], IfNone, IfSome, false};
ghost use Rattle.spec_snapshots.specs.Kept.{IsKeptFrom, may_be_kept};

use crate::floors::may_be_kept;
use ghost_list::GhostList;
use spec_history::entry::Entry;
use spec_snapshots::kept::{KeptHistory, KindFloor};
use std::alloc::Global;

/// What is kept of the history of an account, and the whole history, which exists in proofs alone.
#[derive(Drop)]
pub struct Loaded {
    /// What is kept.
    pub kept: KeptHistory,
    /// All entries that ever were.
    pub told: GhostList<Entry>,
}

/// A history of which nothing is forgotten. Takes no memory.
pub fn whole_history(alloc: Global, entries: Vec<Entry>) -> Loaded
    ensures told { result.told.items ≡ entries.items }
    ensures kept { IsKeptFrom result.told.items result.kept }
{
    let told = GhostList::of(&entries);
    let kept = KeptHistory {
        calendars: no_floor(alloc),
        events: no_floor(alloc),
        behind: entries,
    };
    Loaded { kept, told }
}

// The floor in front of all entries.
fn no_floor(alloc: Global) -> KindFloor
    ensures state { result.state ≡ 0 }
    ensures created { result.created ≡ 0 }
    ensures live { result.live.items ≡ [] }
{
    KindFloor {
        state: 0,
        created: 0,
        live: Vec::new(alloc),
    }
}

/// A history of which this is kept, or `None` where it can't be. For a keeper that has no more of a history. Takes no memory.
pub fn some_history(kept: KeptHistory) -> Option<Loaded>
    ensures kept { IfSome result (λ l. IsKeptFrom l.told.items l.kept) }
    ensures same { IfSome result (λ l. l.kept ≡ kept) }
    ensures none { IfNone result (may_be_kept kept ≡ false) }
{
    if !may_be_kept(&kept) {
        return None;
    }
    let told = GhostList::of(&kept);
    Some(Loaded { kept, told })
}
