//! Accounts that go on from what is kept of their histories.
ghost use Rattle.std.specs.Arc.{arc_value};
ghost use Rattle.std.specs.Prelude.{◌≡◌, [], IfErr, IfOk};
ghost use Rattle.account_core.specs.Ledger.{base, ledger_entries, staged};
ghost use Rattle.account_opening.specs.Opening.{IsRefusal, NamesUnsound};
ghost use Rattle.spec_history.specs.History.{changes_of};
ghost use Rattle.spec_snapshots.specs.Kept.{IsKeptFrom};

use crate::ledger::Ledger;
use account_opening::{OpeningError, open_parts};
use journal_keeper::loaded::Loaded;
use spec_json::text::Text;
use std::alloc::Global;
use std::sync::Arc;
use zone_table::Zones;

/// A ledger of an account of this id, with these zones, in this generation of the data, which goes on from what is kept of its history.
pub(crate) fn open_at(
    alloc: Global,
    id: Text,
    zones: Arc<Zones>,
    generation: u64,
    loaded: Loaded,
) -> Result<Ledger, OpeningError>
    requires { IsKeptFrom loaded.told.items loaded.kept }
    ensures base { IfOk result (λ l. base l ≡ record { account_id = id; zones = arc_value zones; generation = generation }) }
    ensures entries { IfOk result (λ l. ledger_entries l ≡ loaded.told.items) }
    ensures staged { IfOk result (λ l. staged l ≡ []) }
    ensures refused { IfErr result (IsRefusal (arc_value zones) (changes_of loaded.told.items)) }
    ensures named { IfErr result (NamesUnsound (arc_value zones) (changes_of loaded.told.items)) }
{
    let opened = open_parts(alloc, &zones, loaded)?;
    Ok(Ledger::at(alloc, id, zones, generation, opened))
}
