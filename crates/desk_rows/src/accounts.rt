//! Accounts without entries.
ghost use Rattle.std.specs.Prelude.{◌≡◌, [], IfOk};
ghost use Rattle.std.specs.Arc.{arc_value};

use account_core::account::Account;
use spec_json::text::Text;
use std::alloc::{AllocError, Global};
use std::sync::Arc;
use zone_table::Zones;

/// An account of this id, with no time zones beside `Etc/UTC` and no entries, in generation 0.
///
/// It stands in a box, since a function that holds one by value is proved with all its parts, at some seconds each.
pub fn open_account(alloc: Global, id: Text) -> Result<Box<Account>, AllocError>
    ensures { IfOk result (λ a. a.value ≡ (record { account_id = id; zones = []; generation = 0 }, [])) }
{
    let account = Account::open(alloc, id, no_zones(alloc)?, 0)?;
    Ok(Box::new(alloc, account)?)
}

// No zones beside `Etc/UTC`.
fn no_zones(alloc: Global) -> Result<Arc<Zones>, AllocError>
    ensures { IfOk result (λ zones. arc_value zones ≡ []) }
{
    match Zones::read(alloc, &[]) {
        Ok(zones) => Ok(Arc::new(alloc, zones)?),
        Err(_) => Err(AllocError),
    }
}
