//! How an account is opened at what its keeper has of it.
ghost use Rattle.std.specs.Arc.{arc_value};
ghost use Rattle.std.specs.Prelude.{◌≡◌, IfErr, IfOk};
ghost use Rattle.journal_keeper.specs.Journals.{IsSettled};
ghost use Rattle.kept_account.specs.Opened.{IsKept, OpensNot};
ghost use Rattle.spec_history.specs.Base.{Base};

use crate::account::KeptAccount;
use account_opening::OpeningError;
use journal_keeper::keeper::{JournalError, Keeper};
use spec_history::entry::Kind;
use spec_json::text::Text;
use std::alloc::{AllocError, Global};
use std::sync::Arc;
use zone_table::Zones;

/// Why an account doesn't open at what its keeper has of it.
#[derive(Drop)]
pub enum UnopenedAccount {
    /// The keeper failed.
    Failed,
    /// A text of the keeper's is no entry's.
    Damaged {
        /// The place of the text among the account's, from 0.
        place: u64,
        /// The text.
        text: Vec<u8>,
    },
    /// No account goes on from the entries, for this object.
    BadObject {
        /// Its kind.
        kind: Kind,
        /// Its number.
        id: u64,
    },
    /// There was no memory.
    NoMemory,
}

impl From<AllocError> for UnopenedAccount {
    ghost use Rattle.kept_account.specs.declared.open.UnopenedAccount.TheVariants.{NoMemory};

    ghost from_gives = { λ _ error. error ≡ NoMemory };

    fn from(_: AllocError) -> UnopenedAccount {
        UnopenedAccount::NoMemory
    }
}

/// The account of this id, with these zones, in this generation of the data, that goes on from what its keeper has of it. The keeper was just opened, so that nothing
/// is in doubt of it.
///
/// Takes memory for the entries, and for what an account keeps of them.
pub fn open_kept<K: Keeper>(
    alloc: Global,
    id: Text,
    zones: Arc<Zones>,
    generation: u64,
    keeper: K,
) -> Result<KeptAccount<K>, UnopenedAccount>
    requires { IsSettled (K.shown keeper).told }
    ensures opened { IfOk result (IsKept (K.shown keeper).told (record { account_id = id; zones = arc_value zones; generation = generation })) }
    ensures refused { IfErr result (OpensNot (K.shown keeper).told (record { account_id = id; zones = arc_value zones; generation = generation })) }
{
    let mut keeper = keeper;
    match keeper.load(id.as_str()) {
        Ok(loaded) => match KeptAccount::open_at(alloc, id, zones, generation, loaded, keeper) {
            Ok(account) => Ok(account),
            Err(OpeningError::BadObject { kind, id }) => Err(UnopenedAccount::BadObject {
                kind,
                id,
            }),
            Err(OpeningError::NoMemory) => Err(UnopenedAccount::NoMemory),
        },
        Err(JournalError::Failed) => Err(UnopenedAccount::Failed),
        Err(JournalError::Damaged { place, text }) => Err(UnopenedAccount::Damaged { place, text }),
        Err(JournalError::NoMemory) => Err(UnopenedAccount::NoMemory),
    }
}
