//! How a command ended that keeps what it is told.

use crate::status::Status;
use spec_history::entry::Kind;
use spec_json::text::Text;
use std::alloc::{AllocError, AllocFailed};

/// How a command ended that keeps what it is told.
#[derive(Drop)]
pub enum KeptStatus {
    /// As a command that keeps nothing ends. Of `kept`, `Cut` comes where a line is too long, or where input follows the last line that may be answered.
    Plain(Status),
    /// The keeper failed.
    KeepFault,
    /// A text of the keeper's is no entry's.
    Damaged {
        /// The id of the account.
        account: Text,
        /// The place of the text among the account's, from 0.
        place: u64,
        /// The text.
        text: Vec<u8>,
    },
    /// The keeper has an entry of another author than the command's.
    ForeignJournal {
        /// The id of the account.
        account: Text,
        /// The place of the first such entry among the account's, from 0.
        place: u64,
    },
    /// An account doesn't go on from what the keeper has of it.
    BadJournal {
        /// The id of the account.
        account: Text,
        /// The kind of an object for which it doesn't.
        kind: Kind,
        /// The number of that.
        id: u64,
    },
}

impl From<AllocError> for KeptStatus {
    ghost use Rattle.std.specs.Prelude.{◌≡◌};
    ghost use Rattle.jmapd_run.specs.declared.status.Status.TheVariants.{NoMemory};
    ghost use Rattle.jmapd_run.specs.declared.kept_status.KeptStatus.TheVariants.{Plain};

    ghost from_gives = { λ _ status. status ≡ Plain NoMemory };

    fn from(_: AllocError) -> KeptStatus {
        KeptStatus::Plain(Status::NoMemory)
    }
}

impl<T: Drop> From<AllocFailed<T>> for KeptStatus {
    ghost use Rattle.std.specs.Prelude.{◌≡◌};
    ghost use Rattle.jmapd_run.specs.declared.status.Status.TheVariants.{NoMemory};
    ghost use Rattle.jmapd_run.specs.declared.kept_status.KeptStatus.TheVariants.{Plain};

    ghost from_gives = { λ _ status. status ≡ Plain NoMemory };

    fn from(_: AllocFailed<T>) -> KeptStatus {
        KeptStatus::Plain(Status::NoMemory)
    }
}
