//! What keeps the histories of accounts.
ghost use Rattle.std.specs.Prelude.{◌≡◌, ◌≢◌, ◌≤◌, Err, IfErr, IfOk, OnOk};
ghost use Rattle.io_edge.specs.Outside.{Rose};
ghost use Rattle.journal_keeper.specs.EntryText.{IsNoEntryText};
ghost use Rattle.journal_keeper.specs.Journals.{FailsToKeep, HasDamage, KeeperShown, Keeps, Lists};
ghost use Rattle.spec_snapshots.specs.Kept.{IsKeptFrom};

use crate::kept_text::KeptText;
use crate::loaded::Loaded;
use std::alloc::{AllocError, AllocFailed};

/// Why texts weren't kept.
#[derive(Clone, Copy, Debug, PartialEq, Eq)]
pub enum KeepError {
    /// The keeper failed. A stop may leave all of the texts, or none.
    Failed,
    /// Memory was wanted.
    NoMemory,
}

impl From<AllocError> for KeepError {
    ghost use Rattle.std.specs.Prelude.{◌≡◌};
    ghost use Rattle.journal_keeper.specs.declared.keeper.KeepError.TheVariants.{NoMemory};

    ghost from_gives = { λ _ e. e ≡ NoMemory };

    fn from(_: AllocError) -> KeepError {
        KeepError::NoMemory
    }
}

/// Why the history of an account wasn't loaded.
#[derive(Drop)]
pub enum JournalError {
    /// The keeper failed.
    Failed,
    /// A text that it has is no entry's.
    Damaged {
        /// Its place among the account's texts, from 0.
        place: u64,
        /// The text. It is empty where the keeper has none at that place.
        text: Vec<u8>,
    },
    /// Memory was wanted.
    NoMemory,
}

impl From<AllocError> for JournalError {
    ghost use Rattle.std.specs.Prelude.{◌≡◌};
    ghost use Rattle.journal_keeper.specs.declared.keeper.JournalError.TheVariants.{NoMemory};

    ghost from_gives = { λ _ e. e ≡ NoMemory };

    fn from(_: AllocError) -> JournalError {
        JournalError::NoMemory
    }
}

impl<T: Drop> From<AllocFailed<T>> for JournalError {
    ghost use Rattle.std.specs.Prelude.{◌≡◌};
    ghost use Rattle.journal_keeper.specs.declared.keeper.JournalError.TheVariants.{NoMemory};

    ghost from_gives = { λ _ e. e ≡ NoMemory };

    fn from(_: AllocFailed<T>) -> JournalError {
        JournalError::NoMemory
    }
}

/// Keeps the texts of the entries of accounts over a stop of the process, and gives the entries back.
///
/// Contracts see its counts of faults and of damages and, where it tells them, the texts that it has, and those that a stop may leave behind them.
pub trait Keeper: Drop + 'static {
    ghost shown: { Self → KeeperShown };

    /// Keeps these texts behind those that it has, all of them or none. Once this has returned, a stop leaves them.
    ///
    /// Where it fails, a stop may leave all of them or none; as nothing may come behind what is in doubt, such a keeper then fails at every keep.
    /// After want of memory it is as before.
    fn keep(&mut self, texts: Vec<KeptText>) -> Result<(), KeepError>
        ensures kept { OnOk result (Keeps (shown self.old).told (shown self.new).told texts.items) }
        ensures failed { result ≡ Err KeepError.Failed → FailsToKeep (shown self.old).told (shown self.new).told texts.items }
        ensures no_memory { result ≡ Err KeepError.NoMemory → (shown self.new).told ≡ (shown self.old).told }
        ensures cause { result ≡ Err KeepError.Failed → Rose (shown self.old).faults (shown self.new).faults }
        ensures faults { (shown self.old).faults ≤ (shown self.new).faults }
        ensures damages { (shown self.new).damages ≡ (shown self.old).damages };

    /// What it has of the history of the account of this id: what the first entries left, and all entries behind them, in the order in which they were kept.
    ///
    /// Takes memory for that, and for one text at a time.
    fn load(&mut self, account: &str) -> Result<Loaded, JournalError>
        ensures same { (shown self.new).told ≡ (shown self.old).told }
        ensures list { IfOk result (λ loaded. Lists (shown self.old).told account.now loaded.told.items) }
        ensures kept { IfOk result (λ loaded. IsKeptFrom loaded.told.items loaded.kept) }
        ensures first { IfErr result (λ e. (place : _) (text : _) → e ≡ JournalError.Damaged place text → HasDamage (shown self.old).told account.now place text.items) }
        ensures damaged { IfErr result (λ e. (place : _) (text : _) → e ≡ JournalError.Damaged place text → IsNoEntryText text.items) }
        ensures counted { IfErr result (λ e. (place : _) (text : _) → e ≡ JournalError.Damaged place text → Rose (shown self.old).damages (shown self.new).damages) }
        ensures cause { IfErr result (λ e. e ≡ JournalError.Failed → Rose (shown self.old).faults (shown self.new).faults) }
        ensures faults { (shown self.old).faults ≤ (shown self.new).faults }
        ensures damages { (shown self.old).damages ≤ (shown self.new).damages }
        ensures undamaged { ((place : _) (text : _) → result ≢ Err (JournalError.Damaged place text)) → (shown self.new).damages ≡ (shown self.old).damages };
}
