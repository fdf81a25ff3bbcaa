//! The keeper.
ghost use Rattle.std.specs.Prelude.{◌≡◌, ◌≤◌, None};
ghost use Rattle.io_edge.specs.Outside.{Rose};

use crate::insert::{Writing, insert_all};
use crate::read_back::{Trouble, read_all};
use crate::rows::{AccountRows, put_rows, rows_of};
use journal_keeper::keeper::{JournalError, KeepError, Keeper};
use journal_keeper::kept_text::KeptText;
use journal_keeper::loaded::Loaded;
use sqlite::{Alter, Connection, Error, ErrorCode, Statement};
use std::alloc::Global;

/// Keeps entries in a database, in one transaction a keep. It tells none of what it has: that is the database's.
#[derive(Drop)]
pub struct SqlKeeper<S: Alter> {
    pub(crate) alloc: Global,
    pub(crate) conn: Connection<S>,
    pub(crate) writing: Writing,
    pub(crate) selection: Statement,
    /// The rows of the accounts that were loaded, or that something was kept of.
    pub(crate) accounts: Vec<AccountRows>,
    pub(crate) is_closed: bool,
    pub(crate) faults: u64,
    pub(crate) damages: u64,
}

// Whether the database only wanted memory: nothing was changed then, and nothing failed.
fn is_no_memory(error: Error) -> bool {
    error == Error::SqliteFailure(ErrorCode::OutOfMemory)
}

// A count of what failed that is one more, or stands at its last value.
fn one_more(count: u64) -> u64
    ensures { Rose count result }
{
    count.saturating_add(1)
}

impl<S: Alter + Drop + 'static> SqlKeeper<S> {
    // Reads the rows of the accounts of these texts, where they aren't known.
    fn learn(&mut self, texts: &[KeptText]) -> Result<(), Error>
        ensures faults { self.new.faults ≡ self.old.faults }
        ensures damages { self.new.damages ≡ self.old.damages }
    {
        for text in texts {
            if rows_of(&mut self.accounts, text.account()).is_none() {
                self.learn_one(text.account())?;
            }
        }
        Ok(())
    }

    // A journal that is damaged takes nothing more.
    fn learn_one(&mut self, account: &str) -> Result<(), Error>
        ensures faults { self.new.faults ≡ self.old.faults }
        ensures damages { self.new.damages ≡ self.old.damages }
    {
        match read_all(self.alloc, &mut self.conn, &self.selection, account) {
            Ok((_, rows)) => match put_rows(&mut self.accounts, rows) {
                Ok(()) => Ok(()),
                Err(_) => Err(Error::SqliteFailure(ErrorCode::OutOfMemory)),
            },
            Err(Trouble::Base(error)) => Err(error),
            Err(Trouble::Text(JournalError::NoMemory)) => Err(Error::SqliteFailure(
                ErrorCode::OutOfMemory,
            )),
            Err(Trouble::Text(_)) => Err(Error::SqliteFailure(ErrorCode::DatabaseCorrupt)),
        }
    }

    // Keeps texts in one transaction.
    fn write(&mut self, texts: &[KeptText]) -> Result<(), Error>
        ensures faults { self.new.faults ≡ self.old.faults }
        ensures damages { self.new.damages ≡ self.old.damages }
    {
        self.learn(texts)?;
        insert_all(&mut self.conn, &self.writing, &mut self.accounts, texts)
    }
}

impl<S: Alter + Drop + 'static> Keeper for SqlKeeper<S> {
    ghost shown = { λ k. record { told = None; faults = k.faults; damages = k.damages } };

    fn keep(&mut self, texts: Vec<KeptText>) -> Result<(), KeepError> {
        if self.is_closed {
            self.faults = one_more(self.faults);
            return Err(KeepError::Failed);
        }
        match self.write(&texts) {
            Ok(()) => Ok(()),
            Err(error) => {
                // What was undone has left the rows as they were.
                self.accounts.clear();
                if is_no_memory(error) {
                    return Err(KeepError::NoMemory);
                }
                self.is_closed = true;
                self.faults = one_more(self.faults);
                Err(KeepError::Failed)
            }
        }
    }

    fn load(&mut self, account: &str) -> Result<Loaded, JournalError> {
        match read_all(self.alloc, &mut self.conn, &self.selection, account) {
            Ok((loaded, rows)) => {
                put_rows(&mut self.accounts, rows)?;
                Ok(loaded)
            }
            Err(Trouble::Text(JournalError::Damaged { place, text })) => {
                self.damages = one_more(self.damages);
                Err(JournalError::Damaged { place, text })
            }
            Err(Trouble::Text(JournalError::NoMemory)) => Err(JournalError::NoMemory),
            Err(Trouble::Text(JournalError::Failed)) => {
                self.faults = one_more(self.faults);
                Err(JournalError::Failed)
            }
            Err(Trouble::Base(error)) => {
                if is_no_memory(error) {
                    return Err(JournalError::NoMemory);
                }
                self.faults = one_more(self.faults);
                Err(JournalError::Failed)
            }
        }
    }
}
