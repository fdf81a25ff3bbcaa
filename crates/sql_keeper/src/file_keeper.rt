//! The keeper of one account over a database in a file.
ghost use Rattle.std.specs.Prelude.{◌≡◌, None};

use crate::sql_keeper::SqlKeeper;
use journal_keeper::keeper::{JournalError, KeepError, Keeper};
use journal_keeper::kept_text::KeptText;
use journal_keeper::loaded::Loaded;
use sqlite::{File, FileStore};

/// A keeper over a file. It stands in a box, since what holds one by value is proved with all its parts.
#[derive(Drop)]
pub struct FileKeeper {
    pub(crate) keeper: Box<SqlKeeper<FileStore<File>>>,
}

impl Keeper for FileKeeper {
    ghost shown = { λ k. record { told = None; faults = k.keeper.value.faults; damages = k.keeper.value.damages } };

    fn keep(&mut self, texts: Vec<KeptText>) -> Result<(), KeepError> {
        self.keeper.keep(texts)
    }

    fn load(&mut self, account: &str) -> Result<Loaded, JournalError> {
        self.keeper.load(account)
    }
}
