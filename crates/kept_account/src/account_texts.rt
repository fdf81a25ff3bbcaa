//! The keeper of the entries of one account.
ghost use Rattle.std.specs.Prelude.{◌≡◌, Some};
ghost use Rattle.cal_model.specs.Answer.{unkept_answer};
ghost use Rattle.kept_account.specs.HasKept.{HasKept};

use crate::texts::sound_texts;
use account_core::keeping::EntryKeeper;
use journal_keeper::keeper::{KeepError, Keeper};
use spec_history::entry::Change;
use spec_history::stamp::Stamp;
use spec_json::text::Text;
use std::alloc::Global;

/// The most calls of one author, whose entries have texts.
const MAX_TURNS: u64 = 1 << 40;

/// A keeper, with the id of the account whose entries it is given here.
#[derive(Drop)]
pub(crate) struct AccountTexts<K: Keeper> {
    pub(crate) alloc: Global,
    pub(crate) id: Text,
    pub(crate) keeper: K,
}

impl<K: Keeper> EntryKeeper for AccountTexts<K> {
    ghost unkept = { Some unkept_answer };

    ghost has = { λ t base h. (t.id ≡ base.account_id) × HasKept (K.shown t.keeper).told base h };

    fn keep(&mut self, stamp: &Stamp, changes: &[Change]) -> Result<(), KeepError> {
        if changes.is_empty() {
            return Ok(());
        }
        if stamp.turn > MAX_TURNS {
            return Err(KeepError::Failed);
        }
        let texts = sound_texts(self.alloc, &self.id, stamp, changes)?;
        self.keeper.keep(texts)
    }
}
