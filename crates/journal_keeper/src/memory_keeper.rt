//! A keeper in memory.
ghost use Rattle.std.specs.Prelude.{◌≡◌, ◌≢◌, IfErr, IfOk, Some};
ghost use Rattle.std.specs.Str.{bytes_eq};
ghost use Rattle.journal_keeper.specs.EntryText.{IsNoEntryText};
ghost use Rattle.journal_keeper.specs.Journals.{AreEntriesOf, IsFirstDamaged, settled, texts_of};

use crate::keeper::{JournalError, KeepError, Keeper};
use crate::kept_text::KeptText;
use crate::loaded::{Loaded, whole_history};
use crate::texts::take_text;
use io_edge::failing_calls::FailingCalls;
use spec_history::entry::Entry;
use std::alloc::Global;

/// Has texts in memory, and fails at the calls that it lists, of both kinds, counted from 0.
#[derive(Drop)]
pub struct MemKeeper {
    alloc: Global,
    texts: Vec<KeptText>,
    doubt: Vec<KeptText>,
    failing: FailingCalls,
    leaves: bool,
    faults: u64,
    damages: u64,
}

impl MemKeeper {
    /// A keeper that has these texts. Takes no memory. `leaves` says whether what a failing keep was given may be found after a stop.
    pub fn new(alloc: Global, texts: Vec<KeptText>, failing: Vec<u64>, leaves: bool) -> MemKeeper
        ensures { (⟦<MemKeeper as Keeper>⟧.shown result).told ≡ Some (settled texts.items) }
    {
        MemKeeper {
            alloc,
            texts,
            doubt: Vec::new(alloc),
            failing: FailingCalls::new(failing),
            leaves,
            faults: 0,
            damages: 0,
        }
    }
}

impl Keeper for MemKeeper {
    ghost shown = { λ k. record { told = Some (record { texts = k.texts.items; doubt = k.doubt.items }); faults = k.faults; damages = k.damages } };

    fn keep(&mut self, texts: Vec<KeptText>) -> Result<(), KeepError> {
        let fails = self.failing.next_fails();
        if !self.doubt.is_empty() {
            self.faults = self.faults.saturating_add(1);
            return Err(KeepError::Failed);
        }
        if fails {
            self.faults = self.faults.saturating_add(1);
            if self.leaves {
                self.doubt = texts;
            }
            return Err(KeepError::Failed);
        }
        let mut texts = texts;
        self.texts.append(&mut texts)?;
        Ok(())
    }

    fn load(&mut self, account: &str) -> Result<Loaded, JournalError> {
        if self.failing.next_fails() {
            self.faults = self.faults.saturating_add(1);
            return Err(JournalError::Failed);
        }
        match entries_of(self.alloc, &self.texts, account) {
            Err(JournalError::Damaged { place, text }) => {
                self.damages = self.damages.saturating_add(1);
                Err(JournalError::Damaged { place, text })
            }
            Err(error) => Err(error),
            Ok(entries) => Ok(whole_history(self.alloc, entries)),
        }
    }
}

fn is_of(text: &KeptText, account: &str) -> bool
    ensures { result ≡ bytes_eq text.now.0 account.now }
{
    text.account() == account
}

// The entries of an account's texts, or the first that is none's.
fn entries_of(alloc: Global, texts: &[KeptText], account: &str) -> Result<Vec<Entry>, JournalError>
    ensures list { IfOk result (λ list. AreEntriesOf list.items (texts_of account.now texts.now)) }
    ensures first { IfErr result (λ e. (place : _) (text : _) → e ≡ JournalError.Damaged place text → IsFirstDamaged (texts_of account.now texts.now) place text.items) }
    ensures damaged { IfErr result (λ e. (place : _) (text : _) → e ≡ JournalError.Damaged place text → IsNoEntryText text.items) }
    ensures other { IfErr result (λ e. e ≢ JournalError.Failed) }
{
    let mut list = Vec::new(alloc);
    for text in texts {
        if is_of(text, account) {
            match take_text(alloc, &mut list, text.text()) {
                Ok(()) => {}
                Err(error) => return Err(error),
            }
        }
    }
    Ok(list)
}
