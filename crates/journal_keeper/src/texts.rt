//! The texts of many entries: written one behind the other, and read one after the other.
ghost use Rattle.std.specs.Prelude.{◌≡◌, ◌≢◌, ◌++◌, ◌∷◌, [], Err, IfErr, IfOk, OnOk, length, map};
ghost use Rattle.journal_keeper.specs.EntryText.{IsEntryText, IsNoEntryText, entry_text};
ghost use Rattle.journal_keeper.specs.Journals.{AreEntriesOf, AreKeepable, labelled};
ghost use Rattle.spec_history.specs.declared.entry.Entry.{Entry as AnyEntry};

use crate::keeper::JournalError;
use crate::kept_text::{KeptText, Mark};
use crate::read::{TextError, read_entry};
use crate::write::entry_text;
use spec_history::entry::Entry;
use spec_json::text::Text;
use std::alloc::{AllocError, Global};

/// The texts of these entries of an account, in order, as a keeper takes them.
#[tactic(auto, using(crate::proofs::ManyTexts::labelled_more, crate::proofs::ManyTexts::written_more))]
pub fn entry_texts(
    alloc: Global,
    account: &Text,
    entries: &[Entry],
) -> Result<Vec<KeptText>, AllocError>
    ensures texts { IfOk result (λ v. v.items ≡ labelled account.now entries.now) }
    ensures read_back { OnOk result (AreKeepable entries.now → AreEntriesOf entries.now (map entry_text entries.now)) }
{
    let mut texts = Vec::with_capacity(alloc, entries.len())?;
    for entry in entries {
        let text = entry_text(alloc, entry)?;
        texts.push(KeptText::new(account.copy()?, Mark::of(&entry.change), text))?;
    }
    Ok(texts)
}

/// Reads one more text of an account, and puts its entry behind those of the texts before it. Takes memory for the entry, and until it returns for a copy.
///
/// A text that is no entry's is `Damaged`, and `Failed` never comes.
pub fn take_text(alloc: Global, entries: &mut Vec<Entry>, text: &[u8]) -> Result<(), JournalError>
    ensures entry { OnOk result ((e : AnyEntry) × IsEntryText e text.now × (entries.new.items ≡ entries.old.items ++ e ∷ [])) }
    ensures place { IfErr result (λ e. (place : _) (bad : _) → e ≡ JournalError.Damaged place bad → place ≡ length entries.old.items) }
    ensures text { IfErr result (λ e. (place : _) (bad : _) → e ≡ JournalError.Damaged place bad → bad.items ≡ text.now) }
    ensures damaged { IfErr result (λ e. (place : _) (bad : _) → e ≡ JournalError.Damaged place bad → IsNoEntryText text.now) }
    ensures other { IfErr result (λ e. e ≢ JournalError.Failed) }
{
    let entry = entry_at(alloc, entries.len() as u64, text)?;
    entries.push(entry)?;
    Ok(())
}

/// Reads the text of an account at a place. Takes memory for the entry, and until it returns for a copy.
///
/// A text that is no entry's is `Damaged`, and `Failed` never comes.
pub fn entry_at(alloc: Global, place: u64, text: &[u8]) -> Result<Entry, JournalError>
    ensures entry { IfOk result (λ e. IsEntryText e text.now) }
    ensures place { IfErr result (λ e. (at : _) (bad : _) → e ≡ JournalError.Damaged at bad → at ≡ place) }
    ensures text { IfErr result (λ e. (at : _) (bad : _) → e ≡ JournalError.Damaged at bad → bad.items ≡ text.now) }
    ensures damaged { IfErr result (λ e. (at : _) (bad : _) → e ≡ JournalError.Damaged at bad → IsNoEntryText text.now) }
    ensures other { IfErr result (λ e. e ≢ JournalError.Failed) }
{
    match read_entry(alloc, text) {
        Ok(entry) => Ok(entry),
        Err(TextError::NoMemory) => Err(JournalError::NoMemory),
        Err(TextError::BadText) => Err(JournalError::Damaged {
            place,
            text: text.to_vec(alloc)?,
        }),
    }
}

/// That an account has no text at a place where one must be: the damaged text is empty. Takes no memory.
#[tactic(auto, using(crate::proofs::ManyTexts::no_empty_text))]
pub fn missing_text(alloc: Global, place: u64) -> JournalError
    ensures damaged { (at : _) (text : _) → result ≡ JournalError.Damaged at text → IsNoEntryText text.items }
    ensures place { (at : _) (text : _) → result ≡ JournalError.Damaged at text → at ≡ place }
    ensures other { result ≢ JournalError.Failed }
    ensures memory { result ≢ JournalError.NoMemory }
{
    JournalError::Damaged {
        place,
        text: Vec::new(alloc),
    }
}
