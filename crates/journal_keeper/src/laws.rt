//! The laws of the texts of entries.
ghost use Rattle.std.specs.Prelude.{◌≡◌, ◌≢◌, ℕ, Err, IfOk, List};
ghost use Rattle.journal_keeper.specs.EntryText.{IsEntryText, IsKeepable};
ghost use Rattle.journal_keeper.specs.Journals.{AreEntriesOf};
ghost use Rattle.spec_history.specs.declared.entry.Entry.{Entry as AnyEntry};

use crate::read::{TextError, read_entry};
use crate::write::entry_text;
use spec_history::entry::Entry;
use std::alloc::Global;

/// A text is that of one entry alone.
#[tactic(auto, using(crate::proofs::OneEntry::one_entry))]
pub fn texts_have_one_entry()
    ensures { (e f : AnyEntry) (bytes : List ℕ) → IsEntryText e bytes → IsEntryText f bytes → e ≡ f }
{}

/// Texts are those of one list of entries alone: where a keeper tells what it has, each account has one list.
#[tactic(auto, using(crate::proofs::OneEntry::one_list))]
pub fn texts_have_one_list()
    ensures { (es fs : List AnyEntry) (texts : List (List ℕ)) → AreEntriesOf es texts → AreEntriesOf fs texts → es ≡ fs }
{}

/// What was written is read: an entry comes back from its text.
#[tactic(auto, using(crate::proofs::OneEntry::one_entry))]
pub fn written_entries_are_read(alloc: Global, entry: &Entry) -> Result<Entry, TextError>
    requires { IsKeepable entry.now }
    ensures entry { IfOk result (λ e. e ≡ entry.now) }
    ensures good { result ≢ Err TextError.BadText }
{
    let text = entry_text(alloc, entry)?;
    read_entry(alloc, text.as_slice())
}

/// What was read is written again to the same bytes.
pub fn read_entries_are_written(alloc: Global, bytes: &[u8]) -> Result<Vec<u8>, TextError>
    ensures { IfOk result (λ v. v.items ≡ bytes.now) }
{
    let entry = read_entry(alloc, bytes)?;
    Ok(entry_text(alloc, &entry)?)
}
