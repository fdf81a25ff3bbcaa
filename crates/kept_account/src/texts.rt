//! The texts of the entries that the changes of a call become.
ghost use Rattle.std.specs.Prelude.{◌≡◌, ◌≤◌, ◌^◌, ◌++◌, IfOk, List, None, OnOk, length, map};
ghost use Rattle.account_core.specs.Staged.{MayBeKept};
ghost use Rattle.cal_model.specs.Answer.{entries_from};
ghost use Rattle.journal_keeper.specs.EntryText.{entry_text};
ghost use Rattle.journal_keeper.specs.Journals.{AreEntriesOf, AreKeepable, labelled};
ghost use Rattle.spec_history.specs.MostTurns.{most_turns};
ghost use Rattle.spec_history.specs.declared.entry.Entry.{Entry};
ghost use Rattle.spec_site.specs.TimeZones.{ZoneText};

use crate::values::are_change_values;
use journal_keeper::kept_text::{KeptText, Mark};
use journal_keeper::write::change_text;
use spec_history::entry::Change;
use spec_history::stamp::Stamp;
use spec_json::text::Text;
use std::alloc::{AllocError, Global};

/// The texts of the entries of an account that changes become from which it goes on behind those of its history: each is read back as its entry.
pub(crate) fn sound_texts(
    alloc: Global,
    account: &Text,
    stamp: &Stamp,
    changes: &[Change],
) -> Result<Vec<KeptText>, AllocError>
    requires turn { stamp.now.turn ≤ most_turns }
    requires parts { length changes.now ≤ 2 ^ 32 }
    ensures texts { IfOk result (λ v. v.items ≡ labelled account.now (entries_from stamp.now 0 changes.now)) }
    ensures read_back { OnOk result ((zones : List ZoneText) (h : List Entry) → MayBeKept zones h changes.now
        → AreEntriesOf (entries_from stamp.now 0 changes.now) (map entry_text (entries_from stamp.now 0 changes.now))) }
{
    are_change_values(changes);
    let _author = stamp.author;
    let _moment = stamp.moment.seconds();
    call_texts(alloc, account, stamp, changes)
}

// The texts of the entries of an account that changes become.
fn call_texts(
    alloc: Global,
    account: &Text,
    stamp: &Stamp,
    changes: &[Change],
) -> Result<Vec<KeptText>, AllocError>
    requires parts { length changes.now ≤ 2 ^ 32 }
    ensures texts { IfOk result (λ v. v.items ≡ labelled account.now (entries_from stamp.now 0 changes.now)) }
    ensures read_back { OnOk result (AreKeepable (entries_from stamp.now 0 changes.now) → AreEntriesOf (entries_from stamp.now 0 changes.now) (map entry_text (entries_from stamp.now 0 changes.now))) }
{
    let mut texts = Vec::with_capacity(alloc, changes.len())?;
    let mut part: u64 = 0;
    for change in changes {
        let text = change_text(alloc, stamp, part as u32, change)?;
        texts.push(KeptText::new(account.copy()?, Mark::of(change), text))?;
        part += 1;
    }
    Ok(texts)
}
