//! The texts of what a line added to the accounts.
ghost use Rattle.std.specs.Prelude.{◌≡◌, ◌≢◌, ◌≤◌, ◌<◌, Err, IfOk, OnOk, length};
ghost use Rattle.io_edge.specs.Outside.{Rose};
ghost use Rattle.journal_keeper.specs.Journals.{FailsToKeep};
ghost use Rattle.kept_run.specs.Lines.{HasMore, MayAllGoOn, NewAreReadBack, counts, texts_behind};
ghost use Rattle.kept_run.specs.Steps.{AreWithin, HaveTurns};

use account_desk::sole_desk::SoleDesk;
use journal_keeper::keeper::{KeepError, Keeper};
use journal_keeper::kept_text::KeptText;
use journal_keeper::texts::entry_texts;
use kept_account::values::are_entry_values;
use session_doc::Site;
use spec_batch::desk::Desk;
use spec_books::book::Book;
use std::alloc::{AllocError, Global};

/// How many entries each account has.
pub(crate) fn counts_of(alloc: Global, desk: &SoleDesk) -> Result<Vec<u64>, AllocError>
    ensures { IfOk result (λ v. v.items ≡ counts desk.now.0) }
{
    let count = desk.accounts();
    let mut counts = Vec::with_capacity(alloc, count as usize)?;
    for n in 0..count {
        counts.push(desk.account(n).count())?;
    }
    Ok(counts)
}

/// Keeps the entries of the accounts behind the first so many, where there are any.
pub(crate) fn keep_new<J: Keeper>(
    alloc: Global,
    site: &Site,
    desk: &SoleDesk,
    places: &[u64],
    keeper: &mut J,
) -> Result<(), KeepError>
    requires all { length desk.now.0 ≡ length site.now.accounts }
    requires each { length places.now ≡ length site.now.accounts }
    requires within { AreWithin places.now desk.now.0 }
    requires turns { HaveTurns places.now desk.now.0 }
    ensures kept { OnOk result (HasMore (J.shown keeper.old).told (J.shown keeper.new).told (texts_behind site.now.accounts places.now desk.now.0)) }
    ensures failed { result ≡ Err KeepError.Failed → FailsToKeep (J.shown keeper.old).told (J.shown keeper.new).told (texts_behind site.now.accounts places.now desk.now.0) }
    ensures no_memory { result ≡ Err KeepError.NoMemory → (J.shown keeper.new).told ≡ (J.shown keeper.old).told }
    ensures read_back { result ≢ Err KeepError.NoMemory → NewAreReadBack places.now desk.now.0 }
    ensures go_on { result ≢ Err KeepError.NoMemory → MayAllGoOn desk.now.0 }
    ensures cause { result ≡ Err KeepError.Failed → Rose (J.shown keeper.old).faults (J.shown keeper.new).faults }
    ensures faults { (J.shown keeper.old).faults ≤ (J.shown keeper.new).faults }
    ensures damages { (J.shown keeper.new).damages ≡ (J.shown keeper.old).damages }
{
    let texts = new_texts(alloc, site, desk, places)?;
    if texts.is_empty() {
        Ok(())
    } else {
        keeper.keep(texts)
    }
}

// The texts of the entries of the accounts behind the first so many.
fn new_texts(
    alloc: Global,
    site: &Site,
    desk: &SoleDesk,
    places: &[u64],
) -> Result<Vec<KeptText>, AllocError>
    requires all { length desk.now.0 ≡ length site.now.accounts }
    requires each { length places.now ≡ length site.now.accounts }
    requires within { AreWithin places.now desk.now.0 }
    requires turns { HaveTurns places.now desk.now.0 }
    ensures texts { IfOk result (λ v. v.items ≡ texts_behind site.now.accounts places.now desk.now.0) }
    ensures read_back { OnOk result (NewAreReadBack places.now desk.now.0) }
    ensures go_on { OnOk result (MayAllGoOn desk.now.0) }
{
    desk.all_entries_are_its_own();
    let mut texts = Vec::new(alloc);
    for n in 0..site.accounts() {
        let account = desk.account(n);
        account.goes_on();
        // The desk was marked where these places were counted.
        let Some(added) = account.added_since(places[n as usize]) else {
            return Err(AllocError);
        };
        are_entry_values(added);
        let mut more = entry_texts(alloc, site.account_id(n), added)?;
        texts.append(&mut more)?;
    }
    Ok(texts)
}
