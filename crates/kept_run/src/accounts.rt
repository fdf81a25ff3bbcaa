//! The accounts of a site that go on from what a keeper has of them.
ghost use Rattle.std.specs.Prelude.{◌≡◌, ◌<◌, ◌^◌, All, IfErr, IfNone, IfOk, IfSome, List, None, Some, length, slice_index_or};
ghost use Rattle.kept_run.specs.Opened.{AreOpened, foreign_place};
ghost use Rattle.kept_run.specs.Steps.{IsLoad, AccountLoadHow, NotOpened, OpenHow, TellsOf};
ghost use Rattle.spec_history.specs.Signed.{written_by};
ghost use Rattle.spec_history.specs.declared.entry.Entry.{Entry as AnyEntry};
ghost use Rattle.spec_site.specs.Configuration.{SiteAccount};
ghost use Rattle.spec_snapshots.specs.Kept.{IsKeptFrom};

use account_core::account::Account;
use account_opening::OpeningError;
use jmapd_run::kept_status::KeptStatus;
use jmapd_run::status::Status;
use journal_keeper::keeper::{JournalError, Keeper};
use journal_keeper::loaded::Loaded;
use session_doc::Site;
use spec_history::entry::Entry;
use spec_json::text::Text;
use spec_snapshots::kept::KeptHistory;
use std::alloc::Global;
use std::sync::Arc;

/// The accounts of a site, in its order, each with the entries that the keeper has of it, or why one doesn't open.
///
/// One account is loaded and opened after the other. Takes memory for their entries.
pub fn open_accounts<J: Keeper>(
    alloc: Global,
    site: &Site,
    keeper: &mut J,
) -> Result<Vec<Account>, KeptStatus>
    ensures loads { IsLoad (J.shown keeper.old) (J.shown keeper.new) }
    ensures opened { IfOk result (λ v. AreOpened site.now (J.shown keeper.old).told v.items) }
    ensures own { IfOk result (λ v. All (λ a. written_by 0 a.1 ≡ a.1) v.items) }
    ensures few { IfOk result (λ v. length v.items < 2 ^ 32) }
    ensures undamaged { IfOk result (λ v. (J.shown keeper.new).damages ≡ (J.shown keeper.old).damages) }
    ensures refused { IfErr result (NotOpened site.now (J.shown keeper.old) (J.shown keeper.new)) }
{
    let count = site.accounts();
    let mut accounts = Vec::with_capacity(alloc, count as usize)?;
    for n in 0..count {
        let account = load_account(alloc, site, n, keeper)?;
        accounts.push(account)?;
    }
    Ok(accounts)
}

// The account of a number, with the entries that the keeper has of it.
fn load_account<J: Keeper>(
    alloc: Global,
    site: &Site,
    n: u32,
    keeper: &mut J,
) -> Result<Account, KeptStatus>
    requires { n < length site.now.accounts }
    ensures loads { IsLoad (J.shown keeper.old) (J.shown keeper.new) }
    ensures how { (d : SiteAccount) → AccountLoadHow site.now (slice_index_or site.now.accounts n d).id (J.shown keeper.old) (J.shown keeper.new) result }
{
    let id = site.account_id(n);
    match keeper.load(id.as_str()) {
        Ok(loaded) => account_at(alloc, site, id, loaded),
        Err(JournalError::Failed) => Err(KeptStatus::KeepFault),
        Err(JournalError::Damaged { place, text }) => Err(KeptStatus::Damaged {
            account: id.copy()?,
            place,
            text,
        }),
        Err(JournalError::NoMemory) => Err(KeptStatus::Plain(Status::NoMemory)),
    }
}

// The account of an id, where it goes on from what is kept of its history.
fn account_at(alloc: Global, site: &Site, id: &Text, loaded: Loaded) -> Result<Account, KeptStatus>
    requires { IsKeptFrom loaded.told.items loaded.kept }
    ensures { OpenHow site.now id.now loaded.told.items result }
{
    if let Some(place) = foreign_place(&loaded.kept) {
        return Err(foreign_journal(id, place));
    }
    let zones = Arc::try_clone(site.zones())?;
    match Account::open_at(alloc, id.copy()?, zones, site.generation(), loaded) {
        Ok(account) => Ok(account),
        Err(OpeningError::BadObject { kind, id: number }) => Err(KeptStatus::BadJournal {
            account: id.copy()?,
            kind,
            id: number,
        }),
        Err(OpeningError::NoMemory) => Err(KeptStatus::Plain(Status::NoMemory)),
    }
}

// That an account has an entry of another author at a place, or that there is no memory to tell it.
fn foreign_journal(id: &Text, place: u64) -> KeptStatus
    ensures { TellsOf id.now place result }
{
    match id.copy() {
        Ok(account) => KeptStatus::ForeignJournal { account, place },
        Err(_) => KeptStatus::Plain(Status::NoMemory),
    }
}

// The place of the first entry of another author than the desk's, where a number tells it. What isn't kept any more counts as the desk's own.
fn foreign_place(kept: &KeptHistory) -> Option<u64>
    ensures some { IfSome result (λ place. (h : List AnyEntry) → IsKeptFrom h kept.now → foreign_place h ≡ Some place) }
    ensures none { IfNone result ((h : List AnyEntry) → IsKeptFrom h kept.now → length h < 2 ^ 64 → foreign_place h ≡ None) }
{
    let place = place_of_foreign(&kept.behind)?;
    let front = kept.calendars.state.checked_add(kept.events.state)?;
    front.checked_add(place as u64)
}

fn place_of_foreign(list: &[Entry]) -> Option<usize>
    ensures { result ≡ foreign_place list.now }
{
    list.iter().position(|entry| entry.author != 0)
}
