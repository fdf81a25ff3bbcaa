//! The journals of accounts in a folder.
ghost use Rattle.std.specs.Prelude.{◌≡◌, ◌<◌, ◌≤◌, ◌^◌, ◌++◌, All, IfErr, IfOk, None, codes, length, map, slice_index_or, string_bytes};
ghost use Rattle.account_desk.specs.FreshDesk.{bases};
ghost use Rattle.cal_model.specs.GoesOn.{GoesOn};
ghost use Rattle.io_edge.specs.Outside.{Rose};
ghost use Rattle.jmapd.specs.Untold.{untold};
ghost use Rattle.jmapd_listen.specs.Offices.{OpensNone};
ghost use Rattle.kept_account.specs.Opened.{OpensNot};
ghost use Rattle.kept_run.specs.Steps.{account_base};
ghost use Rattle.spec_history.specs.History.{changes_of};
ghost use Rattle.spec_site.specs.Configuration.{SiteAccount};

use crate::lock::{FileAccount, FileLock};
use crate::unclaimed::tell_unclaimed;
use crate::unopened::tell_unopened;
use account_desk::shared_desk::SharedDesk;
use jmapd_listen::office::Office;
use jmapd_run::kept_status::KeptStatus;
use jmapd_run::status::Status;
use kept_account::open::{UnopenedAccount, open_kept};
use listen_workers::desks::open_desks;
use session_doc::Site;
use spec_json::text::Text;
use sql_keeper::open::{OpenError, open_account};
use std::alloc::{AllocError, Global};
use std::sync::{Arc, Wait};

/// A folder with the journals of accounts, each in a file of its own, whose name is the account's id with `.db`.
///
/// It tells nothing of what the files have. It counts what fails, and the damaged texts that it comes upon. It has the handle by which the calls of its desks wait for their turn.
#[derive(Drop)]
pub struct JournalFolder<'a, W> {
    rt: HostRuntime,
    runtime: W,
    name: &'a str,
    faults: u64,
    damages: u64,
}

impl<'a, W: Wait + Copy + Send + Drop + 'static> JournalFolder<'a, W> {
    /// The folder of this name. Takes no memory, and touches no file.
    pub fn new(rt: HostRuntime, runtime: W, name: &'a str) -> JournalFolder<'a, W> {
        JournalFolder {
            rt,
            runtime,
            name,
            faults: 0,
            damages: 0,
        }
    }
}

impl<'a, W: Wait + Copy + Send + Drop + 'static> Office for JournalFolder<'a, W> {
    type D = SharedDesk<W, FileLock>;

    ghost shown = { λ f. untold f.faults f.damages };

    fn desks(
        &mut self,
        alloc: Global,
        site: &Site,
        workers: u32,
    ) -> Result<Vec<SharedDesk<W, FileLock>>, KeptStatus> {
        tell_unclaimed(&self.rt, self.name, site);
        let accounts = open_accounts(
            alloc,
            &self.rt,
            self.name,
            site,
            &mut self.faults,
            &mut self.damages,
        )?;
        let desks = open_desks(alloc, self.runtime, accounts, workers)?;
        Ok(desks)
    }
}

// A count of what failed that is one more, or stands at its last value.
fn rise(count: &mut u64)
    ensures rose { Rose count.old count.new }
    ensures later { count.old ≤ count.new }
{
    *count = count.saturating_add(1);
}

// The accounts of a site, in its order, each at the entries of its file.
fn open_accounts(
    alloc: Global,
    rt: &HostRuntime,
    folder: &str,
    site: &Site,
    faults: &mut u64,
    damages: &mut u64,
) -> Result<Vec<FileAccount>, KeptStatus>
    ensures bases { IfOk result (λ v. map (λ a. a.0) v.items ≡ bases site.now) }
    ensures few { IfOk result (λ v. length v.items < 2 ^ 32) }
    ensures go_on { IfOk result (λ v. All (λ a. GoesOn a.0.zones (changes_of a.1)) v.items) }
    ensures refused { IfErr result (OpensNone site.now (untold faults.old damages.old) (untold faults.new damages.new)) }
{
    let count = site.accounts();
    let mut accounts = Vec::with_capacity(alloc, count as usize)?;
    for n in 0..count {
        let account = open_one(alloc, rt, folder, site, n, faults, damages)?;
        accounts.push_reserved(account);
    }
    Ok(accounts)
}

// The account of a number of a site, at the entries of its file.
fn open_one(
    alloc: Global,
    rt: &HostRuntime,
    folder: &str,
    site: &Site,
    n: u32,
    faults: &mut u64,
    damages: &mut u64,
) -> Result<FileAccount, KeptStatus>
    requires { n < length site.now.accounts }
    ensures base { IfOk result (λ a. (d : SiteAccount) → a.0 ≡ account_base site.now (slice_index_or site.now.accounts n d).id) }
    ensures goes_on { IfOk result (λ a. GoesOn a.0.zones (changes_of a.1)) }
    ensures refused { IfErr result (OpensNone site.now (untold faults.old damages.old) (untold faults.new damages.new)) }
    ensures later { (faults.old ≤ faults.new) × (damages.old ≤ damages.new) }
{
    let id = site.account_id(n).copy()?;
    let zones = Arc::try_clone(site.zones())?;
    let name = file_name(alloc, folder, &id)?;
    match open_account(rt, name.as_str(), id.as_str()) {
        Ok(keeper) => match open_kept(alloc, id, zones, site.generation(), keeper) {
            Ok(account) => Ok(account),
            Err(error) => Err(not_opened(site, n, error, faults, damages)),
        },
        Err(OpenError::NoMemory) => Err(KeptStatus::Plain(Status::NoMemory)),
        Err(error) => {
            tell_unopened(rt, error, name.as_str());
            rise(faults);
            Err(KeptStatus::Plain(Status::OpenFault))
        }
    }
}

// The status that tells why the account of a number of a site doesn't open at what its keeper has of it.
fn not_opened(
    site: &Site,
    n: u32,
    error: UnopenedAccount,
    faults: &mut u64,
    damages: &mut u64,
) -> KeptStatus
    requires within { n < length site.now.accounts }
    requires why { (d : SiteAccount) → OpensNot None (account_base site.now (slice_index_or site.now.accounts n d).id) error }
    ensures refused { OpensNone site.now (untold faults.old damages.old) (untold faults.new damages.new) result }
    ensures later { (faults.old ≤ faults.new) × (damages.old ≤ damages.new) }
{
    let Ok(account) = site.account_id(n).copy() else {
        return KeptStatus::Plain(Status::NoMemory);
    };
    match error {
        UnopenedAccount::Failed => {
            rise(faults);
            KeptStatus::KeepFault
        }
        UnopenedAccount::Damaged { place, text } => {
            rise(damages);
            KeptStatus::Damaged {
                account,
                place,
                text,
            }
        }
        UnopenedAccount::BadObject { kind, id } => KeptStatus::BadJournal { account, kind, id },
        UnopenedAccount::NoMemory => KeptStatus::Plain(Status::NoMemory),
    }
}

// The name of the file of an account.
fn file_name(alloc: Global, folder: &str, id: &Text) -> Result<String, AllocError>
    ensures { IfOk result (λ name. string_bytes name ≡ folder.now ++ codes "/" ++ id.now ++ codes ".db") }
{
    let mut name = String::from_str(alloc, folder)?;
    name.push_str("/")?;
    name.push_str(id.as_str())?;
    name.push_str(".db")?;
    Ok(name)
}
