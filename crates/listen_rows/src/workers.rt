//! One worker over a listener in memory.
ghost use Rattle.std.specs.Prelude.{IfOk};
ghost use Rattle.account_desk.specs.FreshDesk.{account_rules};
ghost use Rattle.account_desk.specs.SharedDesk.{shown_by_passes};
ghost use Rattle.jmapd_listen.specs.Listens.{IsUnused};

use crate::connections::{connections_of, failing, tell_output};
use account_core::account::Account;
use account_desk::shared_desk::SharedDesk;
use account_desk::sole_desk::fresh_accounts;
use account_lock::locked::Locked;
use io_edge::memory_clock::StillClock;
use listen_edge::memory_listener::MemListener;
use listen_workers::desks::open_desks;
use listen_workers::worker::worker;
use row_table::files::bytes_of;
use session_doc::Site;
use spec_json::tree::Tree;
use std::alloc::{AllocError, Global};
use std::sync::Wait;

/// How a worker for so many `connections` ended, for the site of the configuration `site`, how many it served, and what was written of each.
///
/// `input` has the connections, and `failing` the calls of `accept` that fail.
pub fn told<R: Wait + Copy + Drop>(
    rt: R,
    alloc: Global,
    asked: &Tree,
) -> Result<Option<String>, AllocError> {
    let (Some(configuration), Some(connections)) = (
        asked.get("site"),
        asked.number_at("connections"),
    ) else {
        return Ok(None);
    };
    let Ok(site) = Site::read(alloc, &bytes_of(alloc, configuration)?) else {
        return Ok(None);
    };
    let waiting = connections_of(alloc, asked.list_at("input").unwrap_or(&[]))?;
    let mut listener = MemListener::new(alloc, waiting, failing(alloc, asked)?)?;
    let mut desk = one_desk(alloc, rt, &site)?;
    let mut clock = StillClock { moment: 0 };
    let connections = u64::try_from(connections.get()).unwrap_or(0);
    let done = worker(
        alloc,
        &site,
        &mut listener,
        &mut desk,
        &mut clock,
        connections,
    );
    let end = done.end;
    let served = done.served;
    let mut told = format!(in alloc; "{end:?}, {served} served")?;
    for (back, number) in listener.back().iter().zip(0..) {
        tell_output(alloc, &mut told, number, &back.output)?;
    }
    Ok(Some(told))
}

/// The desk of one worker, over fresh accounts of a site.
fn one_desk<R: Wait + Copy + Drop>(
    alloc: Global,
    rt: R,
    site: &Site,
) -> Result<SharedDesk<R, Locked<Account>>, AllocError>
    ensures { IfOk result (λ desk. IsUnused site.now (shown_by_passes account_rules desk)) }
{
    let mut desks = open_desks(alloc, rt, fresh_accounts(alloc, site)?, 1)?;
    Ok(desks.remove(0))
}
