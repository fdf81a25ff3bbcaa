//! Runs of `listen` over hosts in memory.
ghost use Rattle.std.specs.Prelude.{◌≡◌, ◌≤◌, All, IfOk, length};
ghost use Rattle.account_desk.specs.FreshDesk.{account_rules};
ghost use Rattle.account_desk.specs.SharedDesk.{shown_by_passes};
ghost use Rattle.jmapd_listen.specs.Listens.{IsUnused};

use crate::connections::{connections_of, failing, tell_output};
use crate::gated::{GatedLock, gated_accounts};
use crate::meeting::Meeting;
use crate::sockets::{socket_host, tell_socket};
use account_desk::shared_desk::SharedDesk;
use command_line::command::{Command, read_command};
use io_edge::memory_clock::StillClock;
use io_edge::memory_opener::MemOpener;
use io_edge::memory_sink::MemSink;
use io_edge::memory_source::MemSource;
use jmapd_listen::listen::serve_site;
use jmapd_listen::program::run_program;
use jmapd_run::start::load_site;
use jmapd_run::status::Status;
use listen_edge::in_place::InPlace;
use listen_edge::memory_host::MemHost;
use listen_edge::real_threads::RealThreads;
use listen_edge::spawner::Spawner;
use listen_workers::desks::open_desks;
use row_table::line::words_in;
use session_doc::Site;
use spec_json::tree::Tree;
use std::alloc::{AllocError, Global};
use std::fmt::Write;
use std::sync::{Arc, Wait};
use std::thread::Threads;
use ws_edge::memory_socket_host::MemSocketHost;

/// 2024-01-01T00:00:00Z.
const CLOCK: StillClock = StillClock {
    moment: 1_704_067_200,
};

/// The most workers of a row.
const MAX_WORKERS: u32 = 16;

/// How a run of the `words` ended, whether calls on two accounts missed each other where they were to meet, and what was written of the connections and sent on the sockets of each worker.
///
/// `input` has the connections of each worker, `failing` the calls of their host that fail, `sockets` and `failing_sockets` the same of sockets, `threads` is for real threads, and `meets` for calls on two accounts that wait
/// for one another.
pub fn told<R: Threads + Wait + Copy + Send + Drop + 'static>(
    rt: R,
    alloc: Global,
    asked: &Tree,
    mut opener: MemOpener,
) -> Result<Option<String>, AllocError> {
    let Some(words) = asked.text_at("words") else {
        return Ok(None);
    };
    let words = words_in(alloc, words.as_str())?;
    let mut waiting = Vec::new(alloc);
    for worker in asked.list_at("input").unwrap_or(&[]) {
        let Tree::List(items) = worker else {
            return Ok(None);
        };
        waiting.push(connections_of(alloc, items.items())?)?;
    }
    let mut host = MemHost::new(alloc, rt, waiting, failing(alloc, asked)?)?;
    let Some(mut sockets) = socket_host(rt, alloc, asked)? else {
        return Ok(None);
    };
    let meeting = Arc::new(alloc, Meeting::new())?;
    let entered = if asked.truth_at("meets") == Some(true) {
        Some(&meeting)
    } else {
        None
    };
    let status = if asked.truth_at("threads") == Some(true) {
        let mut spawner = RealThreads::new(rt);
        run(
            rt,
            alloc,
            &words,
            &mut opener,
            &mut host,
            &mut sockets,
            &mut spawner,
            entered,
        )?
    } else {
        let mut spawner = InPlace::new(rt);
        run(
            rt,
            alloc,
            &words,
            &mut opener,
            &mut host,
            &mut sockets,
            &mut spawner,
            entered,
        )?
    };
    let missed = if meeting.was_missed() { ", missed" } else { "" };
    let mut told = format!(in alloc; "{status:?}{missed}")?;
    tell_outputs(alloc, &mut told, &host, &sockets)?;
    Ok(Some(told))
}

/// Runs the words, or serves the site that they name by accounts whose calls enter a meeting.
fn run<R: Threads + Wait + Copy + Send + Drop + 'static, S: Spawner>(
    rt: R,
    alloc: Global,
    words: &[String],
    opener: &mut MemOpener,
    host: &mut MemHost<R>,
    sockets: &mut MemSocketHost<R>,
    spawner: &mut S,
    entered: Option<&Arc<Meeting>>,
) -> Result<Status, AllocError> {
    let mut clock = CLOCK;
    match entered {
        Some(meeting) => run_gated(rt, alloc, words, opener, host, sockets, spawner, meeting),
        None => Ok(run_program(
            alloc,
            rt,
            words,
            opener,
            &mut MemSource::new(Vec::new(alloc), usize::MAX, Vec::new(alloc)),
            &mut MemSink::new(alloc, Vec::new(alloc)),
            &mut clock,
            host,
            sockets,
            spawner,
        )),
    }
}

/// Serves the site that words of `listen` name, by accounts whose calls enter a meeting.
fn run_gated<R: Threads + Wait + Copy + Send + Drop + 'static, S: Spawner>(
    rt: R,
    alloc: Global,
    words: &[String],
    opener: &mut MemOpener,
    host: &mut MemHost<R>,
    sockets: &mut MemSocketHost<R>,
    spawner: &mut S,
    meeting: &Arc<Meeting>,
) -> Result<Status, AllocError> {
    let Some(Command::Listen(asked)) = read_command(alloc, words)? else {
        return Ok(Status::Usage);
    };
    let site = match load_site(alloc, opener, asked.config) {
        Ok(site) => site,
        Err(status) => return Ok(status),
    };
    let desks = gated_desks(alloc, rt, &site, meeting, asked.all_workers())?;
    Ok(serve_site(alloc, &asked, site, desks, host, sockets, spawner, CLOCK))
}

/// A desk for each worker, over fresh accounts of a site whose calls enter a meeting.
fn gated_desks<R: Wait + Copy + Drop>(
    alloc: Global,
    rt: R,
    site: &Site,
    meeting: &Arc<Meeting>,
    workers: u32,
) -> Result<Vec<SharedDesk<R, GatedLock>>, AllocError>
    requires { (1 ≤ workers) × (workers ≤ 256) }
    ensures workers { IfOk result (λ desks. length desks.items ≡ workers) }
    ensures unused { IfOk result (λ desks. All (λ desk. IsUnused site.now (shown_by_passes account_rules desk)) desks.items) }
{
    open_desks(alloc, rt, gated_accounts(alloc, site, meeting)?, workers)
}

/// Tells what was written of the connections, and then what was sent on the sockets, those of worker 0 first.
fn tell_outputs<R: Wait + Copy + Send + Drop + 'static>(
    alloc: Global,
    told: &mut String,
    host: &MemHost<R>,
    sockets: &MemSocketHost<R>,
) -> Result<(), AllocError> {
    for worker in 0..MAX_WORKERS {
        for _ in 0..u64::MAX {
            match host.take_output(worker) {
                Some(output) => tell_output(alloc, told, worker, &output)?,
                None => break,
            }
        }
    }
    for worker in 0..MAX_WORKERS {
        for _ in 0..u64::MAX {
            match sockets.take_link(worker) {
                Some(shelved) => tell_socket(alloc, told, &shelved)?,
                None => break,
            }
        }
    }
    Ok(())
}
