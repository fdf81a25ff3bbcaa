//! Times calls of logs.

use crate::logs::steps::is_made;
use crate::logs::words::number;
use object_log::{ObjectLog, Put};
use std::alloc::{AllocError, Global};
use std::io;
use std::time::{Duration, Instant};

/// How often a call that takes less than a microsecond is made.
const SHORT_CALLS: u64 = 100_000;

/// How often a longer one is made.
const LONG_CALLS: u64 = 10;

/// What is made, and what is asked of it.
#[derive(Clone, Copy)]
struct Load {
    /// How many changes it has.
    entries: u64,
    /// How many ids they name, one after the other and then from the first again.
    ids: u64,
    /// How many states back from the last it is asked.
    back: u64,
    /// The most ids of a page.
    max: Option<u64>,
}

impl Load {
    fn read(words: &[String]) -> Option<Load> {
        let [entries, ids, back, max] = words else {
            return None;
        };
        Some(Load {
            entries: number(entries.as_str())?,
            ids: number(ids.as_str())?,
            back: number(back.as_str())?,
            max: number(max.as_str()),
        })
    }

    fn state(self) -> u64 {
        self.entries.saturating_sub(self.back)
    }

    /// The id that an entry names.
    fn id(self, entry: u64) -> u64 {
        entry.checked_rem(self.ids).unwrap_or(0).saturating_add(1)
    }

    /// One of the ids, far from that of the call before.
    fn scattered(self, call: u64) -> u64 {
        self.id(call.wrapping_mul(7919))
    }
}

fn put_of(load: Load, entry: u64) -> Put<u64> {
    Put {
        id: load.id(entry),
        object: Some(entry),
        size: 330,
    }
}

fn log_of(alloc: Global, load: Load) -> Result<ObjectLog<u64>, AllocError> {
    let mut log = ObjectLog::new(alloc);
    for entry in 0..load.entries {
        is_made(&mut log, put_of(load, entry))?;
    }
    Ok(log)
}

fn time_put(rt: &HostRuntime, load: Load) -> io::Result<(Duration, u64)> {
    let start = Instant::now(rt)?;
    let _log = log_of(rt.alloc(), load)?;
    Ok((start.elapsed(rt)?, load.entries))
}

fn found_now(log: &ObjectLog<u64>, load: Load) -> u64 {
    let mut found: u64 = 0;
    for call in 0..SHORT_CALLS {
        if log.get(load.scattered(call)).is_some() {
            found = found.wrapping_add(1);
        }
    }
    found
}

fn found_then(log: &ObjectLog<u64>, load: Load, calls: u64) -> u64 {
    let mut found: u64 = 0;
    for call in 0..calls {
        if was_live(log, load.scattered(call), load.state()) {
            found = found.wrapping_add(1);
        }
    }
    found
}

// Whether an id had an object at a state, where that is retained.
fn was_live(log: &ObjectLog<u64>, id: u64, state: u64) -> bool {
    log.retained(state) && log.get_at(id, state).is_some()
}

fn time_get(rt: &HostRuntime, load: Load) -> io::Result<(Duration, u64)> {
    let log = log_of(rt.alloc(), load)?;
    let start = Instant::now(rt)?;
    let found = found_now(&log, load);
    Ok((start.elapsed(rt)?, SHORT_CALLS.max(found)))
}

fn time_get_at(rt: &HostRuntime, load: Load) -> io::Result<(Duration, u64)> {
    let log = log_of(rt.alloc(), load)?;
    let calls = SHORT_CALLS / 100;
    let start = Instant::now(rt)?;
    let found = found_then(&log, load, calls);
    Ok((start.elapsed(rt)?, calls.max(found)))
}

fn time_live(rt: &HostRuntime, load: Load) -> io::Result<(Duration, u64)> {
    let log = log_of(rt.alloc(), load)?;
    let start = Instant::now(rt)?;
    for _ in 0..LONG_CALLS {
        log.live_ids(rt.alloc())?;
    }
    Ok((start.elapsed(rt)?, LONG_CALLS))
}

fn time_changes(rt: &HostRuntime, load: Load) -> io::Result<(Duration, u64)> {
    let log = log_of(rt.alloc(), load)?;
    let start = Instant::now(rt)?;
    for _ in 0..LONG_CALLS {
        let _page = log.changes(load.state(), load.max);
    }
    Ok((start.elapsed(rt)?, LONG_CALLS))
}

fn time_of(rt: &HostRuntime, call: &str, load: Load) -> io::Result<(Duration, u64)> {
    match call {
        "get" => time_get(rt, load),
        "get_at" => time_get_at(rt, load),
        "live" => time_live(rt, load),
        "changes" => time_changes(rt, load),
        _ => time_put(rt, load),
    }
}

/// Prints how many nanoseconds a call takes.
///
/// The words are the call, and then how many changes the log has, how many ids they name, how many states back it is asked, and the most ids of a page or `none`. `put` tells the time of a change, as the log is made.
pub fn tell(rt: &HostRuntime, words: &[String]) -> io::Result<()> {
    let [call, rest @ ..] = words else {
        return println!(rt; "no call");
    };
    let Some(load) = Load::read(rest) else {
        return println!(rt; "CALL ENTRIES IDS BACK MAXIMUM");
    };
    let (time, calls) = time_of(rt, call.as_str(), load)?;
    println!(rt; "{}", time.as_nanos() / u128::from(calls.max(1)))
}
