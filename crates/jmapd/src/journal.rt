//! The commands `kept` and `slot` over a database in a file.

use crate::unopened::tell_unopened;
use command_line::kept::KeptCommand;
use io_edge::streams::{ReaderSource, WriterSink};
use io_edge::system_clock::SystemClock;
use io_edge::system_files::SystemFiles;
use jmapd_run::kept_status::KeptStatus;
use jmapd_run::status::Status;
use kept_run::run::run_kept;
use slot_run::run::run_slot;
use sql_keeper::open::{OpenError, open_file};
use std::io;

/// Opens the journal, and runs the lines of standard input over it. A journal that isn't opened is `OpenFault`, and a line on standard error tells why.
pub fn run_journal(rt: HostRuntime, asked: KeptCommand<'_>) -> KeptStatus {
    let mut keeper = match open_file(&rt, asked.journal) {
        Ok(keeper) => keeper,
        Err(error) => return KeptStatus::Plain(unopened(&rt, error, asked.journal)),
    };
    let done = run_kept(
        rt.alloc(),
        asked,
        &mut SystemFiles::new(rt.alloc(), rt),
        &mut ReaderSource::new(rt.reader()),
        &mut WriterSink::new(io::writer(&rt)),
        &mut SystemClock::new(rt),
        &mut keeper,
    );
    done.status
}

/// Opens the journal, and looks for the slot that standard input asks for. A journal that isn't opened is as in `run_journal`.
pub fn look_in_journal(rt: HostRuntime, asked: KeptCommand<'_>) -> KeptStatus {
    let mut keeper = match open_file(&rt, asked.journal) {
        Ok(keeper) => keeper,
        Err(error) => return KeptStatus::Plain(unopened(&rt, error, asked.journal)),
    };
    run_slot(
        rt.alloc(),
        asked,
        &mut SystemFiles::new(rt.alloc(), rt),
        &mut ReaderSource::new(rt.reader()),
        &mut WriterSink::new(io::writer(&rt)),
        &mut keeper,
    )
}

// Tells why the journal of a name isn't opened, and gives the status that it is.
fn unopened(rt: &HostRuntime, error: OpenError, name: &str) -> Status {
    tell_unopened(rt, error, name);
    match error {
        OpenError::NoMemory => Status::NoMemory,
        _ => Status::OpenFault,
    }
}
