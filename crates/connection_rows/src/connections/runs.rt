//! Runs of the program over memory.
ghost use Rattle.std.specs.Prelude.{◌<◌};

use crate::CLOCK;
use crate::connections::case::Case;
use command_line::command::read_command;
use io_edge::fault::Failed;
use io_edge::memory_opener::MemOpener;
use io_edge::memory_sink::MemSink;
use io_edge::memory_source::MemSource;
use io_edge::source::Source;
use jmapd_run::run::run;
use jmapd_run::status::Status;
use row_table::files::Files;
use std::alloc::{AllocError, Global};

/// How the input is given, and which calls fail, by number from 0.
#[derive(Drop)]
pub struct Way {
    /// The most bytes that a `take` gives.
    pub most: usize,
    pub failing_takes: Vec<u64>,
    pub failing_gives: Vec<u64>,
    ghost some: { 0 < most },
}

impl Way {
    /// Nothing fails.
    pub fn in_pieces(alloc: Global, most: usize) -> Way
        requires { 0 < most }
    {
        Way {
            most,
            failing_takes: Vec::new(alloc),
            failing_gives: Vec::new(alloc),
        }
    }

    /// One byte at a time, and this take fails.
    pub fn with_failing_take(alloc: Global, call: u64) -> Result<Way, AllocError> {
        Ok(Way {
            most: 1,
            failing_takes: vec![in alloc; call]?,
            failing_gives: Vec::new(alloc),
        })
    }

    /// One byte at a time, and this give fails.
    pub fn with_failing_give(alloc: Global, call: u64) -> Result<Way, AllocError> {
        Ok(Way {
            most: 1,
            failing_takes: Vec::new(alloc),
            failing_gives: vec![in alloc; call]?,
        })
    }
}

/// How the program ended, what it wrote to, and how many bytes of the input it was given.
#[derive(Drop)]
pub struct RunOutcome {
    pub status: String,
    pub output: MemSink,
    pub given: usize,
}

/// A source that counts the bytes that it gave.
#[derive(Drop)]
struct CountingSource {
    inner: MemSource,
    given: usize,
}

impl Source for CountingSource {
    ghost shown = { λ source. ⟦<MemSource as Source>⟧.shown source.inner };

    fn take(&mut self, buf: &mut [u8]) -> Result<usize, Failed> {
        let count = self.inner.take(buf)?;
        self.given = self.given.saturating_add(count);
        Ok(count)
    }
}

/// What comes of a run of these words over these bytes.
pub fn outcome_of(
    alloc: Global,
    case: &Case,
    files: &Files,
    input: &[u8],
    way: Way,
) -> Result<RunOutcome, AllocError> {
    let Way {
        most,
        failing_takes,
        failing_gives,
    } = way;
    let mut opener = MemOpener::new(
        alloc,
        copied(alloc, files)?,
        case.failing_loads.as_slice().to_vec(alloc)?,
    );
    let mut source = CountingSource {
        inner: MemSource::new(input.to_vec(alloc)?, most, failing_takes),
        given: 0,
    };
    let mut output = MemSink::new(alloc, failing_gives);
    let mut clock = CLOCK;
    let status = run(
        alloc,
        read_command(alloc, &case.words)?,
        &mut opener,
        &mut source,
        &mut output,
        &mut clock,
    );
    Ok(RunOutcome {
        status: status_name(alloc, status)?,
        output,
        given: source.given,
    })
}

/// A copy of files. Takes memory for it.
pub fn copied(alloc: Global, files: &Files) -> Result<Files, AllocError> {
    let mut copies = Vec::new(alloc);
    for (name, bytes) in files {
        copies.push((name.clone()?, bytes.as_slice().to_vec(alloc)?))?;
    }
    Ok(copies)
}

/// The name of a status, with the field and the place where a configuration is refused.
pub fn status_name(alloc: Global, status: Status) -> Result<String, AllocError> {
    match status {
        Status::Config { field, index } => {
            let field = field.name();
            format!(in alloc; "Config {field} {index}")
        }
        status => format!(in alloc; "{status:?}"),
    }
}
