//! Rows of requests to `batch`, and the answers to them.
ghost use Rattle.std.specs.Prelude.{◌≡◌, true, false};

use crate::CLOCK;
use command_line::command::read_command;
use io_edge::memory_opener::SureOpener;
use io_edge::memory_sink::MemSink;
use io_edge::memory_source::MemSource;
use jmapd_run::run::run;
use jmapd_run::status::Status;
use row_table::line::unrolled;
use row_table::row::Row;
use row_table::trial::not_read;
use std::alloc::{AllocError, Global};

/// How the answer to a request begins that is refused as a whole (RFC 8620 section 3.6.1).
const PROBLEM: &str = "{\"detail\":";

/// How many bytes are given at once.
const PIECE: usize = 50;

/// The most bytes of a request whose input and output fail.
const MAX_FAILING: usize = 5000;

/// How `batch` ended, and what it wrote to.
#[derive(Drop)]
struct Outcome {
    status: Status,
    output: MemSink,
}

/// What `batch` does with a request, where these calls of `take` and of `give` fail.
fn outcome_of(
    alloc: Global,
    request: &str,
    failing_takes: Vec<u64>,
    failing_gives: Vec<u64>,
) -> Result<Outcome, AllocError> {
    let words = vec![in alloc; String::from_str(alloc, "batch")?]?;
    let mut opener = SureOpener::new(alloc, Vec::new(alloc));
    let mut input = MemSource::new(request.as_bytes().to_vec(alloc)?, PIECE, failing_takes);
    let mut output = MemSink::new(alloc, failing_gives);
    let mut clock = CLOCK;
    let status = run(
        alloc,
        read_command(alloc, &words)?,
        &mut opener,
        &mut input,
        &mut output,
        &mut clock,
    );
    Ok(Outcome { status, output })
}

/// How `batch` ends where it writes a problem, and where it writes a response.
fn status_of(is_problem: bool) -> Status
    ensures problem { is_problem ≡ true → result ≡ Status.Refused }
    ensures response { is_problem ≡ false → result ≡ Status.Done }
{
    if is_problem {
        Status::Refused
    } else {
        Status::Done
    }
}

/// Whether `batch` wrote this answer with a line feed, and ended as it has to with it. Of one that begins with `...` the end is shown.
fn has_answered(outcome: &Outcome, answer: &str) -> bool {
    let Some([text @ .., b'\n']) = outcome.output.bytes() else {
        return false;
    };
    let is_answer = match answer.strip_prefix("...") {
        Some(end) => text.ends_with(end.as_bytes()),
        None => text == answer.as_bytes(),
    };
    is_answer && outcome.status == status_of(text.starts_with(PROBLEM.as_bytes()))
}

/// Whether `batch` wrote nothing and ended so.
fn has_failed(outcome: &Outcome, status: Status) -> bool {
    outcome.status == status && outcome.output.bytes() == Some(b"".as_slice())
}

/// What `batch` does with a request, where it isn't what the table has.
pub fn other_than(alloc: Global, row: &Row) -> Result<Option<String>, AllocError> {
    let (Some(request), Some(answer)) = (
        unrolled(alloc, row.asked.as_str())?,
        unrolled(alloc, row.answer.as_str())?,
    ) else {
        return not_read(alloc);
    };
    let outcome = outcome_of(alloc, request.as_str(), Vec::new(alloc), Vec::new(alloc))?;
    if !has_answered(&outcome, answer.as_str()) {
        let written = outcome.output.bytes().unwrap_or_default();
        return Ok(Some(String::from_utf8_lossy(alloc, written)?));
    }
    other_at_faults(alloc, request.as_str())
}

/// What came where the input fails at one `take` after the other, or the output at its first `give`.
fn other_at_faults(alloc: Global, request: &str) -> Result<Option<String>, AllocError> {
    if request.len() > MAX_FAILING {
        return Ok(None);
    }
    let takes = request.len().div_ceil(PIECE) + 1;
    for take in 0..takes as u64 {
        let failing = vec![in alloc; take]?;
        let outcome = outcome_of(alloc, request, failing, Vec::new(alloc))?;
        if !has_failed(&outcome, Status::ReadFault) {
            return Ok(Some(format!(in alloc; "no read fault at take {take}")?));
        }
    }
    let failing = vec![in alloc; 0]?;
    let outcome = outcome_of(alloc, request, Vec::new(alloc), failing)?;
    if !has_failed(&outcome, Status::WriteFault) {
        return Ok(Some(String::from_str(alloc, "no write fault")?));
    }
    Ok(None)
}
